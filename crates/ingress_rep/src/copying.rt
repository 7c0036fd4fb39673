//! The copies that a root sends.
ghost use Rattle.std.specs.Prelude.{◌≡◌, ◌++◌, [], filter_map, option_map, IfOk, OnOk};
ghost use Rattle.std.specs.List.{cons_option, list_any};
ghost use Rattle.ingress_rep.specs.Ingress.{answer_in, answer_key, copies_of, copy_of, label_to, label_told, request_of, root_target, same_comm};

use crate::request::{Request, is_answer, request_of};
use bgp_messages::bgp_update::{Advert, Adverts, Key};
use bgp_values::mvpn_nlri::Route;
use bgp_values::pmsi_attr::{Pmsi, Tunnel};
use mv_base::route_targets::ExtComm;
use mv_base::{Addr, NoMemory, Seq};
use std::alloc::Global;

/// The routes that were taken of a peer, each key once.
#[derive(Drop)]
pub struct TakenTable {
    pub peer: Addr,
    pub table: Adverts,
}

/// The tables of the peers, by rising address.
pub type TakenTables = Seq<TakenTable>;

/// A copy to a leaf, under its label.
#[derive(Clone, Copy)]
pub struct LeafCopy {
    pub leaf: Addr,
    pub label: u32,
}

/// Copies, by rising address.
pub type Copies = Seq<LeafCopy>;

/// The Route Target of the root's address, with number 0.
pub(crate) fn root_target(request: &Request) -> ExtComm
    ensures { result ≡ root_target request.now }
{
    let [a, b, c, d] = request.root;
    ExtComm([0x01, 0x02, a, b, c, d, 0, 0])
}

/// The key of the leaf's answer.
pub(crate) fn answer_key(request: &Request, leaf: Addr) -> Key
    ensures { result ≡ answer_key request.now leaf }
{
    Key::Mcast(
        request.afi,
        Route::Leaf {
            key: request.key,
            originator: leaf,
        },
    )
}

fn same_comm(own: ExtComm, other: &ExtComm) -> bool
    ensures { result ≡ same_comm own other.now }
{
    own.0 == other.0
}

fn has_comm(comms: &[ExtComm], wanted: ExtComm) -> bool
    ensures { result ≡ list_any (same_comm wanted) comms.now }
{
    comms.iter().any(|comm| same_comm(wanted, comm))
}

/// The label of ingress replication that ends at the leaf.
fn label_to(leaf: Addr, pmsi: &Option<Pmsi>) -> Option<u32>
    ensures { result ≡ label_to leaf pmsi.now }
{
    let Some(pmsi) = pmsi else {
        return None;
    };
    match pmsi.tunnel {
        Tunnel::Ingress(addr) => {
            let label = pmsi.label?;
            if addr.same(leaf) { Some(label) } else { None }
        }
        _ => None,
    }
}

/// The label that a route tells of the leaf, if it is an answer to the request.
#[tactic(auto, unfolding(crate::specs::Ingress::label_told))]
fn label_told(request: &Request, leaf: Addr, advert: &Advert) -> Option<u32>
    ensures { result ≡ label_told request.now leaf advert.now }
{
    let label = label_to(leaf, &advert.pmsi)?;
    let has_target = has_comm(advert.comms.as_slice(), root_target(request));
    if advert.next_hop.same(leaf) && has_target && 16 <= label {
        Some(label)
    } else {
        None
    }
}

/// The leaf's answer in a table.
fn answer_in<'a>(request: &Request, leaf: Addr, table: &'a [Advert]) -> Option<&'a Advert>
    ensures { option_map (λ advert. advert.now) result ≡ answer_in request.now leaf table.now }
{
    table
        .iter()
        .find(|advert| is_answer(request, leaf, &advert.key))
}

/// The copy that goes to a peer, by the answer in its table.
#[tactic(auto, unfolding(crate::specs::Ingress::copy_of))]
fn copy_of(request: &Request, taken: &TakenTable) -> Option<LeafCopy>
    ensures { result ≡ copy_of request.now taken.now }
{
    let advert = answer_in(request, taken.peer, taken.table.as_slice())?;
    let label = label_told(request, taken.peer, advert)?;
    Some(LeafCopy {
        leaf: taken.peer,
        label,
    })
}

/// Appends the copy that goes to a peer, if there is one.
fn push_copy(copies: &mut Copies, request: &Request, taken: &TakenTable) -> Result<(), NoMemory>
    ensures { OnOk result (copies.new ≡ copies.old ++ cons_option (copy_of request.now taken.now) []) }
{
    match copy_of(request, taken) {
        None => Ok(()),
        Some(copy) => copies.push(copy),
    }
}

/// Appends the copies that go to the peers.
fn push_copies(copies: &mut Copies, request: &Request, taken: &[TakenTable]) -> Result<(), NoMemory>
    ensures { OnOk result (copies.new ≡ copies.old ++ filter_map (copy_of request.now) taken.now) }
{
    let mut rest = taken;
    'taken: while let [table, more @ ..] = rest {
        push_copy(copies, request, table)?;
        rest = more;
    }
    Ok(())
}

/// The copies that the root of the route sends: one to each peer whose table has its answer to the route, under the label
/// that the answer tells. Of a route that asks for no answer there are none.
#[tactic(auto, unfolding(crate::specs::Ingress::copies_of))]
pub fn copies(alloc: Global, advert: &Advert, taken: &TakenTables) -> Result<Copies, NoMemory>
    ensures { IfOk result (λ copies. copies ≡ copies_of (request_of advert.now) taken.now) }
{
    let mut copies = Seq::new(alloc);
    if let Some(request) = request_of(advert) {
        push_copies(&mut copies, &request, taken.as_slice())?;
    }
    Ok(copies)
}
