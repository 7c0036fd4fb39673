//! What a leaf answers.
ghost use Rattle.std.specs.Prelude.{◌≡◌, ◌≤◌, List, ℕ, length, option_map, IfOk};
ghost use Rattle.mv_base.specs.declared.addr.Addr.TheVariants.{V4};
ghost use Rattle.bgp_values.specs.mvpn_nlri.Spelling.{IsKey};
ghost use Rattle.bgp_messages.specs.declared.bgp_attributes.update.Change.TheVariants.{Reach};
ghost use Rattle.bgp_messages.specs.bgp_update.Written.{written, IsWritable};
ghost use Rattle.ingress_rep.specs.Ingress.{answer_of, request_of, IsSpelledSelective};
ghost use Rattle.ingress_rep.specs.Answers.{answer_to, IsIpv4};

use crate::copying::{answer_key, root_target};
use crate::request::{Request, request_of};
use bgp_messages::bgp_update::{Advert, Change, EncodeFault, encode};
use bgp_values::pmsi_attr::{Pmsi, Tunnel};
use mv_base::{Addr, Bytes, NoMemory, Seq};
use std::alloc::Global;

/// The route by which the leaf answers under the label.
fn answer_of(alloc: Global, request: &Request, leaf: Addr, label: u32) -> Result<Change, NoMemory>
    ensures { IfOk result (λ change. change ≡ Reach (answer_of request.now leaf label)) }
{
    let mut comms = Seq::new(alloc);
    comms.push(root_target(request))?;
    Ok(Change::Reach(Advert {
        key: answer_key(request, leaf),
        next_hop: leaf,
        comms,
        pmsi: Some(Pmsi {
            leaf_info: false,
            tunnel: Tunnel::Ingress(leaf),
            label: Some(label),
        }),
    }))
}

/// The octets of the leaf's answer to the request.
#[tactic(auto, using(crate::proofs::AnswerLemmas::answer_writable, crate::proofs::AnswerLemmas::answer_short))]
fn written_answer(
    alloc: Global,
    request: &Request,
    leaf: [u8; 4],
    label: u32,
) -> Result<Bytes, NoMemory>
    requires key { IsKey request.now.afi request.now.key }
    requires least { 16 ≤ label }
    requires most { label ≤ 1048575 }
    ensures { IfOk result (λ octets. octets ≡ written (Reach (answer_of request.now (V4 leaf) label))) }
{
    let change = answer_of(alloc, request, Addr::V4(leaf), label)?;
    match encode(alloc, &change) {
        Ok(octets) => Ok(octets),
        Err(EncodeFault::NoMemory) => Err(NoMemory),
        Err(EncodeFault::TooLong) => unreachable!(),
    }
}

/// The octets by which the leaf answers a route of a root under its label, if the route asks for an answer.
pub fn answer(
    alloc: Global,
    me: Addr,
    label: u32,
    advert: &Advert,
) -> Result<Option<Bytes>, NoMemory>
    requires ipv4 { IsIpv4 me }
    requires least { 16 ≤ label }
    requires most { label ≤ 1048575 }
    requires spelled { IsSpelledSelective advert.now.key }
    ensures { IfOk result (λ answer. answer ≡ answer_to me label advert.now) }
{
    let Addr::V4(leaf) = me else { unreachable!() };
    match request_of(advert) {
        None => Ok(None),
        Some(request) => {
            let octets = written_answer(alloc, &request, leaf, label)?;
            Ok(Some(octets))
        }
    }
}
