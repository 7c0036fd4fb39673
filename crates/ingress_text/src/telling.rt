//! What is told of a text.
ghost use Rattle.std.specs.Prelude.{◌≡◌, ◌++◌, ◌||◌, is_some, map, IfOk, OnOk};
ghost use Rattle.std.specs.Ordering.{nat_cmp};
ghost use Rattle.std.specs.BTreeMap as tree;
ghost use Rattle.ingress_text.specs.Drafted.{number_by};
ghost use Rattle.ingress_text.specs.Telling.{after, answer_line, answer_octets, fault_by, fault_text, line_text};
ghost use Rattle.ingress_text.specs.Telling.{peers_in, shown, table_of, Changes, Takes, Tells};

use crate::input::{Input, Label, Line, Root, Said};
use crate::peers::{Peer, Peers, take_from};
use crate::put::{put_answer, put_copies, put_fault};
use ingress_rep::{TakenTable, TakenTables, answer, copies};
use mv_base::{Addr, Bytes, NoMemory, Seq};
use std::alloc::Global;
use std::collections::BTreeMap;

/// The lines that are told, and whether one of them tells a fault.
#[derive(Drop)]
pub struct Told {
    pub text: Bytes,
    pub refused: bool,
}

/// The octets by which the leaf answers the root.
#[tactic(auto, unfolding(crate::specs::Telling::answer_octets))]
fn answer_by(alloc: Global, root: &Root, leaf: [u8; 4], label: &Label) -> Result<Bytes, NoMemory>
    ensures { IfOk result (λ octets. octets ≡ answer_octets root.now leaf label.now) }
{
    match answer(alloc, Addr::V4(leaf), label.number(), root.advert())? {
        Some(octets) => Ok(octets),
        None => unreachable!(),
    }
}

/// Tells the answer of a leaf, whose octets are then taken of it.
fn tell_answer(
    peers: &mut Peers,
    text: &mut Bytes,
    root: &Root,
    leaf: [u8; 4],
    label: &Label,
) -> Result<(), NoMemory>
    ensures peers { OnOk result (Takes root.now.request leaf (answer_octets root.now leaf label.now) peers.old peers.new) }
    ensures text { OnOk result (text.new ≡ text.old ++ answer_line leaf (answer_octets root.now leaf label.now)) }
{
    let octets = answer_by(text.alloc(), root, leaf, label)?;
    put_answer(text, leaf, octets.as_slice())?;
    take_from(text.alloc(), peers, root.request(), leaf, octets.as_slice())?;
    Ok(())
}

/// Takes octets of a peer, and tells the first fault of its stream where they show it. Answers whether they do.
fn tell_piece(
    peers: &mut Peers,
    text: &mut Bytes,
    root: &Root,
    number: u32,
    peer: [u8; 4],
    octets: &[u8],
) -> Result<bool, NoMemory>
    ensures peers { OnOk result (Takes root.now.request peer octets.now peers.old peers.new) }
    ensures text { OnOk result (text.new ≡ text.old ++ fault_text number (fault_by root.now.request peer octets.now peers.old)) }
    ensures refused { IfOk result (λ refused. refused ≡ is_some (fault_by root.now.request peer octets.now peers.old)) }
{
    match take_from(text.alloc(), peers, root.request(), peer, octets)? {
        None => Ok(false),
        Some((place, fault)) => {
            put_fault(text, number, place, fault)?;
            Ok(true)
        }
    }
}

/// Tells a line. Answers whether it shows a fault.
fn tell_line(
    peers: &mut Peers,
    text: &mut Bytes,
    root: &Root,
    line: &Line,
) -> Result<bool, NoMemory>
    ensures peers { OnOk result (Changes (number_by line.now) (after root.now (peers_in peers.old) line.now) peers.old peers.new) }
    ensures text { OnOk result (text.new ≡ text.old ++ line_text root.now (peers_in peers.old) line.now line.now.said) }
    ensures refused { IfOk result (λ refused. refused ≡ is_some (shown root.now (peers_in peers.old) line.now line.now.said)) }
{
    match &line.said {
        Said::Leaf { leaf, label } => {
            tell_answer(peers, text, root, *leaf, label)?;
            Ok(false)
        }
        Said::From { peer, octets } => {
            tell_piece(peers, text, root, line.number, *peer, octets.as_slice())
        }
    }
}

fn either(one: bool, other: bool) -> bool
    ensures { result ≡ (one || other) }
{
    one || other
}

/// The table of a peer, as far as it is an answer.
fn table_of(alloc: Global, number: u32, peer: Peer) -> Result<TakenTable, NoMemory>
    ensures { IfOk result (λ table. table ≡ table_of (number, peer)) }
{
    let Peer { answer, .. } = peer;
    let mut table = Seq::new(alloc);
    let peer = Addr::V4(number.to_be_bytes());
    match answer {
        None => Ok(TakenTable { peer, table }),
        Some(advert) => {
            table.push(advert)?;
            Ok(TakenTable { peer, table })
        }
    }
}

/// The tables of the peers, by rising numbers.
fn tables_of(alloc: Global, mut peers: Peers) -> Result<TakenTables, NoMemory>
    ensures tables { IfOk result (λ tables. tables ≡ map table_of peers.entries) }
    ensures ordered { tree.IsOrdered nat_cmp peers }
{
    let mut tables = Vec::with_capacity(alloc, peers.len())?;
    'peers: while let Some((number, peer)) = peers.pop_first() {
        tables.push(table_of(alloc, number, peer)?)?;
    }
    Ok(Seq::from_vec(tables))
}

/// Tells what the text said: its lines one after another, and after them the copies that the root sends.
pub fn tell(alloc: Global, input: &Input) -> Result<Told, NoMemory>
    ensures { IfOk result (λ told. Tells told.refused input.now told.text) }
{
    let root = &input.root;
    let mut text = Bytes::new(alloc);
    let mut refused = false;
    let mut peers = BTreeMap::new(alloc);
    let mut rest = input.lines.as_slice();
    'lines: while let [line, more @ ..] = rest {
        let shown = tell_line(&mut peers, &mut text, root, line)?;
        let told = either(refused, shown);
        refused = told;
        rest = more;
    }
    let tables = tables_of(alloc, peers)?;
    let copies = copies(alloc, root.advert(), &tables)?;
    put_copies(&mut text, copies.as_slice())?;
    Ok(Told { text, refused })
}
