//! The label steps of a node: what each call does itself, and the trees that settle then.
ghost use Rattle.std.specs.Prelude.{◌≡◌, ◌<◌, ◌^◌, ◌∷◌, [], ℕ, length, None, All, IfOk, OnOk};
ghost use Rattle.std.specs.FinMap as maps;
ghost use Rattle.mv_base.specs.declared.ids.NodeId.{NodeId};
ghost use Rattle.mldp.specs.mldp_msgs.Spelling.{IsElement, IsLabel};
ghost use Rattle.mldp.specs.declared.mldp_msgs.message.LabelMessage.TheVariants as messages;
ghost use Rattle.label_defs.specs.Steps.{Taken, Want, Unwant, Raised, Noticed, Timers, Rerouted, twice};
ghost use Rattle.mldp_node.specs.Parts.{AreTied, Finished, IsPut, IsSpelled, LacksAny, LacksLabels, Made};

use crate::fault::NodeFault;
use crate::label_ends::Ends;
use crate::settling::{put, settle_all};
use crate::standing::Standing;
use crate::telling::tell_all;
use core_paths::Core;
use label_defs::Put;
use label_trees::LabelTrees;
use label_trees::of_tunnel_bindings::Incarnation;
use mldp::mldp_fec::Fec;
use mldp::mldp_msgs::LabelMessage;
use mv_base::{NoMemory, NodeId};
use std::alloc::Global;

/// The trees settle one after another, and all that was put is told.
fn finish(
    place: &Standing,
    core: &Core,
    trees: &mut LabelTrees,
    ends: &mut Ends,
    fecs: &[Fec],
    puts: Vec<Put>,
) -> Result<(), NodeFault>
    requires nodes { core.now.nodes ≡ length place.now.addrs }
    requires tied { AreTied trees.old ends.old }
    requires written { All IsPut puts.items }
    ensures ok { OnOk result (Finished core.now place.now fecs.now trees.old ends.old puts.items trees.new ends.new) }
    ensures lacks { result ≡ Err NodeFault.NoLabel → LacksAny core.now place.now fecs.now ends.old trees.old puts.items }
{
    let mut puts = puts;
    match settle_all(place, core, trees, ends, fecs, &mut puts) {
        Err(fault) => Err(fault),
        Ok(()) => {
            tell_all(ends, place.addr(), &puts)?;
            Ok(())
        }
    }
}

/// The node becomes a leaf of the tree.
pub(crate) fn want(
    place: &Standing,
    core: &Core,
    trees: &mut LabelTrees,
    ends: &mut Ends,
    fec: &Fec,
) -> Result<(), NodeFault>
    requires nodes { core.now.nodes ≡ length place.now.addrs }
    requires tied { AreTied trees.old ends.old }
    requires spelled { IsElement fec.now }
    ensures ok { OnOk result ((now : ℕ) → Made core.now place.now now (Want fec.now) trees.old ends.old trees.new ends.new) }
    ensures lacks { result ≡ Err NodeFault.NoLabel → (now : ℕ) → LacksLabels core.now place.now now (Want fec.now) trees.old ends.old }
{
    trees.set_leaf(fec, true)?;
    finish(place, core, trees, ends, &[*fec], Vec::new(place.alloc()))
}

/// The node stops being a leaf of the tree.
pub(crate) fn unwant(
    place: &Standing,
    core: &Core,
    trees: &mut LabelTrees,
    ends: &mut Ends,
    fec: &Fec,
) -> Result<(), NodeFault>
    requires nodes { core.now.nodes ≡ length place.now.addrs }
    requires tied { AreTied trees.old ends.old }
    ensures ok { OnOk result ((now : ℕ) → Made core.now place.now now (Unwant fec.now) trees.old ends.old trees.new ends.new) }
    ensures lacks { result ≡ Err NodeFault.NoLabel → (now : ℕ) → LacksLabels core.now place.now now (Unwant fec.now) trees.old ends.old }
{
    trees.set_leaf(fec, false)?;
    finish(place, core, trees, ends, &[*fec], Vec::new(place.alloc()))
}

/// A mapping of a tree adds a branch.
fn take_mapping(
    place: &Standing,
    core: &Core,
    trees: &mut LabelTrees,
    ends: &mut Ends,
    from: NodeId,
    fec: &Fec,
    label: u32,
) -> Result<(), NodeFault>
    requires nodes { core.now.nodes ≡ length place.now.addrs }
    requires tied { AreTied trees.old ends.old }
    requires spelled { IsElement fec.now }
    ensures ok { OnOk result ((now : ℕ) →
        Made core.now place.now now (Taken from (messages.Mapping fec.now label)) trees.old ends.old trees.new ends.new) }
    ensures lacks { result ≡ Err NodeFault.NoLabel → (now : ℕ) →
        LacksLabels core.now place.now now (Taken from (messages.Mapping fec.now label)) trees.old ends.old }
{
    if place.is_tree(fec) {
        trees.branch(from, fec, label)?;
        finish(place, core, trees, ends, &[*fec], Vec::new(place.alloc()))
    } else {
        finish(place, core, trees, ends, &[*fec], Vec::new(place.alloc()))
    }
}

/// A withdraw drops the branch, and is answered by a release (RFC 5036 section 3.5.10.1).
fn take_withdraw(
    place: &Standing,
    core: &Core,
    trees: &mut LabelTrees,
    ends: &mut Ends,
    from: NodeId,
    fec: &Fec,
    label: u32,
) -> Result<(), NodeFault>
    requires nodes { core.now.nodes ≡ length place.now.addrs }
    requires tied { AreTied trees.old ends.old }
    requires spelled { IsElement fec.now }
    requires label { IsLabel label }
    ensures ok { OnOk result ((now : ℕ) →
        Made core.now place.now now (Taken from (messages.Withdraw fec.now label)) trees.old ends.old trees.new ends.new) }
    ensures lacks { result ≡ Err NodeFault.NoLabel → (now : ℕ) →
        LacksLabels core.now place.now now (Taken from (messages.Withdraw fec.now label)) trees.old ends.old }
{
    trees.unbranch(from, fec, label);
    let mut puts = Vec::new(place.alloc());
    put(&mut puts, from, LabelMessage::Release(*fec, label))?;
    finish(place, core, trees, ends, &[*fec], puts)
}

/// From its release on a label that was leaving rests.
fn take_release(
    place: &Standing,
    core: &Core,
    trees: &mut LabelTrees,
    ends: &mut Ends,
    from: NodeId,
    fec: &Fec,
    label: u32,
    now: u64,
) -> Result<(), NodeFault>
    requires nodes { core.now.nodes ≡ length place.now.addrs }
    requires tied { AreTied trees.old ends.old }
    requires life { trees.old.uses.life ≡ place.now.life }
    requires now { now < 2 ^ 63 }
    ensures ok { OnOk result (Made core.now place.now now (Taken from (messages.Release fec.now label))
        trees.old ends.old trees.new ends.new) }
    ensures lacks { result ≡ Err NodeFault.NoLabel →
        LacksLabels core.now place.now now (Taken from (messages.Release fec.now label)) trees.old ends.old }
{
    trees.release(from, fec, label, now);
    finish(place, core, trees, ends, &[], Vec::new(place.alloc()))
}

/// A message that says nothing of a multipoint LSP changes nothing.
fn pass(
    place: &Standing,
    core: &Core,
    trees: &mut LabelTrees,
    ends: &mut Ends,
) -> Result<(), NodeFault>
    requires nodes { core.now.nodes ≡ length place.now.addrs }
    requires tied { AreTied trees.old ends.old }
    ensures ok { OnOk result ((now : ℕ) (from : NodeId) (kind : ℕ) →
        Made core.now place.now now (Taken from (messages.Ignored kind)) trees.old ends.old trees.new ends.new) }
    ensures lacks { result ≡ Err NodeFault.NoLabel → (now : ℕ) (from : NodeId) (kind : ℕ) →
        LacksLabels core.now place.now now (Taken from (messages.Ignored kind)) trees.old ends.old }
{
    finish(place, core, trees, ends, &[], Vec::new(place.alloc()))
}

/// The node takes the message of the neighbour.
pub(crate) fn take(
    place: &Standing,
    core: &Core,
    trees: &mut LabelTrees,
    ends: &mut Ends,
    from: NodeId,
    message: &LabelMessage,
    now: u64,
) -> Result<(), NodeFault>
    requires nodes { core.now.nodes ≡ length place.now.addrs }
    requires tied { AreTied trees.old ends.old }
    requires life { trees.old.uses.life ≡ place.now.life }
    requires now { now < 2 ^ 63 }
    requires spelled { IsSpelled message.now }
    ensures ok { OnOk result (Made core.now place.now now (Taken from message.now) trees.old ends.old trees.new ends.new) }
    ensures lacks { result ≡ Err NodeFault.NoLabel → LacksLabels core.now place.now now (Taken from message.now) trees.old ends.old }
{
    match message {
        LabelMessage::Mapping(fec, label) => take_mapping(
            place, core, trees, ends, from, fec, *label,
        ),
        LabelMessage::Withdraw(fec, label) => take_withdraw(
            place, core, trees, ends, from, fec, *label,
        ),
        LabelMessage::Release(fec, label) => take_release(
            place, core, trees, ends, from, fec, *label, now,
        ),
        LabelMessage::Ignored(_) => pass(place, core, trees, ends),
    }
}

/// The end of the session with the neighbour comes up.
pub(crate) fn raised(
    place: &Standing,
    core: &Core,
    trees: &mut LabelTrees,
    ends: &mut Ends,
    peer: NodeId,
    now: u64,
) -> Result<(), NodeFault>
    requires nodes { core.now.nodes ≡ length place.now.addrs }
    requires tied { AreTied trees.old ends.old }
    requires down { maps.get ends.old.up peer ≡ None }
    ensures ok { OnOk result (Made core.now place.now now (Raised peer) trees.old ends.old trees.new ends.new) }
    ensures lacks { result ≡ Err NodeFault.NoLabel → LacksLabels core.now place.now now (Raised peer) trees.old ends.old }
{
    let count = ends.raise(peer, now)?;
    trees.raise(peer, Incarnation(count))?;
    finish(place, core, trees, ends, &[], Vec::new(place.alloc()))
}

/// The end of the session with the neighbour notices its loss.
pub(crate) fn noticed(
    place: &Standing,
    core: &Core,
    trees: &mut LabelTrees,
    ends: &mut Ends,
    peer: NodeId,
) -> Result<(), NodeFault>
    requires nodes { core.now.nodes ≡ length place.now.addrs }
    requires tied { AreTied trees.old ends.old }
    ensures ok { OnOk result ((now : ℕ) → Made core.now place.now now (Noticed peer) trees.old ends.old trees.new ends.new) }
    ensures lacks { result ≡ Err NodeFault.NoLabel → (now : ℕ) → LacksLabels core.now place.now now (Noticed peer) trees.old ends.old }
{
    let fecs = trees.trees()?;
    trees.lose(peer)?;
    ends.lose(peer);
    finish(place, core, trees, ends, &fecs, Vec::new(place.alloc()))
}

/// Labels whose rest is over are free, holds that are due are run, and the trees that wait settle.
pub(crate) fn timers(
    place: &Standing,
    core: &Core,
    trees: &mut LabelTrees,
    ends: &mut Ends,
    now: u64,
) -> Result<(), NodeFault>
    requires nodes { core.now.nodes ≡ length place.now.addrs }
    requires tied { AreTied trees.old ends.old }
    ensures ok { OnOk result (Made core.now place.now now Timers trees.old ends.old trees.new ends.new) }
    ensures lacks { result ≡ Err NodeFault.NoLabel → LacksLabels core.now place.now now Timers trees.old ends.old }
{
    let fecs = trees.waiting()?;
    trees.wake(now);
    ends.run_holds(place.life(), now);
    finish(place, core, trees, ends, &fecs, Vec::new(place.alloc()))
}

/// Each of the trees two times in a row.
fn twice(alloc: Global, fecs: &[Fec]) -> Result<Vec<Fec>, NoMemory>
    ensures { IfOk result (λ both. both.items ≡ twice fecs.now) }
{
    let mut both = Vec::new(alloc);
    for fec in fecs {
        both.push(*fec)?;
        both.push(*fec)?;
    }
    Ok(both)
}

/// Next hops towards roots changed: each tree settles twice in a row, so that its label leaves the old neighbour before one is
/// mapped to the new one.
pub(crate) fn rerouted(
    place: &Standing,
    core: &Core,
    trees: &mut LabelTrees,
    ends: &mut Ends,
) -> Result<(), NodeFault>
    requires nodes { core.now.nodes ≡ length place.now.addrs }
    requires tied { AreTied trees.old ends.old }
    ensures ok { OnOk result ((now : ℕ) → Made core.now place.now now Rerouted trees.old ends.old trees.new ends.new) }
    ensures lacks { result ≡ Err NodeFault.NoLabel → (now : ℕ) → LacksLabels core.now place.now now Rerouted trees.old ends.old }
{
    let fecs = trees.trees()?;
    let both = twice(place.alloc(), &fecs)?;
    finish(place, core, trees, ends, &both, Vec::new(place.alloc()))
}
