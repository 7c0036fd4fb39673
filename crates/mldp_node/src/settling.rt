//! A tree that settles (RFC 6388 sections 2.4.1.1 and 2.4.2.1).
ghost use Rattle.std.specs.Prelude.{◌≡◌, ◌++◌, ◌∷◌, [], true, length, is_some, Option, None, Some, All, OnOk};
ghost use Rattle.std.specs.FinMap as maps;
ghost use Rattle.std.specs.FinMap.{FinMap};
ghost use Rattle.mv_base.specs.declared.ids.NodeId.{NodeId};
ghost use Rattle.label_defs.specs.declared.end.End.{End};
ghost use Rattle.label_defs.specs.Keys.{node_cmp};
ghost use Rattle.label_defs.specs.declared.change.Change.TheVariants as changes;
ghost use Rattle.label_defs.specs.Settling.{upstream_of, same_neighbour, change_by, withdrawn};
ghost use Rattle.label_trees.specs.label_uses.Uses.{use_in, free_in, mapped_in};
ghost use Rattle.mldp_node.specs.Parts.{held_at, AllSettledSo, AreTied, IsPut, LacksAny, LacksOne, SettledSo, Turned};

use crate::fault::NodeFault;
use crate::label_ends::Ends;
use crate::standing::Standing;
use core_paths::Core;
use label_defs::Put;
use label_trees::LabelTrees;
use mldp::mldp_fec::Fec;
use mldp::mldp_msgs::LabelMessage;
use mv_base::{NoMemory, NodeId};

/// Whether the session with the neighbour is up, and its hold was run.
fn is_ready(ends: &Ends, peer: NodeId) -> bool
    ensures { result ≡ held_at ends.now.up peer }
{
    match ends.end(peer) {
        None => false,
        Some(end) => end.held,
    }
}

/// Whether both are one neighbour, or none.
fn same_neighbour(a: Option<NodeId>, b: Option<NodeId>) -> bool
    ensures { result ≡ same_neighbour a b }
{
    match (a, b) {
        (Some(a), Some(b)) => a.0 == b.0,
        (None, None) => true,
        _ => false,
    }
}

/// The message is put to the neighbour.
pub(crate) fn put(puts: &mut Vec<Put>, to: NodeId, message: LabelMessage) -> Result<(), NoMemory>
    ensures { OnOk result (puts.new.items ≡ puts.old.items ++ record { to = to; message = message } ∷ []) }
{
    puts.push(Put { to, message })?;
    Ok(())
}

/// The label is withdrawn from the neighbour towards which it is mapped to the tree.
fn withdraw(
    trees: &mut LabelTrees,
    fec: &Fec,
    label: u32,
    puts: &mut Vec<Put>,
) -> Result<(), NoMemory>
    requires { mapped_in trees.old.uses.labels fec.now ≡ Some label }
    ensures { OnOk result ((toward : Option NodeId) →
        Turned toward fec.now (withdrawn label (upstream_of (use_in trees.old.uses.labels label)))
        trees.old puts.old.items trees.new puts.new.items) }
{
    match trees.upstream(label) {
        None => Ok(()),
        Some(upstream) => {
            trees.leave(label, fec, upstream)?;
            put(puts, upstream, LabelMessage::Withdraw(*fec, label))
        }
    }
}

/// The tree gets the least free label, towards the neighbour.
fn map(
    trees: &mut LabelTrees,
    fec: &Fec,
    upstream: NodeId,
    puts: &mut Vec<Put>,
) -> Result<(), NodeFault>
    requires up { is_some (maps.get trees.old.uses.sessions upstream) ≡ true }
    requires unmapped { mapped_in trees.old.uses.labels fec.now ≡ None }
    ensures ok { OnOk result (
        Turned (Some upstream) fec.now (change_by true None None (Some upstream) true (free_in trees.old.uses.labels))
        trees.old puts.old.items trees.new puts.new.items) }
    ensures lacks { result ≡ Err NodeFault.NoLabel → free_in trees.old.uses.labels ≡ None }
{
    match trees.map(fec, upstream)? {
        None => Err(NodeFault::NoLabel),
        Some(label) => {
            put(puts, upstream, LabelMessage::Mapping(*fec, label))?;
            Ok(())
        }
    }
}

/// The tree waits for a label towards the neighbour.
fn wait(
    trees: &mut LabelTrees,
    fec: &Fec,
    upstream: NodeId,
    puts: &Vec<Put>,
) -> Result<(), NoMemory>
    ensures { OnOk result (Turned (Some upstream) fec.now changes.Wait trees.old puts.now.items trees.new puts.now.items) }
{
    trees.wait(fec, upstream)
}

/// The tree waits no longer.
fn cancel(trees: &mut LabelTrees, fec: &Fec, puts: &Vec<Put>)
    ensures { (toward : Option NodeId) → Turned toward fec.now changes.Cancel trees.old puts.now.items trees.new puts.now.items }
{
    trees.unwait(fec);
}

/// The tree, on which the node is, gets a label towards the neighbour, or waits for one until the session is ready.
fn reach(
    trees: &mut LabelTrees,
    ends: &Ends,
    fec: &Fec,
    upstream: NodeId,
    puts: &mut Vec<Put>,
) -> Result<(), NodeFault>
    requires up { is_some (maps.get trees.old.uses.sessions upstream) ≡ is_some (maps.get ends.now.up upstream) }
    requires unmapped { mapped_in trees.old.uses.labels fec.now ≡ None }
    ensures ok { OnOk result (Turned (Some upstream) fec.now
        (change_by true None None (Some upstream) (held_at ends.now.up upstream) (free_in trees.old.uses.labels))
        trees.old puts.old.items trees.new puts.new.items) }
    ensures lacks { result ≡ Err NodeFault.NoLabel →
        change_by true None None (Some upstream) (held_at ends.now.up upstream) (free_in trees.old.uses.labels) ≡ changes.NoLabel }
{
    if is_ready(ends, upstream) {
        map(trees, fec, upstream, puts)
    } else {
        wait(trees, fec, upstream, puts)?;
        Ok(())
    }
}

/// A tree to which no label is mapped settles.
fn settle_unmapped(
    trees: &mut LabelTrees,
    ends: &Ends,
    fec: &Fec,
    upstream: Option<NodeId>,
    puts: &mut Vec<Put>,
) -> Result<(), NodeFault>
    requires up { (peer : NodeId) → is_some (maps.get trees.old.uses.sessions peer) ≡ is_some (maps.get ends.now.up peer) }
    requires unmapped { mapped_in trees.old.uses.labels fec.now ≡ None }
    ensures ok { OnOk result (SettledSo upstream fec.now ends.now.up trees.old puts.old.items trees.new puts.new.items) }
    ensures lacks { result ≡ Err NodeFault.NoLabel → LacksOne upstream fec.now ends.now.up trees.old puts.old.items }
{
    match upstream {
        None => {
            cancel(trees, fec, puts);
            Ok(())
        }
        Some(upstream) => {
            if trees.is_on(fec) {
                reach(trees, ends, fec, upstream, puts)
            } else {
                cancel(trees, fec, puts);
                Ok(())
            }
        }
    }
}

/// A tree to which the label is mapped settles.
fn settle_mapped(
    trees: &mut LabelTrees,
    fec: &Fec,
    label: u32,
    upstream: Option<NodeId>,
    puts: &mut Vec<Put>,
) -> Result<(), NoMemory>
    requires { mapped_in trees.old.uses.labels fec.now ≡ Some label }
    ensures { OnOk result ((up : FinMap node_cmp End) → SettledSo upstream fec.now up trees.old puts.old.items trees.new puts.new.items) }
{
    if trees.is_on(fec) && same_neighbour(trees.upstream(label), upstream) {
        Ok(())
    } else {
        withdraw(trees, fec, label, puts)
    }
}

/// The tree settles, where that is the neighbour towards its root: what it needs is done, and put.
pub(crate) fn settle(
    trees: &mut LabelTrees,
    ends: &Ends,
    fec: &Fec,
    upstream: Option<NodeId>,
    puts: &mut Vec<Put>,
) -> Result<(), NodeFault>
    requires up { (peer : NodeId) → is_some (maps.get trees.old.uses.sessions peer) ≡ is_some (maps.get ends.now.up peer) }
    ensures ok { OnOk result (SettledSo upstream fec.now ends.now.up trees.old puts.old.items trees.new puts.new.items) }
    ensures lacks { result ≡ Err NodeFault.NoLabel → LacksOne upstream fec.now ends.now.up trees.old puts.old.items }
{
    match trees.mapped(fec) {
        None => settle_unmapped(trees, ends, fec, upstream, puts),
        Some(label) => {
            settle_mapped(trees, fec, label, upstream, puts)?;
            Ok(())
        }
    }
}

/// The tree settles, by the neighbour that the core gives.
pub(crate) fn settle_tree(
    place: &Standing,
    core: &Core,
    trees: &mut LabelTrees,
    ends: &Ends,
    fec: &Fec,
    puts: &mut Vec<Put>,
) -> Result<(), NodeFault>
    requires nodes { core.now.nodes ≡ length place.now.addrs }
    requires tied { AreTied trees.old ends.now }
    requires written { All IsPut puts.old.items }
    ensures ok { OnOk result (AllSettledSo core.now place.now (fec.now ∷ []) ends.now trees.old puts.old.items trees.new puts.new.items) }
    ensures lacks { result ≡ Err NodeFault.NoLabel → LacksAny core.now place.now (fec.now ∷ []) ends.now trees.old puts.old.items }
{
    let upstream = place.upstream(core, fec);
    settle(trees, ends, fec, upstream, puts)
}

/// The trees settle one after another.
pub(crate) fn settle_all(
    place: &Standing,
    core: &Core,
    trees: &mut LabelTrees,
    ends: &Ends,
    fecs: &[Fec],
    puts: &mut Vec<Put>,
) -> Result<(), NodeFault>
    requires nodes { core.now.nodes ≡ length place.now.addrs }
    requires tied { AreTied trees.old ends.now }
    requires written { All IsPut puts.old.items }
    ensures ok { OnOk result (AllSettledSo core.now place.now fecs.now ends.now trees.old puts.old.items trees.new puts.new.items) }
    ensures lacks { result ≡ Err NodeFault.NoLabel → LacksAny core.now place.now fecs.now ends.now trees.old puts.old.items }
{
    for fec in fecs {
        if let Err(fault) = settle_tree(place, core, trees, ends, fec, puts) {
            return Err(fault);
        }
    }
    Ok(())
}
