//! The trees to which a label is mapped, those that wait for one, and the raises of sessions.
ghost use Rattle.std.specs.Prelude.{◌≡◌, ◌<◌, ◌&&◌, ℕ, not, None, Some, IfOk, IfNone, if◌then◌else◌};
ghost use Rattle.indexmap.specs.IndexMap.{get, keys, spare};
ghost use Rattle.mldp.specs.declared.mldp_fec.fec.Fec.{Fec};
ghost use Rattle.label_trees.specs.declared.label_uses.table.Waiting.{Waiting};
ghost use Rattle.label_trees.specs.label_uses.Held.{is_fec};

use crate::label_uses::held::Held;
use indexmap::IndexMap;
use mldp::mldp_fec::Fec;
use mv_base::{NoMemory, NodeId};
use std::alloc::Global;
use tunnel_bindings::{BindingName, Incarnation};

/// The label that is mapped to a tree, by FEC.
pub(crate) type MappedTrees = IndexMap<Fec, u32>;

/// A tree that waits for a label: the neighbour towards which, and the name of its binding.
#[derive(Clone, Copy)]
pub(crate) struct Waiting {
    pub(crate) upstream: NodeId,
    pub(crate) name: BindingName,
}

/// The trees that wait, by FEC.
pub(crate) type WaitingTrees = IndexMap<Fec, Waiting>;

/// Which raise of a session is the present one, by neighbour.
pub(crate) type Sessions = IndexMap<NodeId, Incarnation>;

/// Notes the label of the tree. There is room for it.
pub(crate) fn note(mapped: &mut MappedTrees, fec: &Fec, label: u32)
    requires { 0 < spare mapped.old }
    ensures each { (other : Fec) →
        get is_fec mapped.new other ≡ (if is_fec fec.now other then Some label else get is_fec mapped.old other) }
{
    mapped.insert(*fec, label).unwrap();
}

/// Forgets the label of the tree.
pub(crate) fn forget(mapped: &mut MappedTrees, fec: &Fec)
    ensures each { (other : Fec) →
        get is_fec mapped.new other ≡ (if is_fec fec.now other then None else get is_fec mapped.old other) }
{
    mapped.swap_remove(fec);
}

/// Forgets that the label which is held so is mapped, where it is.
pub(crate) fn forget_of(mapped: &mut MappedTrees, own: &Held)
    ensures each { (other : Fec) →
        get is_fec mapped.new other ≡ (if not own.now.leaving && is_fec own.now.fec other then None else get is_fec mapped.old other) }
{
    if !own.leaving {
        forget(mapped, &own.fec);
    }
}

/// Notes that the tree waits. There is room for it.
pub(crate) fn note_waiting(waiting: &mut WaitingTrees, fec: &Fec, own: Waiting)
    requires { 0 < spare waiting.old }
    ensures each { (other : Fec) →
        get is_fec waiting.new other ≡ (if is_fec fec.now other then Some own else get is_fec waiting.old other) }
{
    waiting.insert(*fec, own).unwrap();
}

/// A table in which no tree waits gives its memory back: most trees wait together, when sessions come up, and few do later.
fn tidy(waiting: &mut WaitingTrees)
    ensures { waiting.new.entries ≡ waiting.old.entries }
{
    if waiting.is_empty() {
        waiting.shrink_to_fit();
    }
}

/// Forgets that the tree waits, where it does.
pub(crate) fn take_waiting(waiting: &mut WaitingTrees, fec: &Fec) -> Option<Waiting>
    ensures value { result ≡ get is_fec waiting.old fec.now }
    ensures each { (other : Fec) →
        get is_fec waiting.new other ≡ (if is_fec fec.now other then None else get is_fec waiting.old other) }
    ensures unchanged { IfNone result (waiting.new.entries ≡ waiting.old.entries) }
{
    if waiting.is_empty() {
        return None;
    }
    let own = waiting.swap_remove(fec);
    tidy(waiting);
    own
}

/// The trees that wait.
pub(crate) fn waiting_trees(alloc: Global, waiting: &WaitingTrees) -> Result<Vec<Fec>, NoMemory>
    ensures { IfOk result (λ fecs. fecs.items ≡ keys waiting.now) }
{
    Ok(Vec::from_slice(alloc, waiting.keys().as_slice())?)
}
