//! Labels that are mapped or leaving.
ghost use Rattle.std.specs.Prelude.{◌≡◌, ◌<◌, ◌&&◌, ℕ, nat_eq, None, Some, IfOk, if◌then◌else◌};
ghost use Rattle.indexmap.specs.IndexMap.{get, spare, IsUnique};
ghost use Rattle.label_trees.specs.label_uses.Held.{is_fec, is_node, labels_toward};

use indexmap::IndexMap;
use mldp::mldp_fec::Fec;
use mv_base::{NoMemory, NodeId};
use std::alloc::Global;
use tunnel_bindings::BindingName;

/// A label that is mapped to the FEC towards the upstream, or was withdrawn and is leaving, and the name of its binding.
#[derive(Clone, Copy)]
pub(crate) struct Held {
    pub(crate) fec: Fec,
    pub(crate) upstream: NodeId,
    pub(crate) leaving: bool,
    pub(crate) name: BindingName,
}

/// The held labels, by number.
pub(crate) type HeldLabels = IndexMap<u32, Held>;

/// Notes what holds the label. It is there, or there is room for it.
pub(crate) fn note(held: &mut HeldLabels, label: u32, own: Held)
    requires { get nat_eq held.old label ≡ None → 0 < spare held.old }
    ensures each { (other : ℕ) → get nat_eq held.new other ≡ (if nat_eq label other then Some own else get nat_eq held.old other) }
{
    held.insert(label, own).unwrap();
}

/// Forgets the label.
pub(crate) fn forget(held: &mut HeldLabels, label: u32)
    ensures each { (other : ℕ) → get nat_eq held.new other ≡ (if nat_eq label other then None else get nat_eq held.old other) }
{
    held.swap_remove(&label);
}

/// Whether the label is leaving towards the neighbour, for that tree.
pub(crate) fn is_leaving_to(own: &Held, fec: &Fec, upstream: NodeId) -> bool
    ensures { result ≡ (own.now.leaving && (is_fec own.now.fec fec.now && is_node own.now.upstream upstream)) }
{
    own.leaving && (own.fec == *fec && own.upstream == upstream)
}

/// The labels that are held towards the neighbour.
pub(crate) fn labels_toward(
    alloc: Global,
    held: &HeldLabels,
    peer: NodeId,
) -> Result<Vec<u32>, NoMemory>
    ensures listed { IfOk result (λ labels. labels.items ≡ labels_toward peer held.now.entries) }
    ensures unique { IsUnique nat_eq held.now }
{
    let mut labels = Vec::new(alloc);
    'held: for (label, own) in held.iter() {
        if own.upstream == peer {
            labels.push(*label)?;
        }
    }
    Ok(labels)
}
