//! Trees of which an edge becomes or stops being a leaf.
ghost use Rattle.std.specs.Prelude.{◌≡◌, ◌++◌, IfOk, OnOk};
ghost use Rattle.std.specs.FinSet as sets;
ghost use Rattle.std.specs.List.{list_any};
ghost use Rattle.label_defs.specs.LabelData.{same_fec};
ghost use Rattle.edge_labels.specs.Changes.{change_at, changes_in};

use label_forwarding::Fib;
use mldp::mldp_fec::Fec;
use mv_base::NoMemory;
use std::alloc::Global;

/// A tree of which the edge becomes a leaf, where it is wanted, or stops being one (RFC 6388 section 2.4).
#[derive(Clone, Copy)]
pub struct LeafChange {
    pub fec: Fec,
    pub wanted: bool,
}

/// Whether both are one tree.
fn is_same(own: &Fec, other: &Fec) -> bool
    ensures { result ≡ same_fec other.now own.now }
{
    *own == *other
}

/// Whether the tree is one of these.
fn is_among(fec: &Fec, fecs: &[Fec]) -> bool
    ensures { result ≡ list_any (same_fec fec.now) fecs.now }
{
    fecs.iter().any(|own| is_same(own, fec))
}

/// Appends the change of the tree, where there is one.
fn push_change(
    changes: &mut Vec<LeafChange>,
    fec: &Fec,
    was: bool,
    wanted: bool,
) -> Result<(), NoMemory>
    ensures { OnOk result (changes.new.items ≡ changes.old.items ++ change_at was wanted fec.now) }
{
    if was != wanted {
        changes.push(LeafChange { fec: *fec, wanted })?;
    }
    Ok(())
}

/// The changes of these trees, where the edge is to be a leaf of those that are listed.
pub(crate) fn changes_in(
    alloc: Global,
    fib: &Fib,
    fecs: &[Fec],
    leaves: &[Fec],
) -> Result<Vec<LeafChange>, NoMemory>
    ensures { IfOk result (λ changes. changes.items ≡ changes_in fib.now.leaves leaves.now fecs.now) }
{
    let mut changes = Vec::new(alloc);
    for fec in fecs {
        push_change(&mut changes, fec, fib.is_leaf(fec), is_among(fec, leaves))?;
    }
    Ok(changes)
}
