//! What the loss of a session takes out of a forwarding table.
ghost use Rattle.std.specs.Prelude.{◌≡◌, ◌&&◌, ◌||◌, ◌++◌, IfOk, OnOk};
ghost use Rattle.std.specs.List.{list_any};
ghost use Rattle.std.specs.Ordering.{eq_by_cmp};
ghost use Rattle.label_defs.specs.Keys.{branch_cmp};
ghost use Rattle.label_defs.specs.LabelData.{same_fec};
ghost use Rattle.label_defs.specs.declared.branch.Branch.{Branch as OwnBranch};
ghost use Rattle.label_trees.specs.Loss.{branches_to, branches_without, is_lost, notes_without};

use label_defs::Branch as TreeBranch;
use label_forwarding::{Branch, Fib};
use mldp::mldp_fec::Fec;
use mv_base::{NoMemory, NodeId};
use std::alloc::Global;

/// Appends the branches of the tree that go to the neighbour.
fn push_branches(
    hops: &[Branch],
    fec: &Fec,
    peer: NodeId,
    found: &mut Vec<TreeBranch>,
) -> Result<(), NoMemory>
    ensures { OnOk result (found.new.items ≡ found.old.items ++ branches_to peer fec.now hops.now) }
{
    for hop in hops {
        if hop.node == peer {
            found.push(TreeBranch {
                fec: *fec,
                node: hop.node,
                label: hop.label,
            })?;
        }
    }
    Ok(())
}

/// Appends the branches of the tree in the table that go to the neighbour.
fn push_lost(
    fib: &Fib,
    fec: &Fec,
    peer: NodeId,
    found: &mut Vec<TreeBranch>,
) -> Result<(), NoMemory>
    ensures { (own : OwnBranch) → OnOk result (list_any (eq_by_cmp branch_cmp own) found.new.items
        ≡ (list_any (eq_by_cmp branch_cmp own) found.old.items || (same_fec own.fec fec.now && is_lost peer fib.now.branches own))) }
{
    push_branches(fib.push(fec), fec, peer, found)
}

/// The branches of these trees that go to the neighbour.
pub(crate) fn branches_toward(
    alloc: Global,
    fib: &Fib,
    fecs: &[Fec],
    peer: NodeId,
) -> Result<Vec<TreeBranch>, NoMemory>
    ensures { (own : OwnBranch) → IfOk result (λ found. list_any (eq_by_cmp branch_cmp own) found.items
        ≡ (list_any (same_fec own.fec) fecs.now && is_lost peer fib.now.branches own)) }
{
    let mut found = Vec::new(alloc);
    for fec in fecs {
        push_lost(fib, fec, peer, &mut found)?;
    }
    Ok(found)
}

/// Takes out what is noted of these labels of the neighbour.
pub(crate) fn unmap_all(fib: &mut Fib, peer: NodeId, labels: &[u32])
    ensures { fib.new ≡ record fib.old { pairs = notes_without peer fib.old.pairs labels.now } }
{
    for label in labels {
        fib.unmap(peer, *label);
    }
}

/// Takes out these branches.
pub(crate) fn unbranch_all(fib: &mut Fib, branches: &[TreeBranch])
    ensures { fib.new ≡ record fib.old { branches = branches_without fib.old.branches branches.now } }
{
    for own in branches {
        fib.unbranch(
            &own.fec,
            Branch {
                node: own.node,
                label: own.label,
            },
        );
    }
}
