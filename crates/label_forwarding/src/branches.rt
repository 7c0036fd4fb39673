//! The branches of one tree.
ghost use Rattle.std.specs.Prelude.{◌≡◌, ◌≢◌, ◌≤◌, ◌==◌, T, true, false, not, length, slice_get, OnOk, OnErr};
ghost use Rattle.std.specs.FinMap as maps;
ghost use Rattle.std.specs.FinMap.{put, is_sorted};
ghost use Rattle.std.specs.List.{filter};
ghost use Rattle.std.specs.List.Sorted.{IsPartitionPoint, IsPartitionedBy};
ghost use Rattle.label_forwarding.specs.Hops.{hop_cmp, is_before, is_hop, marked};

use crate::branch::{Branch, order};
use mv_base::NoMemory;
use std::alloc::Global;
use std::marker::Model;

/// Branches, each once, in order of neighbours, and those of one neighbour in order of labels. Contracts see the set of them.
#[derive(Drop)]
pub(crate) struct Branches {
    items: Vec<Branch>,
}

impl Model for Branches {
    ghost use Rattle.std.specs.Prelude.{T};
    ghost use Rattle.std.specs.FinMap as maps;
    ghost use Rattle.std.specs.FinMap.{is_sorted};
    ghost use Rattle.label_forwarding.specs.Hops.{hop_cmp, Hops, hops_code, marked};

    ghost Value = { Hops };

    ghost coded = { hops_code };

    ghost view = { λ b. maps.from_sorted {R = hop_cmp} (marked b.items.items) };

    ghost invariant = { λ b. T (is_sorted hop_cmp (marked b.items.items)) };
}

/// Where the branch stands among these, or would.
fn place_of(items: &[Branch], branch: Branch) -> usize
    ensures within { result ≤ length items.now }
    ensures point { IsPartitionedBy (is_before branch) items.now →
        IsPartitionPoint (λ item. is_before branch item ≡ true) (λ item. is_before branch item ≡ false) items.now result }
{
    items.partition_point(|item| order(*item, branch).is_lt())
}

/// Whether the branch stands at the place.
fn stands_at(items: &[Branch], place: usize, branch: Branch) -> bool
    ensures yes { result ≡ true → slice_get items.now place ≡ Some branch }
    ensures no { result ≡ false → slice_get items.now place ≢ Some branch }
{
    match items.get(place) {
        Some(item) => *item == branch,
        None => false,
    }
}

/// Adds the branch to these, where it is not there.
fn put(items: &mut Vec<Branch>, branch: Branch) -> Result<(), NoMemory>
    requires { T (is_sorted hop_cmp (marked items.old.items)) }
    ensures ok { OnOk result (marked items.new.items ≡ put hop_cmp branch tt (marked items.old.items)) }
    ensures err { OnErr result (items.new.items ≡ items.old.items) }
{
    let place = place_of(items, branch);
    if stands_at(items, place, branch) {
        return Ok(());
    }
    items.insert(place, branch)?;
    Ok(())
}

/// Removes the branch from these, where it is there.
fn cut(items: &mut Vec<Branch>, branch: Branch)
    ensures { items.new.items ≡ filter (λ item. not (is_hop item branch)) items.old.items }
{
    items.retain(|item| *item != branch);
}

impl Branches {
    /// No branch. It takes no memory.
    pub(crate) fn new(alloc: Global) -> Branches
        ensures { result ≡ maps.empty }
    {
        Branches {
            items: Vec::new(alloc),
        }
    }

    pub(crate) fn as_slice(&self) -> &[Branch]
        ensures { result.now ≡ maps.keys self.now }
    {
        &self.items
    }

    pub(crate) fn is_empty(&self) -> bool
        ensures { result ≡ (length (maps.keys self.now) == 0) }
    {
        self.as_slice().is_empty()
    }

    /// Adds the branch, where it is not there.
    pub(crate) fn insert(&mut self, branch: Branch) -> Result<(), NoMemory>
        ensures ok { OnOk result (self.new ≡ maps.insert self.old branch tt) }
        ensures err { OnErr result (self.new ≡ self.old) }
    {
        put(&mut self.items, branch)
    }

    /// Removes the branch, where it is there. It takes no memory.
    pub(crate) fn remove(&mut self, branch: Branch)
        ensures { self.new ≡ maps.remove self.old branch }
    {
        cut(&mut self.items, branch);
    }
}
