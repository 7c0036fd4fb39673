//! How much the trees of all VRFs hold together.
ghost use Rattle.std.specs.Prelude.{◌≡◌, ◌+◌, length, min, nat_lt, sum_by};
ghost use Rattle.std.specs.FinMap as maps;
ghost use Rattle.std.specs.FinSet as sets;
ghost use Rattle.vrf_words.specs.tree_defs.Trees.{TreeData};

use vrf_trees::VrfTree;

/// The entries of all trees, or the greatest number of 32 bits where there are more.
#[tactic(auto, using(crate::proofs::CountLemmas::count_more))]
pub(crate) fn entries_in(trees: &[VrfTree]) -> u32
    ensures { result ≡ min (sum_by (λ (tree : TreeData). maps.len tree.vrf.entries) trees.now) 4294967295 }
{
    let mut count: u32 = 0;
    for tree in trees {
        count = count.saturating_add(tree.pim_entries());
    }
    count
}

/// The notes of all trees, or the greatest number of 32 bits where there are more.
#[tactic(auto, using(crate::proofs::CountLemmas::count_more))]
pub(crate) fn notes_in(trees: &[VrfTree]) -> u32
    ensures { result ≡ min (sum_by (λ (tree : TreeData). sets.len tree.vrf.notes) trees.now) 4294967295 }
{
    let mut count: u32 = 0;
    for tree in trees {
        count = count.saturating_add(tree.notes());
    }
    count
}

/// The selections of all trees, or the greatest number of 32 bits where there are more.
#[tactic(auto, using(crate::proofs::CountLemmas::count_more))]
pub(crate) fn selections_in(trees: &[VrfTree]) -> u32
    ensures { result ≡ min (sum_by (λ (tree : TreeData). length tree.root.selections) trees.now) 4294967295 }
{
    let mut count: u32 = 0;
    for tree in trees {
        count = count.saturating_add(tree.root_selections());
    }
    count
}

/// Whether the entries of all trees are more than an edge holds, where one tree has these in the place of its own.
pub(crate) fn is_over(all: u32, own: u32, thereafter: u32) -> bool
    ensures { result ≡ nat_lt (own + 1024) (all + thereafter) }
{
    u64::from(own) + 1024 < u64::from(all) + u64::from(thereafter)
}
