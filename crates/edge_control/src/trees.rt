//! Changes of one of the trees.
ghost use Rattle.std.specs.Prelude.{◌≡◌, ◌<◌, ◌^◌, Some, Err, length, slice_get, IfOk, OnOk, OnErr};
ghost use Rattle.selective_defs.specs.Selective.{next_number};
ghost use Rattle.selective.specs.Roots.{IsSelected, lsp_number};
ghost use Rattle.vrf_words.specs.tree_defs.Trees.{TreeData};
ghost use Rattle.control_laws.specs.Customers.{noted, selected, unnoted, unselected};
ghost use Rattle.edge_control.specs.Places.{changed_at};
ghost use Rattle.edge_control.specs.declared.fault.ControlFault.TheVariants as faults;

use crate::fault::ControlFault;
use mv_base::{Addr, IfaceId, Pattern};
use vrf_trees::VrfTree;

/// The tree notes the source.
pub(crate) fn note_at(
    trees: &mut Vec<VrfTree>,
    place: usize,
    iface: IfaceId,
    source: Addr,
    group: Addr,
) -> Result<(), ControlFault>
    requires there { place < length trees.old.items }
    ensures noted { OnOk result (trees.new.items ≡ changed_at place (noted iface source group) trees.old.items) }
    ensures memory { OnErr result (result ≡ Err faults.NoMemory) }
    ensures unchanged { OnErr result (trees.new.items ≡ trees.old.items) }
{
    match trees[place].note(iface, source, group) {
        Ok(()) => Ok(()),
        Err(_) => Err(ControlFault::NoMemory),
    }
}

/// The tree ends the note.
pub(crate) fn unnote_at(
    trees: &mut Vec<VrfTree>,
    place: usize,
    iface: IfaceId,
    source: Addr,
    group: Addr,
)
    requires there { place < length trees.old.items }
    ensures { trees.new.items ≡ changed_at place (unnoted iface source group) trees.old.items }
{
    trees[place].unnote(iface, source, group);
}

/// The tree selects the pattern, and answers the number of its tunnel.
pub(crate) fn select_at(
    trees: &mut Vec<VrfTree>,
    place: usize,
    pattern: Pattern,
    now: u64,
) -> Result<u32, ControlFault>
    requires there { place < length trees.old.items }
    requires new { (tree : TreeData) → slice_get trees.old.items place ≡ Some tree → ¬ (IsSelected pattern tree.root.selections) }
    requires few { (tree : TreeData) → slice_get trees.old.items place ≡ Some tree → length tree.root.selections < 256 }
    requires now { now < 2 ^ 63 }
    ensures selected { OnOk result (trees.new.items ≡ changed_at place (selected pattern now) trees.old.items) }
    ensures number { (tree : TreeData) → slice_get trees.old.items place ≡ Some tree →
        IfOk result (λ lsp. lsp ≡ lsp_number tree.root.number (next_number tree.root.selections)) }
    ensures memory { OnErr result (result ≡ Err faults.NoMemory) }
    ensures unchanged { OnErr result (trees.new.items ≡ trees.old.items) }
{
    match trees[place].root_select(pattern, now) {
        Ok(lsp) => Ok(lsp),
        Err(_) => Err(ControlFault::NoMemory),
    }
}

/// The tree ends the selection of the pattern.
pub(crate) fn unselect_at(trees: &mut Vec<VrfTree>, place: usize, pattern: Pattern)
    requires there { place < length trees.old.items }
    ensures { trees.new.items ≡ changed_at place (unselected pattern) trees.old.items }
{
    trees[place].root_unselect(pattern);
}
