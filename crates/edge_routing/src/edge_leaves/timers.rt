//! How many timers of an edge's customers and peers are due.
ghost use Rattle.std.specs.Prelude.{◌≡◌, min, sum_by};
ghost use Rattle.control_laws.specs.Between.{tree_due};

use edge_control::EdgeControl;
use edge_control::of_vrf_trees::VrfTree;

/// How many timers of the tree are due, or the greatest number of 64 bits where there are more.
fn tree_due(tree: &VrfTree, now: u64) -> u64
    ensures { result ≡ min (tree_due now tree.now) 18446744073709551615 }
{
    tree.pim_due(now).saturating_add(tree.tunnel_due(now))
}

/// How many timers are due at the clock: of entries, of selections, and of selective routes that VRFs import. It is the greatest number of
/// 64 bits where there are more.
pub fn due(control: &EdgeControl, now: u64) -> u64
    ensures { result ≡ min (sum_by (tree_due now) control.now.trees) 18446744073709551615 }
{
    let mut count: u64 = 0;
    for tree in control.trees() {
        count = count.saturating_add(tree_due(tree, now));
    }
    count
}
