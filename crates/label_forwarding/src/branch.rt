//! Where copies go to, and where they come from.
ghost use Rattle.std.specs.Prelude.{◌≡◌};
ghost use Rattle.label_forwarding.specs.Hops.{hop_cmp};

use mv_base::NodeId;
use std::cmp::Ordering;

/// A branch of a tree: copies go to the neighbour under the label.
#[derive(Clone, Copy, Debug, PartialEq, Eq, Hash)]
pub struct Branch {
    pub node: NodeId,
    pub label: u32,
}

/// The order by neighbour, and then by label.
#[tactic(auto, using(crate::proofs::HopLemmas::orders))]
pub(crate) fn order(own: Branch, other: Branch) -> Ordering
    ensures { result ≡ hop_cmp own other }
{
    own.node
        .0
        .cmp(&other.node.0)
        .then(own.label.cmp(&other.label))
}
