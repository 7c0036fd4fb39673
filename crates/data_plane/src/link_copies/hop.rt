//! A branch on which a node is to put a copy.
use label_forwarding::Branch;
use mv_base::NodeId;

/// A copy of a datagram is to go from the node on the branch.
#[derive(Clone, Copy)]
pub struct Hop {
    pub from: NodeId,
    pub branch: Branch,
}
