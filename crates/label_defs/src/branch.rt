//! Branches of trees.
use mldp::mldp_fec::Fec;
use mldp::of_mv_base::NodeId;

/// A branch of a P2MP LSP: the neighbour mapped the label to the FEC, so a copy on the tree goes to it under that label.
#[derive(Clone, Copy, PartialEq, Eq)]
pub struct Branch {
    pub fec: Fec,
    pub node: NodeId,
    pub label: u32,
}
