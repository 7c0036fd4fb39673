//! What a tree of a node needs.
use mldp::of_mv_base::NodeId;

/// What a tree of a node needs so that it is settled.
#[derive(Clone, Copy, PartialEq, Eq)]
pub enum Change {
    /// Nothing.
    Keep,
    /// The label is mapped towards the upstream neighbour.
    Map { upstream: NodeId, label: u32 },
    /// The label is withdrawn from the upstream neighbour.
    Withdraw { upstream: NodeId, label: u32 },
    /// The binding waits until the session is up and its hold was run.
    Wait,
    /// No binding waits.
    Cancel,
    /// A label is needed and none is free.
    NoLabel,
}
