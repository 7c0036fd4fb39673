//! The call of an edge that is a label step itself.
use mldp::mldp_msgs::LabelMessage;
use mv_base::NodeId;

/// What a step of an edge is to its label part, before any tree of which the edge becomes or stops being a leaf.
#[derive(Clone, Copy)]
pub enum OwnCall {
    /// The step is no label step itself.
    None,
    /// A label message of the neighbour is taken.
    Take(NodeId, LabelMessage),
    /// The end of the session with the neighbour comes up.
    Raise(NodeId),
    /// The end of the session with the neighbour notices its loss.
    Notice(NodeId),
    /// The timers run.
    Timers,
    /// Costs of links changed, and with them the next hops towards roots.
    Reroute,
}
