//! Directions of sessions.
use mv_base::NodeId;
use scenario_defs::Kind;

/// One direction of a session between two nodes.
#[derive(Clone, Copy, PartialEq, Eq)]
pub struct Direction {
    pub kind: Kind,
    pub from: NodeId,
    pub to: NodeId,
}
