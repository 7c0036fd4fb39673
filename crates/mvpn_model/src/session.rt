//! The sessions of the control plane.
use mv_base::NodeId;
use scenario_defs::Kind;

/// A session between two nodes: over BGP between two edges, or over LDP between the ends of a link.
#[derive(Clone, Copy)]
pub struct Session {
    pub kind: Kind,
    /// The end that is declared first; of a link its first end.
    pub a: NodeId,
    pub b: NodeId,
}
