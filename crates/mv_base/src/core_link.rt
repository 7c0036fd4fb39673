//! Links of the provider's core.
use crate::NodeId;

/// A link between two nodes, with its cost in both directions.
#[derive(Clone, Copy, PartialEq, Eq)]
pub struct Link {
    pub a: NodeId,
    pub b: NodeId,
    pub cost: u32,
}
