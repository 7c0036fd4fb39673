//! Routes that are learned, and what is chosen of them.
use mv_base::{Addr, NodeId, Prefix, Rd, SiteId};

/// A route from another edge, with its VRF Route Import and its Source AS (RFC 6514 sections 6 and 7).
#[derive(Clone, Copy, PartialEq, Eq)]
pub struct Learned {
    pub rd: Rd,
    pub prefix: Prefix,
    pub import: (Addr, u16),
    pub source_as: u16,
}

/// What is kept of a learned route beside its key.
#[derive(Clone, Copy)]
pub struct Held {
    pub import: (Addr, u16),
    pub source_as: u16,
}

/// The upstream of a flow.
#[derive(Clone, Copy, PartialEq, Eq)]
pub enum Choice {
    /// No known route covers the source.
    None,
    /// A site at the VRF itself.
    Local(SiteId),
    /// Another edge, with what the chosen route says.
    Remote {
        edge: NodeId,
        rd: Rd,
        import: (Addr, u16),
        source_as: u16,
    },
}
