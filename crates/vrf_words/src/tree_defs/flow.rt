//! Flows, what tells that they are sent, and where they may come from and go to.
use mv_base::{Addr, IfaceId, NodeId, Rd, SiteId};

/// A flow: a source and a group.
#[derive(Clone, Copy, PartialEq, Eq, Hash)]
pub struct Flow {
    pub source: Addr,
    pub group: Addr,
}

/// A note at an interface: the source of the flow sends to its group there.
#[derive(Clone, Copy, PartialEq, Eq, Hash)]
pub struct Note {
    pub iface: IfaceId,
    pub flow: Flow,
}

/// A Source Active route of a peer, by its route distinguisher: at some edge the source of the flow sends to its group
/// (RFC 6514 section 4.5).
#[derive(Clone, Copy, PartialEq, Eq, Hash)]
pub struct ActiveRoute {
    pub peer: NodeId,
    /// The octets of the route distinguisher.
    pub rd: [u8; 8],
    pub flow: Flow,
}

/// A Source Tree Join of another edge, for a flow of the VRF (RFC 6514 section 11.1.3).
#[derive(Clone, Copy, PartialEq, Eq, Hash)]
pub struct TakenJoin {
    pub peer: NodeId,
    pub flow: Flow,
}

/// An interface of the VRF, with its site.
#[derive(Clone, Copy, PartialEq, Eq)]
pub struct SiteIface {
    pub iface: IfaceId,
    pub site: SiteId,
}

/// Where a datagram comes from.
#[derive(Clone, Copy, PartialEq, Eq)]
pub enum Origin {
    /// A site of the VRF itself.
    Site(SiteId),
    /// Another edge, as the root of the tunnel that the copy came over.
    Edge(NodeId),
}

/// Another edge as the upstream of a flow, with what its route says for a Source Tree Join (RFC 6514 section 11.1.3).
#[derive(Clone, Copy, PartialEq, Eq)]
pub struct Upstream {
    pub edge: NodeId,
    pub rd: Rd,
    /// The VRF Route Import: the edge's address, and the number of the VRF there.
    pub import: (Addr, u16),
    pub source_as: u16,
}
