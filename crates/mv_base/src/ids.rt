//! The numbers of the things of a scenario, each counted from 0 in order of declaration.

/// The number of a node. Edges and core nodes share one numbering.
#[derive(Clone, Copy, Debug, PartialEq, Eq, Hash)]
pub struct NodeId(pub u16);

/// The number of a VRF (a VPN routing and forwarding table, RFC 4364 section 3).
#[derive(Clone, Copy, Debug, PartialEq, Eq, Hash)]
pub struct VrfId(pub u16);

/// The number of a customer site.
#[derive(Clone, Copy, Debug, PartialEq, Eq, Hash)]
pub struct SiteId(pub u16);

/// The number of an interface towards a customer.
#[derive(Clone, Copy, Debug, PartialEq, Eq, Hash)]
pub struct IfaceId(pub u16);
