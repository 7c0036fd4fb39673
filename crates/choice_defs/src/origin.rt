//! Where routes are from.
use scenario_defs::of_mv_base::{Addr, NodeId, Rd, SiteId};

/// Where a route that a VRF knows is from.
#[derive(Clone, Copy, PartialEq, Eq)]
pub enum Origin {
    /// A site that is attached at the VRF itself.
    Local(SiteId),
    /// Another edge, with its address and the route distinguisher of the route.
    Remote { edge: NodeId, address: Addr, rd: Rd },
}
