//! Route distinguishers, and how a VRF chooses the upstream multicast hop.

/// A route distinguisher, its 8 octets in the order of the wire (RFC 4364 section 4.2).
#[derive(Clone, Copy, PartialEq, Eq)]
pub struct Rd(pub [u8; 8]);

/// How a VRF chooses among the edges that have a route to a source (RFC 6513 section 5.1.3).
#[derive(Clone, Copy, PartialEq, Eq)]
pub enum Rule {
    /// The edge of the highest address.
    Highest,
    /// The edge at the least cost in the core.
    Nearest,
    /// The edge that a hash of source and group names.
    Hash,
}
