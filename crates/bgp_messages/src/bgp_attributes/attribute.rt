//! Path attributes.
use crate::bgp_attributes::key::Keys;
use crate::bgp_attributes::update::Comms;
use bgp_values::pmsi_attr::Pmsi;
use mv_base::Addr;

/// The value of an MP_REACH_NLRI attribute of a family that is read (RFC 4760 section 3).
#[derive(Drop)]
pub struct Reachable {
    pub next_hop: Addr,
    pub keys: Keys,
}

/// A path attribute by its type.
#[derive(Drop)]
pub enum Attribute {
    /// Type 14, MP_REACH_NLRI. `None` where its family is not read.
    Reach(Option<Reachable>),
    /// Type 15, MP_UNREACH_NLRI. `None` where its family is not read.
    Unreach(Option<Keys>),
    /// Type 16, extended communities.
    Communities(Comms),
    /// Type 22, PMSI Tunnel.
    Tunnel(Pmsi),
    /// Another type, whose value is passed over.
    Passed(u8),
}
