//! What an UPDATE message announces and withdraws.
use bgp_values::mvpn_nlri::{Afi, Route};
use mv_base::{Prefix, Rd, Seq};

/// What a route is announced and withdrawn by: its NLRI (RFC 4760 section 3).
#[derive(Clone, Copy, PartialEq, Eq)]
pub enum Key {
    /// An MCAST-VPN route (RFC 6514 section 4).
    Mcast(Afi, Route),
    /// A VPN-IPv4 or VPN-IPv6 unicast route, by the prefix (RFC 4364 section 4.3.4; RFC 4659 section 2). Its label is not kept.
    Unicast { rd: Rd, prefix: Prefix },
}

/// Keys in the order of the wire.
pub type Keys = Seq<Key>;
