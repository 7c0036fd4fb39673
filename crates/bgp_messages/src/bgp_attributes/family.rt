//! The address families whose NLRI are read.
ghost use Rattle.std.specs.Prelude.{◌≡◌};
ghost use Rattle.bgp_messages.specs.bgp_attributes.Reading.{family_of, is_hop_len, before_addr};

use bgp_values::mvpn_nlri::Afi;

/// An address family whose NLRI are read, by its AFI and SAFI (RFC 4760 sections 3 and 4).
#[derive(Clone, Copy)]
pub enum Family {
    /// SAFI 5, MCAST-VPN (RFC 6514 section 4).
    Mcast(Afi),
    /// SAFI 128, labeled VPN-IPv4 and VPN-IPv6 unicast (RFC 4364 section 4.3.4; RFC 4659 section 2).
    Vpn(Afi),
}

/// The family of that AFI and SAFI, where it is read.
pub(crate) fn family_of(afi: u16, safi: u8) -> Option<Family>
    ensures { result ≡ family_of afi safi }
{
    match (afi, safi) {
        (1, 5) => Some(Family::Mcast(Afi::Ipv4)),
        (2, 5) => Some(Family::Mcast(Afi::Ipv6)),
        (1, 128) => Some(Family::Vpn(Afi::Ipv4)),
        (2, 128) => Some(Family::Vpn(Afi::Ipv6)),
        _ => None,
    }
}

/// How many octets stand before the address in a next hop: those of a Route Distinguisher for VPN routes (RFC 4364
/// section 4.3.2; RFC 4659 section 3.2.1).
pub(crate) fn before_addr(family: Family) -> usize
    ensures { result ≡ before_addr family }
{
    match family {
        Family::Mcast(_) => 0,
        Family::Vpn(_) => 8,
    }
}

/// Whether a next hop may have that many octets.
pub(crate) fn is_hop_len(family: Family, len: usize) -> bool
    ensures { result ≡ is_hop_len family len }
{
    let before = before_addr(family);
    len == before + 4 || len == before + 16
}
