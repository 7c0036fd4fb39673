//! The formats that `decode` reads.

/// A format of octets.
#[derive(Clone, Copy, PartialEq, Eq)]
pub enum Format {
    /// Multipoint FEC elements of LDP, end to end (RFC 6388).
    Fec,
    /// The value of one PMSI Tunnel attribute (RFC 6514 section 5).
    Pmsi,
    /// MCAST-VPN routes of AFI 1, end to end (RFC 6514 section 4).
    Nlri,
    /// Messages of a BGP session, end to end (RFC 4271 section 4).
    Bgp,
    /// PDUs of an LDP session, end to end (RFC 5036 section 3.1).
    Ldp,
    /// One Join/Prune message of PIM (RFC 7761 section 4.9.5).
    Pim,
}
