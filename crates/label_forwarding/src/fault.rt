//! Why octets are no packet to a multicast group.

/// What is wrong with a packet.
#[derive(Clone, Copy, Debug, PartialEq, Eq)]
pub enum PacketFault {
    /// There are fewer octets than the fixed header has.
    Short,
    /// The version is neither 4 nor 6.
    Version,
    /// The header is shorter than its fixed part, or longer than the packet (RFC 791 section 3.1).
    HeaderLength,
    /// The length in the header is not that of the octets.
    TotalLength,
    /// The checksum is not that of the header (RFC 791 section 3.1).
    Checksum,
    /// The destination is no multicast address (RFC 1112 section 4, RFC 4291 section 2.7).
    NotMulticast,
    /// The group does not leave its link (RFC 5771 section 4, RFC 4291 section 2.7).
    LinkLocal,
}
