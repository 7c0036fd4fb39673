//! The address family of a message.
ghost use Rattle.std.specs.Prelude.{◌≡◌};
ghost use Rattle.pim_joinprune.specs.Families.{family_octet, mask_len, family_of};

use mv_base::Addr;

/// The address family of IPv4 (RFC 7761 section 4.9.1).
const IPV4: u8 = 1;

/// The address family of IPv6 (RFC 7761 section 4.9.1).
pub(crate) const IPV6: u8 = 2;

/// The family of the addresses of a message, which all have that of the first one.
#[derive(Clone, Copy, PartialEq, Eq)]
pub(crate) enum Family {
    Ipv4,
    Ipv6,
}

impl Family {
    /// The octet of an encoded address that names the family.
    pub(crate) fn octet(self) -> u8
        ensures { result ≡ family_octet self }
    {
        match self {
            Family::Ipv4 => IPV4,
            Family::Ipv6 => IPV6,
        }
    }

    /// The mask length of a whole address (RFC 7761 section 4.9.1).
    pub(crate) fn mask_len(self) -> u8
        ensures { result ≡ mask_len self }
    {
        match self {
            Family::Ipv4 => 32,
            Family::Ipv6 => 128,
        }
    }
}

/// The family of an address.
pub(crate) fn family_of(addr: Addr) -> Family
    ensures { result ≡ family_of addr }
{
    match addr {
        Addr::V4(_) => Family::Ipv4,
        Addr::V6(_) => Family::Ipv6,
    }
}
