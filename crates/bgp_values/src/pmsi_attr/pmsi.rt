//! PMSI Tunnel attributes.
ghost use Rattle.std.specs.Prelude.{◌≡◌};
ghost use Rattle.bgp_values.specs.pmsi_attr.Spelling.{type_octet};

use mldp::mldp_fec::Fec;
use mv_base::{Addr, Inline};

/// A tunnel identifier that is kept as it stands. 96 octets are this project's limit.
pub type Ident = Inline<96>;

/// The tunnel that an attribute names, by its type and its identifier (RFC 6514 section 5).
#[derive(Clone, Copy, PartialEq, Eq, Hash)]
pub enum Tunnel {
    /// Type 0: no tunnel information.
    None,
    /// Type 2: a P2MP LSP of mLDP, by its FEC element.
    Mldp(Fec),
    /// Type 6: ingress replication, by the address of the tunnel's end.
    Ingress(Addr),
    /// Any other type, 1, 3, 4, 5 or 7, and its identifier.
    Other(u8, Ident),
}

impl Tunnel {
    /// The number of the tunnel's type (RFC 6514 section 5).
    pub fn kind(&self) -> u8
        ensures { result ≡ type_octet self.now }
    {
        match self {
            Tunnel::None => 0,
            Tunnel::Mldp(_) => 2,
            Tunnel::Ingress(_) => 6,
            Tunnel::Other(kind, _) => *kind,
        }
    }
}

/// The value of a PMSI Tunnel attribute.
#[derive(Clone, Copy, PartialEq, Eq, Hash)]
pub struct Pmsi {
    /// Whether leaf information is required.
    pub leaf_info: bool,
    pub tunnel: Tunnel,
    /// An MPLS label of 20 bits. 0 is no label.
    pub label: Option<u32>,
}
