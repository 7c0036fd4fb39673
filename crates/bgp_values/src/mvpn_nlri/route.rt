//! Routes.
ghost use Rattle.std.specs.Prelude.{◌≡◌};
ghost use Rattle.bgp_values.specs.mvpn_nlri.Reading.{own_route};

use mv_base::{Addr, Inline, Rd};

/// The family of a route's source and group, by its address family identifier.
#[derive(Clone, Copy, PartialEq, Eq)]
pub enum Afi {
    /// AFI 1.
    Ipv4,
    /// AFI 2.
    Ipv6,
}

/// The octets of a route of a type that RFC 6514 does not define.
pub type Raw = Inline<255>;

/// The route that a Leaf A-D route answers (RFC 6514 section 4.4).
#[derive(Clone, Copy, PartialEq, Eq)]
pub enum LeafKey {
    Inter {
        rd: Rd,
        source_as: u32,
    },
    /// `None` is the wildcard.
    Selective {
        rd: Rd,
        source: Option<Addr>,
        group: Option<Addr>,
        originator: Addr,
    },
}

/// An MCAST-VPN route.
#[derive(Clone, Copy, PartialEq, Eq)]
pub enum Route {
    /// Type 1, Intra-AS I-PMSI A-D (RFC 6514 section 4.1).
    Intra {
        rd: Rd,
        originator: Addr,
    },
    /// Type 2, Inter-AS I-PMSI A-D (section 4.2).
    Inter {
        rd: Rd,
        source_as: u32,
    },
    /// Type 3, S-PMSI A-D (section 4.3), where `None` is the wildcard (RFC 6625 section 2).
    Selective {
        rd: Rd,
        source: Option<Addr>,
        group: Option<Addr>,
        originator: Addr,
    },
    /// Type 4, Leaf A-D (section 4.4).
    Leaf {
        key: LeafKey,
        originator: Addr,
    },
    /// Type 5, Source Active A-D (section 4.5).
    Active {
        rd: Rd,
        source: Addr,
        group: Addr,
    },
    /// Type 6, Shared Tree Join (section 4.6).
    SharedJoin {
        rd: Rd,
        source_as: u32,
        source: Addr,
        group: Addr,
    },
    /// Type 7, Source Tree Join (section 4.6).
    SourceJoin {
        rd: Rd,
        source_as: u32,
        source: Addr,
        group: Addr,
    },
    /// Another type, and its octets.
    Other(u8, Raw),
}

impl LeafKey {
    /// The route that has the same fields.
    pub(crate) fn into_route(self) -> Route
        ensures { result ≡ own_route self }
    {
        match self {
            LeafKey::Inter { rd, source_as } => Route::Inter { rd, source_as },
            LeafKey::Selective {
                rd,
                source,
                group,
                originator,
            } => Route::Selective {
                rd,
                source,
                group,
                originator,
            },
        }
    }
}
