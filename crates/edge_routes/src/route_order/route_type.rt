//! The types of multicast routes.
ghost use Rattle.std.specs.Prelude.{◌≡◌};
ghost use Rattle.edge_routes.specs.route_order.Kept.{code_of};

/// A type of routes that RFC 6514 defines (section 4).
#[derive(Clone, Copy)]
pub enum RouteType {
    /// Intra-AS I-PMSI A-D (section 4.1), by which a VRF says its inclusive tunnel.
    Intra,
    /// Inter-AS I-PMSI A-D (section 4.2).
    Inter,
    /// S-PMSI A-D (section 4.3), by which a VRF says a selective tunnel.
    Selective,
    /// Leaf A-D (section 4.4).
    Leaf,
    /// Source Active A-D (section 4.5).
    Active,
    /// Shared Tree Join (section 4.6).
    SharedJoin,
    /// Source Tree Join (section 4.6).
    SourceJoin,
}

impl RouteType {
    /// The type as the first octet of a route.
    #[inline(always)]
    pub(crate) fn code(self) -> u8
        ensures { result ≡ code_of self }
    {
        match self {
            RouteType::Intra => 1,
            RouteType::Inter => 2,
            RouteType::Selective => 3,
            RouteType::Leaf => 4,
            RouteType::Active => 5,
            RouteType::SharedJoin => 6,
            RouteType::SourceJoin => 7,
        }
    }
}
