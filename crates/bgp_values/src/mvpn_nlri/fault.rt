//! Why octets do not begin with a route.
ghost use Rattle.std.specs.Prelude.{◌≡◌};
ghost use Rattle.bgp_values.specs.declared.mvpn_nlri.fault.RouteReason.TheVariants as reasons;

use mv_base::Short;

/// What is wrong with a field.
#[derive(Clone, Copy, Debug, PartialEq, Eq)]
pub enum RouteReason {
    /// The input has fewer octets than the field needs.
    Short,
    /// A length leaves fewer octets than the field needs.
    LengthTooSmall,
    /// A length leaves octets after the last field.
    LengthTooLarge,
    /// The source's length is not that of the family.
    SourceLength,
    /// The group's length is not that of the family.
    GroupLength,
    /// A wildcard stands where none may stand.
    Wildcard,
    /// The originator has neither 4 nor 16 octets.
    OriginatorLength,
    /// No key of a leaf has this type.
    KeyType,
    /// The group is no multicast address.
    GroupNotMulticast,
}

/// The first fault of the octets, and its place, counted from 0.
#[derive(Clone, Copy, Debug, PartialEq, Eq)]
pub struct RouteFault {
    pub place: u32,
    pub reason: RouteReason,
}

impl From<Short> for RouteFault {
    ghost from_gives = { λ short fault. fault ≡ record { place = short.place; reason = reasons.Short } };

    fn from(short: Short) -> RouteFault {
        RouteFault {
            place: short.place,
            reason: RouteReason::Short,
        }
    }
}
