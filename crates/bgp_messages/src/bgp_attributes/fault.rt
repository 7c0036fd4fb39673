//! What is wrong with a stream of BGP messages.
ghost use Rattle.std.specs.Prelude.{◌≡◌, ◌+◌, ◌-◌, ◌^◌};
ghost use Rattle.bgp_messages.specs.bgp_attributes.Answers.{IsNear, thereafter};

use bgp_values::mvpn_nlri::RouteReason;
use bgp_values::pmsi_attr::PmsiReason;
use mv_base::NoMemory;

/// What is wrong with a stream of BGP messages.
#[derive(Clone, Copy, Debug, PartialEq, Eq)]
pub enum StreamFault {
    /// An octet of the marker is not 0xFF (RFC 4271 section 4.1).
    Marker,
    /// A message's length is below 19 or above 4096, or none that its type may have (RFC 4271 section 4.1).
    MessageLength,
    /// A message's type is not 1 to 5 (RFC 4271 section 4.1; RFC 2918 section 3).
    MessageType,
    /// The withdrawn routes or the attributes pass the message, or an attribute of a type that is read stands a second
    /// time (RFC 4271 section 6.3).
    AttributeList,
    /// An attribute passes the list, or its length is none that its value may have (RFC 4271 section 6.3).
    AttributeLength,
    /// A next hop's length is none of its family (RFC 4760 section 3).
    NextHop,
    /// An MCAST-VPN route has a fault.
    Route(RouteReason),
    /// The value of a PMSI Tunnel attribute has a fault.
    Pmsi(PmsiReason),
    /// The length of a VPN-IPv4 route is below 88 or above 120, or the route passes the attribute (RFC 4364 section
    /// 4.3.4).
    Prefix,
}

/// Why no update was read of the attributes of an UPDATE message.
#[derive(Clone, Copy, Debug, PartialEq, Eq)]
pub enum AttributesFault {
    /// The first fault, and its place, counted from the first octet.
    Bad { place: usize, fault: StreamFault },
    /// There was no memory for the update.
    NoMemory,
}

impl From<NoMemory> for AttributesFault {
    ghost use Rattle.std.specs.Prelude.{◌≡◌};
    ghost use Rattle.bgp_messages.specs.declared.bgp_attributes.fault.AttributesFault.TheVariants as answers;

    ghost from_gives = { λ _ fault. fault ≡ answers.NoMemory };

    fn from(_: NoMemory) -> Self {
        AttributesFault::NoMemory
    }
}

impl AttributesFault {
    /// The same, so many octets further on.
    pub fn thereafter(self, octets: usize) -> AttributesFault
        requires { IsNear self (2 ^ 64 - 1 - octets) }
        ensures { result ≡ thereafter octets self }
    {
        match self {
            AttributesFault::Bad { place, fault } => AttributesFault::Bad {
                place: octets + place,
                fault,
            },
            AttributesFault::NoMemory => AttributesFault::NoMemory,
        }
    }
}

/// The attribute passes its list, or its length is none that its value may have. The fault stands at the attribute's
/// first octet.
pub(crate) fn misfit() -> AttributesFault
    ensures { result ≡ AttributesFault.Bad 0 StreamFault.AttributeLength }
{
    AttributesFault::Bad {
        place: 0,
        fault: StreamFault::AttributeLength,
    }
}
