//! MCAST-VPN routes (RFC 6514 section 4, with the wildcards of RFC 6625 section 2), as octets and as values.

mod address;
mod bounded;
mod fault;
mod key;
mod reading;
mod route;
mod writing;

pub use fault::{RouteFault, RouteReason};
pub use reading::{decode, one_spelling};
pub use route::{Afi, LeafKey, Raw, Route};
pub use writing::{encode, round_trip};
