//! The flows of a VRF, by what its interfaces ask for, by what tells that sources send, and by the routes that it knows, as
//! definitions (RFC 7761 section 4.1.6; RFC 6513 section 5.1; RFC 6514 section 14).

mod flow;

pub use flow::{ActiveRoute, Flow, Note, Origin, SiteIface, TakenJoin, Upstream};
