//! The control plane of a network: its nodes with the octets in transit between them, act by act (RFC 4271, RFC 5036, RFC 6513).

mod calls;
mod customers;
mod handing;
mod octets;
mod plane;
mod queries;
mod start;

pub use customers::Verdict;
pub use net_sessions::session_ways::{Directions, directions_of, sessions_of};
pub use network_nodes::{CustomerCall, Edge, Fate};
pub use plane::{ActAnswer, ControlPlane};
