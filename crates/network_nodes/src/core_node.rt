//! A core node: its label part, and the octets of its LDP sessions, call by call (RFC 6388, RFC 5036).

mod fault;
mod node;
mod octets;
mod parts;

pub use fault::{CoreAnswer, CoreFault};
pub use node::CoreNode;
