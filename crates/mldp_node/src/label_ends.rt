//! The ends of a node's LDP sessions: raises, holds and message ids (RFC 5036 section 3.5), and the octets that wait for the
//! neighbours.

mod end_maps;
mod ends;

pub use ends::Ends;
