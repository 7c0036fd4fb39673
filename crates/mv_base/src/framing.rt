//! Octets that are units laid end to end, whatever their format: what it means that octets are whole units and where
//! the first fault stands, and a stream of them that comes in pieces.

mod cutting;
mod fault;
mod inbound;

pub use cutting::Cutting;
pub use fault::FeedFault;
pub use inbound::Inbound;
