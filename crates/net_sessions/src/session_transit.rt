//! The octets in transit over the sessions of a network, each way, and which of the sessions are joined.

mod octets;
mod sessions;
mod transit;

pub use transit::Transit;
