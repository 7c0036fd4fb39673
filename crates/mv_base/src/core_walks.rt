//! Links of the provider's core, walks along them, and whether each node is reached.

mod connection;

pub use connection::is_connected;
