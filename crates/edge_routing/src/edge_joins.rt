//! The tables of peers have the joins of an edge's flows (RFC 6514 section 11.1.3).

mod joins;
mod laws;
mod upstreams;

pub use joins::hold_joins;
pub use laws::{changed_joins_are_left, refreshed_imports_are_ipv4};
