//! The groups of an edge's flows: laws over definitions (RFC 6514 section 4).

mod laws;

pub use laws::{groups_are_kept, messages_have_groups, named_flows_are_flows};
