//! The routes that an edge took from its BGP peers (the Adj-RIBs-In, RFC 4271 section 3.2), each with the clock at which it was
//! learned.

mod entry;
mod kept_comms;
mod laws;
mod learning;
mod running;
mod slots;
mod table;
mod tables;

pub use entry::{RouteValue, TakenEntry, is_tunnel, same_value};
pub use laws::{active_keys_are_one, changes_are_one, join_keys_are_one, selective_keys_are_one};
pub use tables::{TableEntries, TakenTables};
