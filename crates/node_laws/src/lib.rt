//! A node of the whole network as a label node has it, and what waits for its sessions: laws over the definitions of
//! `network_defs` and `label_defs`. Nothing comes in; each law is a function with an empty body. `laws.rt`: the place
//! of a node is that of a label node (`places_are_one`), a row of an edge's label steps is so many calls
//! (`rows_are_calls`), and what waits for the LDP sessions after one step and after a row of them (`label_octets_wait`,
//! `row_octets_wait`); so an edge that has its label part in a label node has it there after each call. `bgp.rt` says
//! what waits for BGP peers after a step (RFC 4271 section 4.3), and of streams, octets that are handed out and
//! messages that are taken. `parts.rt`: an edge whose parts are kept apart has its control data, a label node, and for
//! each other edge the octets that wait for it; where each of these makes a call, the edge does. `leaf_laws`: each tree
//! of which an edge is to be a leaf (RFC 6514 sections 9.1.2 and 12.3) is one that a label node of its place may want.
//! Below it are `mldp_node` and `edge_words`; above it `edge_labels`, `edge_core` and `wire_laws`.
#![tactic(auto)]

mod bgp;
mod laws;
pub mod leaf_laws;
mod parts;

pub use bgp::{
    bgp_octets_wait, handed_octets_go, messages_are_taken, peers_octets_wait, streams_are_prepared,
};
pub use laws::{
    edges_have_label_nodes, label_octets_wait, places_are_one, row_octets_wait, rows_are_calls,
};
pub use parts::parts_make_a_step;
