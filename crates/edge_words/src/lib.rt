//! What the definitions of an edge (`edge_defs`) say, in the field's words; nothing comes in, and what goes out are
//! laws, functions with empty bodies. `laws.rt`: what an interface asks for (RFC 7761 section 4.1.5), of which trees
//! the edge is a leaf (RFC 6514 sections 9.1.2 and 12.3), where a datagram leaves and goes on (RFC 6513 sections 9.1.1
//! and 12), which timers are due, which number a selection gets, and what a VRF chooses (RFC 6513 section 5.1).
//! `held_laws`: which routes a VRF originates towards a peer (RFC 6514 sections 9.1.1, 12.1 and 14.1); a note, a
//! selection and the end of one change exactly the route of their VRF, and besides joins an edge holds exactly these.
//! `edge_laws`: a network of edges at the level of messages, its acts and runs; after every run the two tables of a
//! joined session are in step, and a route was learned no earlier than its selection was made. It is said of one
//! direction and one key. `calm_laws`: two edges between which nothing is left to be done: the egress wants the tunnel
//! on which the root transmits, and its flows are joined at the root. Below it is `edge_defs`; above it are
//! `vrf_words`, `node_laws` and the laws of the whole network.
#![tactic(auto)]

pub mod calm_laws;
pub mod edge_laws;
pub mod held_laws;
mod laws;

pub use laws::{
    arriving_goes, choices_are_by_the_rule, entering_goes, flows_are_asked, leaves_are_tunnels,
    none_is_due, numbers_are_free, timers_leave_none_due,
};
