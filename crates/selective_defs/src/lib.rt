//! Which selective tunnel a root transmits a flow on, and which ones an egress wants, as definitions over lists of
//! selections and of learned routes (RFC 6513 section 7, RFC 6514 section 12, RFC 6625). The ranks of patterns and the
//! delays are this project's profile. `specs/Selective.antt` says which flows a pattern matches, has `transmitted` and
//! `wanted` as functions and what both mean as relations, and says when an egress is in step with a root; `Example` has
//! a worked root and egress. Nothing comes in; what goes out are laws, functions with empty bodies (`laws.rt`): an
//! egress wants what its root transmits on, old and new tunnel overlap while the delay of a more specific selection
//! runs, and a new selection gets a number that no other one has. They rest on the one fact that of the patterns that
//! match a flow there is one of each rank. Below it is `mldp`, whose FEC a tunnel is. Above it `selective` is the code,
//! and `edge_defs` uses both functions for an edge.
#![tactic(auto)]

mod laws;
mod learned_route;
mod selection;

pub use laws::{
    egress_wants_what_root_transmits, free_number_is, next_number_is, transmitted_is,
    tunnels_overlap, wanted_is,
};
pub use learned_route::LearnedRoute;
// The names `of_..`: words of lower crates that this crate's contracts are made of.
pub use mldp as of_mldp;
pub use selection::Selection;
