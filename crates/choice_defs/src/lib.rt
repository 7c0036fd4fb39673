//! The upstream choice of a VRF for a source and group, over its local routes and those that it imported from other
//! edges, as definitions over a list of routes (RFC 6513 section 5.1). `specs/Choice.antt` has the edge that the hash
//! names, `choose` by a rule (highest, nearest, hash) and the costs of the core, what both mean as relations, and what
//! is asked of the routes; `Example` has a worked VRF. Nothing comes in; what goes out are laws, functions with empty
//! bodies (`laws.rt`): there is one choice, with local routes alone it is the home of the source, and the hash names
//! one edge of the candidates. In `proofs/`, `OrderLemmas` shows that the order of routes is total, `BestLemmas` and
//! `HashLemmas` have the best of the covering routes and the edges of the candidates by rising address, and
//! `ChoiceLemmas` and `HomeLemmas` the laws. Below it is `scenario_defs`. Above it `umh_select` is the code, and
//! `edge_defs` asks `choose` for the upstream of a flow.
#![tactic(auto)]

mod known_route;
mod laws;
mod origin;

pub use known_route::KnownRoute;
pub use laws::{choice_is, hash_names, local_choice, local_home, one_choice, worked_choice};
pub use origin::Origin;
