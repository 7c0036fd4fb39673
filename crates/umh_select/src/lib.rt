//! The routes that a VRF knows, and its upstream choice among them, as code (RFC 6513 section 5.1, RFC 6514 sections 6
//! and 7). Routes of peers and attached prefixes come in; the chosen upstream of a source and group goes out. A
//! contract sees two finite maps: what peers gave, by prefix, peer and route distinguisher, and the attached prefixes
//! with their sites. `choose` answers exactly `choose` of `choice_defs` over both, with what the chosen route says,
//! whatever the costs of the least walks are called. Both maps are ordered trees by length and first bits (`key.rt`),
//! and each is the index itself: nothing beside it could be out of step, except marks of the lengths that prefixes had,
//! and a bound of these. A choice looks up the first bits of the source under each marked length below the bound, the
//! greatest first, and stops at the first length with a route. Two keys are compared part by part, as far as they tie.
//! What a choice costs then is what the routes of that length for the source are, and for the hash these times the
//! number of their edges, of which there are few (`edges.rt`). It takes no memory. Below it are `choice_defs` and
//! `core_paths`; above it `vrf_flows` chooses for each flow, and `vrf_words` sees it as plain data.
#![tactic(auto)]

mod candidate;
mod edges;
mod key;
mod route;
mod umh;

pub use key::{Place, RouteKey};
pub use route::{Choice, Held, Learned};
pub use umh::{LearnedRoutes, Umh};
