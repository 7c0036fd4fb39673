//! The selective tunnels of a VRF, as code, in the words of `selective_defs` (RFC 6513 section 7, RFC 6514 section 12,
//! RFC 6625). Selections of the operator and routes of other edges come in; which tunnel a flow is transmitted on, and
//! which tunnels a flow wants, goes out. `root.rt` has the selections of a VRF as a root, each with its number and its
//! delay (`delay.rt`); `leaf.rt` the routes that it learned as an egress, kept by peer and pattern (`route_key.rt`), so
//! that a flow is looked up under four patterns and not searched for. `specs/Roots.antt` and `Leaves.antt` say what is
//! kept of both, and `Order` in which order learned routes are. Below it are `mv_base` and `selective_defs`, to whose
//! functions each answer is equal. Above it `vrf_trees` has both halves in what one VRF keeps, and `vrf_words` sees
//! them as plain data.
#![tactic(auto)]

mod delay;
mod laws;
mod leaf;
mod root;
mod route_key;

pub use laws::{routes_in_order, tests_are};
pub use leaf::{Fecs, LeafTunnels, LearnedRoutes};
pub use root::RootTunnels;
pub use route_key::{Learned, Place, RouteKey};
