//! What an edge keeps of its customers and of its peers (RFC 6513, RFC 6514). Messages of customers, notes, selections,
//! routes and sessions of peers and time come in; what changed goes out. `EdgeControl` (`control.rt`) has a tree of
//! `vrf_trees` for each of its VRFs, in their order, and the tables taken from peers (`edge_tables`). A call looks up
//! the VRF of its interface or number (`places.rt`), checks the edge's limits over all VRFs (`counts.rt`), and changes
//! one tree; a route that a peer announces or withdraws changes each tree that imports it (`taking.rt`, `each.rt`,
//! `peers.rt`, `lost.rt`). A refresh (`refreshing.rt`) goes over all trees, and lists the joins that are made or left
//! and the selective tunnels that are wanted from now on or no more. Contracts see the `Control` of `edge_defs`, put
//! together from the trees (`control_of` of `control_laws`). Each call but the refresh leaves what flows want as it was
//! (`wants_of`); after a refresh each tree keeps all of its VRF (`AreTrees`). Below it are `vrf_trees`, `edge_tables`
//! and `control_laws`; above it `edge_routing` keeps the tables towards peers in step.
#![tactic(auto)]

mod clock;
mod control;
mod counts;
mod customers;
mod each;
mod fault;
mod lost;
mod peers;
mod places;
mod refreshing;
mod selecting;
mod sessions;
mod starting;
mod taking;
mod trees;

pub use control::EdgeControl;
// The names `of_..`: words of lower crates that this crate's contracts are made of.
pub use edge_tables as of_edge_tables;
pub use fault::ControlFault;
pub use places::{own_of_iface, own_of_vrf};
pub use refreshing::ControlChanges;
pub use vrf_trees as of_vrf_trees;
