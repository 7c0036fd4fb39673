//! What one VRF keeps, as code (RFC 6514 sections 11.1.3 and 12, RFC 6513 section 7). Messages of customers, notes,
//! selections and routes of other edges come in; a refresh goes out, with the joins made and left, and the tunnels
//! wanted from now on and no more (`changes.rt`). `VrfTree` (`tree.rt`) has the flows of `vrf_flows`, the two parts of
//! `selective`, the joins of other edges by flow (`joins.rt`), and for each flow that is joined at another edge the
//! selective tunnels that it wants (`wants.rt`). A contract sees `TreeData` of `vrf_words`. A selective route that is
//! learned or forgotten marks the flows of its pattern (`routes.rt`), and a refresh computes those and the flows whose
//! upstream changed (`plan.rt`, `exchange.rt`, `refresh.rt`); what is not marked is what the routes give, which is the
//! invariant. With no mark a refresh looks at no flow (`table.rt`). Whether a tunnel is wanted is a look over the lists
//! of flows. Below it are `vrf_flows`, `selective` and `vrf_words`; above it `edge_control` has such a tree for each
//! VRF of an edge.
#![tactic(auto)]

mod changes;
mod exchange;
mod joins;
mod plan;
mod refresh;
mod routes;
mod table;
mod tree;
mod wants;

pub use changes::{TreeChanges, TreeJoin, TreeJoins};
pub use tree::VrfTree;
// The names `of_..`: words of lower crates that this crate's contracts are made of.
pub use vrf_flows::of_pim_state as of_pim_state;
