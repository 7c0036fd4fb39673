//! The routes of an edge, one at a time: a VRF, a flow or a route comes in, and the key and value that the edge
//! originates, or what a VRF takes of a route, goes out (RFC 4364 section 4.3, RFC 6514 sections 6, 7, 9.1.1, 11.1.3,
//! 12.1 and 14.1). No such call takes memory, and each is equal to its definition in `edge_defs`. A definition that speaks
//! of a whole place reads only the edge's address and its autonomous system, so a clause holds at every place that has
//! these (`IsAt` in `specs/Local.antt`). `route_order`: keys and values of routes as a table keeps them, in the order
//! in which they are sent to a peer, those that an edge originates with no memory of their own, and the key of a route
//! that was taken by the numbers that spell it (`KeptKey`; `TakenKey` while it is taken). That a key or a value has a
//! spelling is the type's invariant, so no table has to say it of its entries. `edge_home`: an edge of a scenario: the scenario, which is in
//! memory once for all edges of a network, the edge's VRFs in order, the addresses of nodes and the other edges. It
//! asks that the scenario meets its rules and that the node is an edge (`IsHome`), and says so wherever it lends the
//! scenario. `KeptPmsi`: the PMSI Tunnel attribute of a route that was taken, in few octets where its tunnel is such a one as edges use.
//! `Shared`: a value that several have, and that is in memory once; contracts see the value. Below it are
//! `edge_defs` and `bgp_values`; above it `edge_tables`, `control_laws`, `edge_control` and `held_tables` keep such
//! routes.
#![tactic(auto)]

pub mod edge_home;
mod imported;
mod kept_pmsi;
mod local;
mod originated;
pub mod route_order;
mod shared;
mod tunnel;

pub use imported::{
    FlowRoute, ImportedSelective, JoinBy, SelectiveRoute, TakenValue, imported_active,
    imported_inclusive, imported_join, imported_selective, inclusive_tunnel, is_admitted, join_by,
};
pub use kept_pmsi::{KeptPmsi, mark_of};
pub use local::LocalVrf;
pub use originated::{
    Import, RemoteUpstream, active_key, afi_of, import_target, inclusive_key, join_route,
    own_import, plain_value, selective_key, tunnel_value, unicast_key, unicast_value,
};
pub use shared::Shared;
pub use tunnel::{lsp, tunnel_by, tunnel_number};
