//! A whole network, act by act. Each call is one act of `network_defs/specs/Acts.antt`, by name: after it the network
//! is the world after the act, and the act's lines follow those of before (`specs/Acting.antt`). `Network`
//! (`network.rt`) has a scenario, the control plane of its nodes and the datagrams on its links. `Instant` says which
//! world of the definitions it is, at a moment of an event and with the cores by the costs of links; between the acts
//! of one datagram it is `IsHandling`. `ActsAs` is the contract of an act at a node, `CustomerActsAs` that of a call
//! for which there may be no room, `Enters` that of a datagram at a VRF; `Words` hands on the words of the crates
//! below. The proofs join two crates by their contracts alone: `PlaneActs` has that a change of nodes and sessions
//! leaves the datagrams as they are, `CopyActs` that a change of copies leaves the plane as it is. `control_plane`: the
//! nodes and the octets in transit between them (RFC 4271, RFC 5036, RFC 6513). An act of a node is its own call, made
//! by the `Network`, and then `settle` of the plane has it hand out over its directions what it put, with a line for
//! each that has octets; the network stays steady, and `Acts` says in proofs what that makes of the whole act. A
//! `Moment` says which nodes have not acted on the present costs, and which end is to come up next. Below it
//! are `network_nodes`, `net_sessions` and `data_plane`; above it `network_events` makes the acts of each event.
#![tactic(auto)]

pub mod control_plane;
mod customers;
mod datagrams;
mod network;
mod nodes;
mod queries;
mod sessions;
mod telling;

pub use crate::control_plane::{
    ActAnswer, CustomerCall, Directions, Edge, Verdict, directions_of, sessions_of,
};
pub use data_plane::datagram_acts::Pool;
pub use network::Network;
// The names `of_..`: words of lower crates that this crate's contracts are made of.
pub use network_laws as of_network_laws;
pub use network_nodes::of_wire_laws::of_edge_routes as of_edge_routes;
pub use run_laws as of_run_laws;
