//! A node of the whole network: a provider edge or a core node, which has a label part alone (RFC 4364, RFC 6388).
//! Calls, octets and copies come in, and octets that wait, where a copy goes, or a fault goes out: one answer for both
//! kinds, that of an edge. `NetworkNode` (`node.rt`) is seen in contracts by `specs/NodeView.antt`: which node of the
//! definitions it is, where it is placed, what it keeps and what waits for a session. `Answers` is the contract of each
//! call: in every network in which the node is (`Stands`), it makes exactly the network's step (`node_after`,
//! `node_taking` of `wire_laws`), which is `edge_answers` and `core_answers` in `proofs/AnswerLemmas.antt`. `Network`
//! has a node that is the one of a network of octets, with what it has put; `Edges` and `Faults` hand on the words of
//! edges and the faults. `core_node`: the label part of a core node and the streams of its LDP sessions (RFC 5036
//! section 3.1), call by call; it is the `CoreState` of `wire_laws`. Below it are `edge_core`, `mldp_node`,
//! `edge_streams` and `wire_laws`; above it the control plane of `network_acts`.
#![tactic(auto)]

mod calls;
pub mod core_node;
mod datagrams;
mod node;
mod queries;
mod sessions;

pub use edge_core::{CustomerCall, Edge, EdgeAnswer, EdgeCall, EdgeFault, Fate};
pub use node::NetworkNode;
// The names `of_..`: words of lower crates that this crate's contracts are made of.
pub use wire_laws as of_wire_laws;
