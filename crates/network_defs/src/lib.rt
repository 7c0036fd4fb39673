//! The whole network as plain data: its nodes, its sessions with the octets in transit, the copies on its links and its
//! clock; what each event does to it, act by act; and its runs. Nothing comes in: all is in `specs/`. `Costs` has the
//! links at other costs and the cores by them, `Nodes` and `System` edges and core nodes, `World` and `Counts` the
//! state and the numbers of `state`, `Acts` the acts with their lines, `Events` the acts of each event, `Refusals` why
//! one is refused, `Run` runs and reports, `LabelRule` and `Local` the label rule and what each hop is licensed by,
//! `Example` a worked network. `session_defs`: networks whose nodes send each other messages over BGP and LDP sessions
//! (RFC 4271 section 4.1, RFC 5036 section 3.1), with octets in transit and with whole messages, for any nodes; and the
//! laws that a run of the one is a run of the other. `node_defs`: what the steps of a node put, in octets, each change
//! of a table in an UPDATE of its own and each label message in a PDU of its own; and an edge as its callers see it,
//! with what waits for its sessions and what its streams hold back. Below it are `edge_defs`, `label_defs` and
//! `mvpn_model`. Above it the laws of runs begin with `network_laws`, and the network as code ends with
//! `network_events`.
#![tactic(auto)]

mod laws;
pub mod node_defs;
pub mod session_defs;

pub use laws::{a_refused_event_changes_nothing, a_script_has_one_run, label_sessions_come_up};
// The names `of_..`: words of lower crates that this crate's contracts are made of.
pub use mvpn_model as of_mvpn_model;
