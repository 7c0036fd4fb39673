//! Laws that tie a node as its callers have it to the network of octets of `network_defs`. Nothing comes in; each law
//! is a function with an empty body. `specs/Edges.antt` says when an edge is that of a node in the network
//! (`IsEdgeAt`): it keeps the same, what waits for each of its sessions is what was put over it in the act so far, and
//! its streams are those of the directions that lead to it; and when it is so before a call, where the stream of an end
//! that comes up or notices a loss has begun in the network already. `CoreNodes` says the same of a core node
//! (`CoreState`), and `AnyNodes` puts both together, with what an act of a node leaves elsewhere. `nodes.rt`: calls are
//! acts, also by new costs, and octets that are moved to a node are taken by it. `ends.rt`: by which acts ends of
//! sessions come up and go down, and holds are run (RFC 5036 section 3.5). `ways.rt`: which directions a scenario's
//! sessions have, each once. Below it are `network_laws` and `node_laws`; above it `network_nodes` has a node whose
//! calls are exactly these steps.
#![tactic(auto)]

mod ends;
mod nodes;
mod ways;

// The names `of_..`: words of lower crates that this crate's contracts are made of.
pub use edge_routes as of_edge_routes;
pub use ends::{ends_come_up_by_raises, holds_are_run_by_timers};
pub use nodes::{
    calls_of_a_node_are_acts, nodes_follow_the_costs, octets_that_a_node_takes_are_moved,
};
pub use ways::ways_of_a_scenario;
