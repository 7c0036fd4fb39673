//! Least-cost paths through the provider's core. Nodes, links and their costs come in; a `Core` goes out, with the cost
//! of the least walk from each node to each other one and where it leads first, or the lowest node that is not reached.
//! Contracts see a core as its nodes and links, in the words of `core_walks` of `mv_base`. Each node of a network has
//! one, by the costs that it acts on. `rows.rt` makes the row of least costs toward one node: each link is looked at,
//! again and again, until none makes an entry lower; `steps.rt` the row of first steps; `tables.rt` both for all nodes;
//! `costs.rt` has one link at another cost. A row is proved in two halves. Each entry is the cost of a walk, whatever
//! was looked at in whatever order. Once no link makes an entry lower, no walk is cheaper than the entry of its first
//! node, by induction on the walk. So nothing has to be shown of the rounds between, but that each makes the sum of the
//! row less. Below it is `mv_base`; above it a label node asks for next hops (`mldp_node`), a VRF for the nearest edge
//! (`umh_select`, `vrf_flows`), and `network_laws` shows that each scenario has cores.
#![tactic(auto)]

mod costs;
mod paths;
mod rows;
mod steps;
mod tables;

pub use paths::{Core, CoreFault};
