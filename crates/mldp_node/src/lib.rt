//! The label part of a node, as code: a node's calls, messages of neighbours and timers come in, and label messages for
//! neighbours, branches and faults go out (RFC 6388 section 2, RFC 5036 section 3.5). Each call is the label step of
//! `label_defs/specs/Node.antt`, whichever way the core is reported, and a node that lacks a label or memory is spent.
//! A call makes its own change (`steps.rt`) and then settles trees (`settling.rt`): one, where a message or a leaf is
//! about one; those that wait, for the timers; all of the node, for a noticed loss; and each of these twice in a row
//! where next hops changed. Its invariant (`IsNode`) says of the trees that wait that no label is mapped to them and
//! that the node is on them; in the midst of a call the tree whose settling failed is one of those that settle
//! (`Waits`). `label_ends`: the ends of a node's LDP sessions that are up, how often each came up, holds, the ids of
//! messages, and the octets that wait for each neighbour, each message in a PDU of its own. Below it are `label_trees`
//! and `core_paths`; above it a core node (`network_nodes`) and an edge (`edge_labels`) have such a part.
#![tactic(auto)]

mod fault;
pub mod label_ends;
mod node;
mod settling;
mod standing;
mod steps;
mod telling;

pub use fault::NodeFault;
// The names `of_..`: words of lower crates that this crate's contracts are made of.
pub use label_trees as of_label_trees;
pub use node::{Addrs, LdpNode};
