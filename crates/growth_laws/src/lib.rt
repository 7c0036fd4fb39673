//! Laws of runs in which nothing is ever taken back: where each node has more labels than there are trees, it never
//! runs out. Nothing comes in; each law is a function with an empty body (`laws.rt`). A node that was never asked to
//! take anything back has a label for each tree that needs one (`specs/Labels.antt`); where a call's own effect takes
//! nothing back, the flows of an edge keep their upstreams, and it stays a leaf of each tunnel (`Edges`); so a script
//! that takes nothing back never halts (`Scripts`). `Tests` has this as tests of a scenario and a script, among them
//! that an address of a VPN has one home. Below it are the definitions of an edge, of label nodes and of the network,
//! and `run_laws` for what a halt is; above it `made_laws` shows that the scripts of the generator are such scripts.
#![tactic(auto)]

mod laws;

pub use laws::{
    growing_edges_stay_leaves, growing_nodes_hold_few_labels, growing_nodes_never_lack_a_label,
    growing_runs_never_halt, growing_scripts_are_told,
};
