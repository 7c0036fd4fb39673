//! Copies of datagrams on the links of the whole network: what is still owed by them, and that each receiver gets a
//! datagram once. Nothing comes in; each law is a function with an empty body (`laws.rt`). In every run branches lead
//! along links, and each copy is on a direction of a link, of a datagram that was accepted, and has a TTL of 1 to 255
//! (`specs/Linked.antt`). Where the labels of a tree are calm (`Labels`), its branches are a tree from the root; where
//! the flow of a datagram is calm (`Calm`), the datagram and all copies that come of it are written once at each
//! interface that receives it, and nowhere else (`Flood`, `Choice`, `Leaving`); and so it is through a window in which
//! datagrams are sent and copies land, over the whole report (`Window`, `Once`). Below it are `network_laws` and
//! `edge_words`; above it `once_laws` shows that a line of zeros makes a flow calm, and `run_laws` uses that branches
//! and copies are on links.
#![tactic(auto)]

mod laws;

pub use laws::{
    calm_flows_are_written_once, calm_labels_are_a_tree, copies_are_sound, what_leaves_an_edge,
    windows_deliver_once,
};
