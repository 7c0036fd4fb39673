//! What an edge keeps of its customers and of its peers, with what it sends to each peer (RFC 6513, RFC 6514, RFC 4271
//! section 9). A call comes in; a step is the call's own effect, then a refresh of the flows, then the joins that
//! changed are set in the tables, and then each peer is put the changes (`finishing.rt`). What goes out are octets for
//! peers, and the trees of which the edge may become or stop being a leaf. Between two steps `IsInStep` holds
//! (`specs/Routing.antt`): each peer was sent exactly what the edge holds for it, or nothing while its session is down.
//! `edge_updates`: whole UPDATE messages of a peer, taken change by change, with a list of the inclusive tunnels that
//! may come or go. A tunnel that is not listed is imported after the message exactly where it was before. `edge_joins`:
//! the Source Tree Joins of the flows in the tables of peers (RFC 6514 section 11.1.3); in which order joins are
//! listed, and how often, makes no difference. `edge_datagrams`: where datagrams of customers and copies at a leaf
//! leave, and on which tunnel one is transmitted. `edge_leaves`: of which tunnels the edge is to be a leaf (RFC 6514
//! sections 9.1.2 and 12.3), and how many timers are due. Below it are `edge_control`, `held_tables`, `edge_labels` and
//! `edge_streams`; above it `edge_core` is the whole edge.
#![tactic(auto)]

mod customers;
pub mod edge_datagrams;
pub mod edge_joins;
pub mod edge_leaves;
pub mod edge_updates;
mod finishing;
mod operators;
mod peers;
mod routing;

// The names `of_..`: words of lower crates that this crate's contracts are made of.
pub use edge_control as of_edge_control;
pub use edge_control::of_vrf_trees as of_vrf_trees;
pub use edge_labels as of_edge_labels;
pub use edge_streams as of_edge_streams;
pub use routing::{EdgeRouting, LeafCandidates};
