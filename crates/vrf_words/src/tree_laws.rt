//! What the trees of an edge's VRFs say of the edge: its flows and their upstreams, which interfaces ask for them, of which trees it is
//! a leaf, where datagrams go, and which joins it puts.

mod laws;

pub use laws::{
    asking_is_told, entering_is_told, flow_looked_up, imports_are_told, joins_are_told,
    leaves_are_wanted, leaving_is_told, prefixes_are_whole, transmitted_is_told, trees_start,
};
