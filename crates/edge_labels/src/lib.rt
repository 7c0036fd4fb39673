//! The label part of an edge, as code (RFC 6388 section 2.4). A step of the edge comes in, with the trees of which it
//! may become or stop being a leaf; label messages for neighbours, or the want of a label, go out. `EdgeLabels`
//! (`labels.rt`) is a label node of `mldp_node` that goes through a row of calls in one step of the edge (`row.rt`):
//! first the step's own (`own_call.rt`), then one for each tree of which the edge becomes or stops being a leaf, in
//! their order. Where one of the calls needs more labels than are free, or memory, it is spent, and each later step
//! answers the same; `specs/Calls.antt` says what such a row answers and leaves. Which trees change is found among
//! candidates, so that not all trees of the edge are looked at: `leaf_changes` (`changes.rt`) compares for each whether
//! the label node is a leaf of it with whether it is listed among those of which the edge is to be one. Where no other
//! tree changes (`AreCandidates`), the answer is `changed_leaves` of `edge_defs`. Below it are `mldp_node` and
//! `node_laws`; above it `edge_routing` finds the candidates, and `edge_core` has this part in an edge.
#![tactic(auto)]

mod changes;
mod labels;
mod own_call;
mod row;

pub use changes::LeafChange;
pub use labels::EdgeLabels;
pub use own_call::OwnCall;
