//! The labels of a node and its forwarding table (RFC 6388 section 2.4). Leaves and branches that come and go, and
//! labels that are mapped, withdrawn or released come in; what goes out is the table, and whether a label was to be
//! had. Its invariant is that the notes of the table are exactly the mapped labels, also after a call that lacked
//! memory (`trees.rt`, `mapped.rt`). `label_uses`: what each label is used for, in the words of `label_defs`, and the
//! trees that wait for one (RFC 5036 section 3.5). Each label that is mapped or leaving has a binding, and so has each
//! tree that waits; the bindings are in one table, under their names. A call looks up the labels and trees that it is
//! about in hash maps; only `lose` goes over all labels that are mapped or leaving, and `wake` and `due` over those
//! that rest. The use of a label is no field: it is read from the label space and the holder of the label, and that
//! these agree is the invariant `HoldsOwned`. Below it are `tunnel_bindings` and `label_forwarding`; above it
//! `mldp_node` adds the sessions.
#![tactic(auto)]

pub mod label_uses;
mod loss;
mod mapped;
mod order;
mod trees;

// The names `of_..`: words of lower crates that this crate's contracts are made of.
pub use label_forwarding as of_label_forwarding;
pub use order::in_order;
pub use trees::LabelTrees;
pub use tunnel_bindings as of_tunnel_bindings;
