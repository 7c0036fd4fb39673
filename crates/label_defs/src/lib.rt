//! The label part of a node, as plain data: what its labels are used for, the branches and leaves of its trees, the
//! trees that wait for a label, and the ends of its LDP sessions; and the steps that change it (RFC 6388 section 2, RFC
//! 5036 section 3.5). Nothing comes in: the steps are definitions, and what goes out are their laws, functions with
//! empty bodies (`laws.rt`): that steps keep trees settled, that losses and raises need no label, that withdraws are
//! answered, that labels rest. `specs/LabelData.antt` has the data and what is read from it, `Keys` and `Between` the
//! orders of trees, branches and nodes, `Settling` what a tree needs and the node after it, `Steps` and `Node` the
//! calls, `Settled`, `Laws` and `Row` what the laws say. Each law rests on two files of proofs: `TurnLemmas` says what
//! the settling of one tree does to each label, and `OwnLemmas` what a call's own effect does. Below it is `mldp`.
//! Above it `label_laws` puts such nodes together to a network, `mldp_node` is a node as code, and an edge
//! (`edge_defs`) and the whole network (`network_defs`) have a label part.
#![tactic(auto)]

mod branch;
mod change;
mod end;
mod label_use;
mod laws;
mod put;

pub use branch::Branch;
pub use change::Change;
pub use end::End;
pub use label_use::LabelUse;
pub use laws::{
    free_labels_stay, fresh_is_settled, holds_wait, ids_fit, labels_rest, leaf_to_root,
    losses_end_a_session, losses_need_no_label, mappings_wait, messages_are_passed_over, no_label,
    reroutes_move, reroutes_settle, settled_needs_nothing, settling_keeps, steps_keep_settled,
    withdraws_are_answered, withdraws_leave,
};
// The names `of_..`: words of lower crates that this crate's contracts are made of.
pub use mldp as of_mldp;
pub use put::Put;
