//! Calm sessions of a network of edges: an egress wants the tunnel on which the root transmits, and its flows are joined at the root.

mod laws;

pub use laws::{
    calm_tables_are_equal, egress_is_a_leaf_of_what_root_transmits, egress_is_in_step, flows_stand,
};
