//! Names of bindings that are kept.

/// The name of a binding that is kept: a place, and how many bindings that place had before.
#[derive(Clone, Copy, Debug, PartialEq, Eq)]
pub struct BindingName {
    pub index: u64,
    pub generation: u64,
}
