//! What a label number is.

/// What a label number is.
#[derive(Clone, Copy, PartialEq, Eq)]
pub enum LabelState {
    Free,
    Owned,
    /// Free again from this moment on.
    Resting(u64),
}

/// A number that rests, and the moment from which on it is free.
#[derive(Clone, Copy, PartialEq, Eq)]
pub(crate) struct Rest {
    pub(crate) number: u32,
    pub(crate) until: u64,
}
