//! What was found in octets.

/// How far octets were cut into units: the messages of the whole ones and those before the fault in the unit after them,
/// how many octets the whole ones have, and that fault, with its place.
#[derive(Drop)]
pub struct Cutting<M, E> {
    pub messages: Vec<M>,
    pub len: usize,
    pub fault: Option<(usize, E)>,
}
