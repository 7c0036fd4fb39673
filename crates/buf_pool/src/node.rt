//! What lies in a block of the pool.

/// The octets of a live buffer, and how many hold it. A node with count 0 is free: it has no octets, and names the next free one.
#[derive(Drop)]
pub(crate) struct Node {
    pub(crate) count: u32,
    pub(crate) next: usize,
    pub(crate) octets: Vec<u8>,
}
