//! Selections of a root.
use mldp::of_mv_base::Pattern;

/// A selection of a root: the flows that match the pattern are to go on a tunnel of their own.
#[derive(Clone, Copy, PartialEq, Eq)]
pub struct Selection {
    pub pattern: Pattern,
    /// What the number of its tunnel adds to that of the VRF's inclusive tunnel.
    pub number: u32,
    /// The clock at which it was made.
    pub since: u64,
    /// Whether its delay was run.
    pub run: bool,
}
