//! Routes that an egress learned.
use mldp::mldp_fec::Fec;
use mldp::of_mv_base::Pattern;

/// A route of a root for a selective tunnel, as an egress learned it.
#[derive(Clone, Copy, PartialEq, Eq)]
pub struct LearnedRoute {
    pub pattern: Pattern,
    /// The tunnel.
    pub fec: Fec,
    /// The clock at which it was learned.
    pub since: u64,
    /// Whether its delay was run.
    pub run: bool,
}
