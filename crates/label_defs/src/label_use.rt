//! What a label is used for.
use mldp::mldp_fec::Fec;
use mldp::of_mv_base::NodeId;

/// What a label number of a node is used for.
#[derive(Clone, Copy, PartialEq, Eq)]
pub enum LabelUse {
    Free,
    /// It is mapped to the FEC towards the upstream neighbour (RFC 5036 section 3.5.7).
    Mapped { fec: Fec, upstream: NodeId },
    /// It was withdrawn, and the neighbour has not released it (RFC 5036 section 3.5.10).
    Leaving { fec: Fec, upstream: NodeId },
    /// It was released, and is free again from that moment on.
    Resting { until: u64 },
}
