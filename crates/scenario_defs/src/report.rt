//! The lines of a report.
use crate::Kind;
use mv_base::{Bytes, IfaceId, NodeId, Seq};

/// A fault word of a Join/Prune message or of a packet.
#[derive(Clone, Copy, PartialEq, Eq)]
pub enum FaultWord {
    Short,
    Version,
    PimType,
    Checksum,
    Family,
    Encoding,
    MaskLength,
    Flags,
    NotMulticast,
    Trailing,
    HeaderLength,
    TotalLength,
    LinkLocal,
}

/// Why an event was refused.
#[derive(Clone, Copy, PartialEq, Eq)]
pub enum Refusal {
    Empty,
    State,
    Place,
    Full,
    Ours,
    Bytes { place: u32, word: FaultWord },
}

/// One line of a report.
#[derive(Drop)]
pub enum ReportLine {
    /// A datagram left at an interface.
    Out {
        number: u64,
        iface: IfaceId,
        bytes: Bytes,
    },
    /// The event of that line was refused.
    Refused {
        line: u32,
        reason: Refusal,
    },
    /// Octets in transit, copies on links, datagrams with a copy, due timers, and sessions that are not ready.
    State {
        bytes: u64,
        copies: u64,
        buffers: u64,
        due: u64,
        unready: u64,
    },
    /// The node had no free label.
    Halt {
        line: u32,
        node: NodeId,
    },
    /// A node put octets to its peer.
    Put {
        kind: Kind,
        from: NodeId,
        to: NodeId,
        bytes: Bytes,
    },
    /// A node took octets from its peer.
    Take {
        kind: Kind,
        from: NodeId,
        to: NodeId,
        bytes: Bytes,
    },
    /// A copy was put on a link.
    Hop {
        from: NodeId,
        to: NodeId,
        label: u32,
        ttl: u8,
        number: u64,
    },
    /// A copy reached the end of a link.
    Land {
        from: NodeId,
        to: NodeId,
        label: u32,
        number: u64,
    },
}

pub type Lines = Seq<ReportLine>;
