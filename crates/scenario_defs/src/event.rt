//! The events of a script.
use crate::Scenario;
use mv_base::{Addr, Bytes, IfaceId, NodeId, Pattern, Seq, SiteId, VrfId};

/// The protocol of a session.
#[derive(Clone, Copy, PartialEq, Eq)]
pub enum Kind {
    Bgp,
    Ldp,
}

/// What a join or a prune names (RFC 7761 section 4.9.5).
#[derive(Clone, Copy, PartialEq, Eq, Hash)]
pub enum JoinEntry {
    /// (*,G)
    Star { group: Addr },
    /// (S,G)
    Source { source: Addr, group: Addr },
    /// (S,G,rpt)
    Rpt { source: Addr, group: Addr },
}

/// What a join or a prune names at an interface, whether or not it is held there. One that is held is an entry of the
/// interface: (*,G) or (S,G) joined, or (S,G,rpt) pruned, by its customer router (RFC 7761 section 4.1).
#[derive(Clone, Copy, PartialEq, Eq, Hash)]
pub struct IfaceEntry {
    pub iface: IfaceId,
    pub entry: JoinEntry,
}

/// What a customer does, or the operator for one.
#[derive(Drop)]
pub enum CustomerEvent {
    Join {
        iface: IfaceId,
        entry: JoinEntry,
    },
    Prune {
        iface: IfaceId,
        entry: JoinEntry,
    },
    Pim {
        iface: IfaceId,
        bytes: Bytes,
    },
    Active {
        iface: IfaceId,
        source: Addr,
        group: Addr,
    },
    Idle {
        iface: IfaceId,
        source: Addr,
        group: Addr,
    },
    Select {
        vrf: VrfId,
        pattern: Pattern,
    },
    Unselect {
        vrf: VrfId,
        pattern: Pattern,
    },
}

/// One event of a script.
#[derive(Drop)]
pub enum Event {
    Tick {
        count: u64,
    },
    Timers {
        node: NodeId,
    },
    Restart {
        node: NodeId,
    },
    Move {
        kind: Kind,
        from: NodeId,
        to: NodeId,
        count: u32,
    },
    Lose {
        kind: Kind,
        a: NodeId,
        b: NodeId,
    },
    Notice {
        kind: Kind,
        a: NodeId,
        b: NodeId,
    },
    Raise {
        kind: Kind,
        a: NodeId,
        b: NodeId,
    },
    /// A customer, or the operator for one, does something at an interface or in a VRF.
    Customer(CustomerEvent),
    Send {
        site: SiteId,
        source: Addr,
        group: Addr,
        payload: Bytes,
    },
    Packet {
        site: SiteId,
        bytes: Bytes,
    },
    Hop {
        from: NodeId,
        to: NodeId,
        place: u32,
    },
    DropCopy {
        from: NodeId,
        to: NodeId,
        place: u32,
    },
    /// The link between the two nodes gets that cost.
    Cost {
        a: NodeId,
        b: NodeId,
        cost: u32,
    },
    Heal,
    Settle,
    Drain,
    State,
}

/// An event, and the number of its line in the text.
#[derive(Drop)]
pub struct Timed {
    pub line: u32,
    pub event: Event,
}

pub type Events = Seq<Timed>;

/// A scenario, the events that follow it, and the number of the line after the last one.
#[derive(Drop)]
pub struct Script {
    pub scenario: Scenario,
    pub events: Events,
    pub end: u32,
}
