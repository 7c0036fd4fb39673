//! What the calls of an edge answer besides Ok.
use edge_routing::of_edge_streams::SessionReason;
use mldp_node::NodeFault;
use mv_base::{NoMemory, NodeId};
use pim_joinprune::PimFault;
use std::fmt;
use thiserror::Error;

/// Why a call of an edge was not made, or not as a whole.
#[derive(Clone, Copy, PartialEq, Eq, Error)]
pub enum EdgeFault {
    /// The octets of the session with the peer have a first fault, at that place of its stream. What the messages before it say stands.
    #[error("the octets of node {} have a fault at place {place}", .peer.0)]
    Session {
        peer: NodeId,
        place: u64,
        reason: SessionReason,
    },
    /// The octets are no Join/Prune message: the first fault, and its place. Nothing changed.
    #[error("no Join/Prune message: {fault:?} at place {place}")]
    Pim {
        place: u32,
        fault: PimFault,
    },
    /// The Join/Prune message is for another router. Nothing changed.
    #[error("a Join/Prune message for another router")]
    NotOurs,
    /// There would be more entries, notes or selections than an edge holds. Nothing changed.
    #[error("too many entries, notes or selections")]
    Full,
    /// A label step needed more labels than were free. The edge is spent.
    #[error("no label is free")]
    NoLabel,
    /// The edge is spent.
    #[error("out of memory")]
    NoMemory,
}

/// What a call of an edge answers that gives nothing back.
pub type EdgeAnswer = Result<(), EdgeFault>;

/// It says what `Display` says: the faults of streams have no `Debug`.
impl fmt::Debug for EdgeFault {
    fn fmt<W: fmt::Write>(&self, f: &mut fmt::Formatter<W>) -> Result<(), fmt::Error> {
        fmt::Display::fmt(self, f)
    }
}

impl From<NodeFault> for EdgeFault {
    ghost use Rattle.std.specs.Prelude.{◌≡◌};
    ghost use Rattle.mldp_node.specs.NodeData.{cause};
    ghost use Rattle.edge_core.specs.Answers.{fault_of};

    ghost from_gives = { λ fault result. result ≡ fault_of (cause fault) };

    fn from(fault: NodeFault) -> Self {
        match fault {
            NodeFault::NoLabel => EdgeFault::NoLabel,
            NodeFault::NoMemory => EdgeFault::NoMemory,
        }
    }
}

impl From<NoMemory> for EdgeFault {
    ghost use Rattle.std.specs.Prelude.{◌≡◌};
    ghost use Rattle.edge_core.specs.declared.fault.EdgeFault.TheVariants as faults;

    ghost from_gives = { λ _ fault. fault ≡ faults.NoMemory };

    fn from(_: NoMemory) -> Self {
        EdgeFault::NoMemory
    }
}
