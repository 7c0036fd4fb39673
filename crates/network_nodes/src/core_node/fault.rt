//! What the calls of a core node answer besides Ok.
use edge_streams::SessionReason;
use mldp_node::NodeFault;
use mv_base::{NoMemory, NodeId};
use std::fmt;
use thiserror::Error;

/// Why a call of a core node was not made, or not as a whole.
#[derive(Clone, Copy, PartialEq, Eq, Error)]
pub enum CoreFault {
    /// The octets of the session with the neighbour have a first fault, at that place of its stream. What the messages before it say
    /// stands.
    #[error("the octets of node {} have a fault at place {place}", .peer.0)]
    Session {
        peer: NodeId,
        place: u64,
        reason: SessionReason,
    },
    /// A label step needed more labels than were free. The node is spent.
    #[error("no label is free")]
    NoLabel,
    /// The node is spent.
    #[error("out of memory")]
    NoMemory,
}

/// What a call of a core node answers that gives nothing back.
pub type CoreAnswer = Result<(), CoreFault>;

/// It says what `Display` says: the faults of streams have no `Debug`.
impl fmt::Debug for CoreFault {
    fn fmt<W: fmt::Write>(&self, f: &mut fmt::Formatter<W>) -> Result<(), fmt::Error> {
        fmt::Display::fmt(self, f)
    }
}

impl From<NodeFault> for CoreFault {
    ghost use Rattle.std.specs.Prelude.{◌≡◌};
    ghost use Rattle.mldp_node.specs.NodeData.{cause};
    ghost use Rattle.network_nodes.specs.core_node.Answers.{fault_of};

    ghost from_gives = { λ fault result. result ≡ fault_of (cause fault) };

    fn from(fault: NodeFault) -> Self {
        match fault {
            NodeFault::NoLabel => CoreFault::NoLabel,
            NodeFault::NoMemory => CoreFault::NoMemory,
        }
    }
}

impl From<NoMemory> for CoreFault {
    ghost use Rattle.std.specs.Prelude.{◌≡◌};
    ghost use Rattle.network_nodes.specs.declared.core_node.fault.CoreFault.TheVariants as faults;

    ghost from_gives = { λ _ fault. fault ≡ faults.NoMemory };

    fn from(_: NoMemory) -> Self {
        CoreFault::NoMemory
    }
}
