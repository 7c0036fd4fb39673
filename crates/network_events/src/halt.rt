//! Why a network goes no further.
ghost use Rattle.std.specs.Prelude.{◌≡◌, Err};
ghost use Rattle.network_events.specs.Doing.{answer_at};
ghost use Rattle.network_events.specs.Meeting.{met};

use mldp_node::NodeFault;
use mv_base::{NoMemory, NodeId};
use scenario_defs::Refusal;

/// Why a network goes no further.
#[derive(Clone, Copy, PartialEq, Eq)]
pub enum Halt {
    /// A label step of the node needs more labels than are free.
    NoLabel(NodeId),
    /// Memory ran out.
    NoMemory,
}

/// What comes of an event: it is done, it is refused for a reason, or the network goes no further.
pub(crate) type EventAnswer = Result<Option<Refusal>, Halt>;

impl From<NoMemory> for Halt {
    fn from(_: NoMemory) -> Halt
        ensures { result ≡ Halt.NoMemory }
    {
        Halt::NoMemory
    }
}

/// What comes of an act by what node n answered.
pub(crate) fn answer_at(n: NodeId, answer: Result<(), NodeFault>) -> Result<(), Halt>
    ensures { result ≡ answer_at n answer }
{
    match answer {
        Ok(()) => Ok(()),
        Err(NodeFault::NoLabel) => Err(Halt::NoLabel(n)),
        Err(NodeFault::NoMemory) => Err(Halt::NoMemory),
    }
}

/// What an event that is not refused answers, by what its acts did.
pub(crate) fn met(answer: Result<(), Halt>) -> EventAnswer
    ensures { result ≡ met answer }
{
    match answer {
        Ok(()) => Ok(None),
        Err(halt) => Err(halt),
    }
}
