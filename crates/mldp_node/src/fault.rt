//! Why a node makes no more steps.
use mv_base::NoMemory;

/// Why a node makes no more steps.
#[derive(Clone, Copy, Debug, PartialEq, Eq)]
pub enum NodeFault {
    /// A step needed more labels than were free.
    NoLabel,
    NoMemory,
}

impl From<NoMemory> for NodeFault {
    ghost use Rattle.std.specs.Prelude.{◌≡◌};
    ghost use Rattle.mldp_node.specs.declared.fault.NodeFault.TheVariants as faults;

    ghost from_gives = { λ _ fault. fault ≡ faults.NoMemory };

    fn from(_: NoMemory) -> Self {
        NodeFault::NoMemory
    }
}
