//! Why a call of a customer is refused.
use mv_base::NoMemory;

/// Why a call of a customer changes nothing.
#[derive(Clone, Copy, Debug, PartialEq, Eq)]
pub enum ControlFault {
    /// There would be more entries, notes or selections than an edge holds.
    Full,
    NoMemory,
}

impl From<NoMemory> for ControlFault {
    ghost use Rattle.std.specs.Prelude.{◌≡◌};
    ghost use Rattle.edge_control.specs.declared.fault.ControlFault.TheVariants as faults;

    ghost from_gives = { λ fault result. result ≡ faults.NoMemory };

    fn from(_: NoMemory) -> Self {
        ControlFault::NoMemory
    }
}
