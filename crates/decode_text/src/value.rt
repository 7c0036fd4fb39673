//! Values of formats in which they stand end to end.
ghost use Rattle.std.specs.Prelude.{◌≡◌, ◌++◌, ◌<◌, ◌^◌, IfOk, IfErr, OnOk};
ghost use Rattle.decode_text.specs.Values.{Telling, Stands};

use mv_base::{Bytes, NoMemory};

/// A value of a format in which values stand end to end.
pub trait Value: Drop {
    /// Why no value stands at the front, and where.
    type Fault: Drop;

    /// How values and faults are spelled and told.
    ghost telling: { Telling Self Self.Fault };

    /// The value at the front of the octets, and how many of them it has; or else the first fault.
    fn read(octets: &[u8]) -> Result<(Self, usize), Self::Fault>
        ensures stands { IfOk result (λ x. Stands telling octets.now x.0 x.1) }
        ensures first { IfErr result (λ fault. telling.First octets.now fault) };

    /// Appends the line of the value.
    fn put_line(&self, out: &mut Bytes) -> Result<(), NoMemory>
        ensures { OnOk result (out.new ≡ out.old ++ telling.line self.now) };

    /// Appends the line of a fault that was met after so many octets.
    fn put_fault(out: &mut Bytes, thereafter: usize, fault: &Self::Fault) -> Result<(), NoMemory>
        requires { thereafter < 2 ^ 63 }
        ensures { OnOk result (out.new ≡ out.old ++ telling.refusal thereafter fault.now) };
}
