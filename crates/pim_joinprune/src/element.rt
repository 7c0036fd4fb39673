//! Elements of lists whose counts stand in front of them.
ghost use Rattle.std.specs.Prelude.{◌≡◌, ◌++◌, ℕ, List, Result, OnOk};
ghost use Rattle.std.specs.List.{flat_map, AllByRecursion};
ghost use Rattle.pim_joinprune.specs.declared.family.Family.{Family};
ghost use Rattle.pim_joinprune.specs.declared.fault.PimFault.{PimFault};
ghost use Rattle.pim_joinprune.specs.Answers.{Gives};
ghost use Rattle.pim_joinprune.specs.Fields.{all_at};

use crate::family::Family;
use crate::fault::ReadFault;
use mv_base::{Bytes, NoMemory, Seq};
use std::alloc::Global;

/// An element of a list, in a message of that family.
pub(crate) trait Element: Drop {
    /// What stands at the front of octets.
    ghost read_at: { Family → List ℕ → Result (Self × List ℕ) (ℕ × PimFault) };

    /// The octets that are written.
    ghost text: { Family → Self → List ℕ };

    /// What can be written.
    ghost IsWritable: { Family → Self → Type 0 };

    /// Takes the element at the front.
    fn read(alloc: Global, family: Family, octets: &[u8]) -> Result<(Self, &[u8]), ReadFault>
        ensures { Gives (λ x. (x.0, x.1.now)) result (Self.read_at family octets.now) };

    /// Appends the element.
    fn push(&self, family: Family, out: &mut Bytes) -> Result<(), NoMemory>
        requires { Self.IsWritable family self.now }
        ensures { OnOk result (out.new ≡ out.old ++ Self.text family self.now) };
}

/// Takes so many elements that stand end to end.
pub(crate) fn read_all<E: Element>(
    alloc: Global,
    family: Family,
    count: usize,
    octets: &[u8],
) -> Result<(Seq<E>, &[u8]), ReadFault>
    ensures { Gives (λ x. (x.0, x.1.now)) result (all_at (E.read_at family) count octets.now) }
{
    let mut items = Seq::new(alloc);
    let mut rest = octets;
    'elements: for _ in 0..count {
        let (item, after) = E::read(alloc, family, rest)?;
        items.push(item)?;
        rest = after;
    }
    Ok((items, rest))
}

/// Appends the elements end to end.
pub(crate) fn push_all<E: Element>(
    out: &mut Bytes,
    family: Family,
    items: &[E],
) -> Result<(), NoMemory>
    requires { AllByRecursion (E.IsWritable family) items.now }
    ensures { OnOk result (out.new ≡ out.old ++ flat_map (E.text family) items.now) }
{
    'elements: for item in items {
        item.push(family, out)?;
    }
    Ok(())
}
