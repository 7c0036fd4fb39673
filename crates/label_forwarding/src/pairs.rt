//! What is noted of labels.
ghost use Rattle.std.specs.Prelude.{◌≡◌, ◌+◌, ◌<◌, ◌^◌, ℕ, None, Some, IfSome, IfNone, if◌then◌else◌};
ghost use Rattle.indexmap.specs.IndexMap.{get, spare, IsUnique};
ghost use Rattle.label_defs.specs.mldp.declared.mldp_fec.fec.Fec.{Fec};
ghost use Rattle.label_forwarding.specs.declared.branch.Branch.{Branch};
ghost use Rattle.label_forwarding.specs.Hops.{is_hop};
ghost use Rattle.label_forwarding.specs.Slots.{is_fec, noted};

use crate::branch::Branch;
use indexmap::IndexMap;
use label_defs::of_mldp::mldp_fec::Fec;

/// The FEC of the copies under a label, by neighbour and label.
pub(crate) type Pairs = IndexMap<Branch, Fec>;

/// Notes the FEC of a label. There is room for it.
pub(crate) fn note(pairs: &mut Pairs, at: Branch, fec: &Fec)
    requires room { 0 < spare pairs.old }
    requires absent { get is_hop pairs.old at ≡ None }
    ensures each { (other : Branch) → get is_hop pairs.new other ≡ (if is_hop at other then Some fec.now else get is_hop pairs.old other) }
    ensures unique { IsUnique is_hop pairs.new }
    ensures counts { (own : Fec) → noted own pairs.new.entries ≡ noted own pairs.old.entries + (if is_fec own fec.now then 1 else 0) }
    ensures few { (own : Fec) → noted own pairs.new.entries < 2 ^ 64 }
{
    pairs.insert(at, *fec).unwrap();
    // The number of notes, which fits a `usize`, bounds how many name a FEC.
    let _notes = pairs.len();
}

/// Takes out what was noted of a label.
pub(crate) fn forget(pairs: &mut Pairs, at: Branch) -> Option<Fec>
    ensures value { result ≡ get is_hop pairs.old at }
    ensures each { (other : Branch) → get is_hop pairs.new other ≡ (if is_hop at other then None else get is_hop pairs.old other) }
    ensures unique { IsUnique is_hop pairs.new }
    ensures counts { IfSome result (λ fec. (own : Fec) →
        noted own pairs.new.entries + (if is_fec own fec then 1 else 0) ≡ noted own pairs.old.entries) }
    ensures unchanged { IfNone result (pairs.new.entries ≡ pairs.old.entries) }
{
    pairs.swap_remove(&at)
}
