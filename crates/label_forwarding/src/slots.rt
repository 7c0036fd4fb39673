//! The entries of a forwarding table, each with the number of labels that name its FEC.
ghost use Rattle.std.specs.Prelude.{◌≡◌, ◌<◌, ◌+◌, ◌^◌, ◌==◌, ◌||◌, true, false, not, length, None, Some, is_some, if◌then◌else◌};
ghost use Rattle.std.specs.Prelude.{IfOk, OnOk, OnErr};
ghost use Rattle.std.specs.FinMap as maps;
ghost use Rattle.std.specs.Option.{unwrap_or};
ghost use Rattle.indexmap.specs.IndexMap.{get, keys, spare, IsUnique};
ghost use Rattle.label_defs.specs.mldp.declared.mldp_fec.fec.Fec.{Fec};
ghost use Rattle.label_forwarding.specs.Slots.{is_fec, fresh, had, counted, with_mark, with_hop, is_idle, kept};

use crate::branch::Branch;
use crate::branches::Branches;
use crate::entry::Entry;
use indexmap::IndexMap;
use label_defs::of_mldp::mldp_fec::Fec;
use mv_base::NoMemory;
use std::alloc::Global;
use std::mem;

/// An entry, and how many noted labels name its FEC.
#[derive(Drop)]
pub(crate) struct Slot {
    pub(crate) entry: Entry,
    pub(crate) mapped: usize,
}

/// The slots by FEC.
pub(crate) type Slots = IndexMap<Fec, Slot>;

impl Slot {
    /// The slot in which nothing stands.
    fn of(alloc: Global, fec: &Fec) -> Slot
        ensures { result ≡ fresh fec.now }
    {
        Slot {
            entry: Entry {
                fec: *fec,
                leaf: false,
                branches: Branches::new(alloc),
            },
            mapped: 0,
        }
    }

    /// Whether the node is a leaf of the tree, or has a branch of it.
    pub(crate) fn is_on(&self) -> bool
        ensures { result ≡ (self.now.entry.leaf || not (length (maps.keys self.now.entry.branches) == 0)) }
    {
        self.entry.leaf || !self.entry.branches.is_empty()
    }

    /// Whether nothing needs it.
    fn is_idle(&self) -> bool
        ensures { result ≡ is_idle self.now }
    {
        self.mapped == 0 && !self.entry.leaf && self.entry.branches.is_empty()
    }
}

/// Takes the slot of the FEC, and leaves an idle one in its place. There is one, or room for one.
pub(crate) fn take(slots: &mut Slots, alloc: Global, fec: &Fec) -> Slot
    requires { get is_fec slots.old fec.now ≡ None → 0 < spare slots.old }
    ensures value { result ≡ unwrap_or (get is_fec slots.old fec.now) (fresh fec.now) }
    ensures others { (other : Fec) → is_fec fec.now other ≡ false → get is_fec slots.new other ≡ get is_fec slots.old other }
    ensures there { is_some (get is_fec slots.new fec.now) ≡ true }
    ensures unique { IsUnique is_fec slots.new }
{
    match slots.get_mut(fec) {
        Some(own) => mem::replace(own, Slot::of(alloc, fec)),
        None => {
            slots.insert(*fec, Slot::of(alloc, fec)).unwrap();
            Slot::of(alloc, fec)
        }
    }
}

/// Puts the slot of the FEC back in its place, or drops it where nothing needs it.
pub(crate) fn give_back(slots: &mut Slots, fec: &Fec, slot: Slot)
    requires { is_some (get is_fec slots.old fec.now) ≡ true }
    ensures each { (other : Fec) → get is_fec slots.new other ≡ (if is_fec fec.now other then kept slot else get is_fec slots.old other) }
    ensures unique { IsUnique is_fec slots.new }
{
    if slot.is_idle() {
        slots.swap_remove(fec);
    } else if let Some(own) = slots.get_mut(fec) {
        *own = slot;
    }
}

/// Counts one label more that names the FEC. There is a slot of it, or room for one.
pub(crate) fn count(slots: &mut Slots, alloc: Global, fec: &Fec)
    requires unique { IsUnique is_fec slots.old }
    requires room { get is_fec slots.old fec.now ≡ None → 0 < spare slots.old }
    requires few { (had slots.old fec.now).mapped + 1 < 2 ^ 64 }
    ensures each { (other : Fec) → get is_fec slots.new other ≡
        (if is_fec fec.now other then Some (counted (had slots.old fec.now)) else get is_fec slots.old other) }
    ensures unique { IsUnique is_fec slots.new }
{
    match slots.get_mut(fec) {
        Some(slot) => slot.mapped += 1,
        None => {
            let mut slot = Slot::of(alloc, fec);
            slot.mapped = 1;
            slots.insert(*fec, slot).unwrap();
        }
    }
}

/// The node is a leaf of the tree. There is a slot of it, or room for one.
fn mark(slots: &mut Slots, alloc: Global, fec: &Fec)
    requires unique { IsUnique is_fec slots.old }
    requires room { get is_fec slots.old fec.now ≡ None → 0 < spare slots.old }
    ensures each { (other : Fec) → get is_fec slots.new other ≡
        (if is_fec fec.now other then Some (with_mark (had slots.old fec.now) true) else get is_fec slots.old other) }
    ensures unique { IsUnique is_fec slots.new }
{
    match slots.get_mut(fec) {
        Some(slot) => slot.entry.leaf = true,
        None => {
            let mut slot = Slot::of(alloc, fec);
            slot.entry.leaf = true;
            slots.insert(*fec, slot).unwrap();
        }
    }
}

/// Says whether the node is a leaf of the tree. There is a slot of it, or room for one.
pub(crate) fn set_leaf(slots: &mut Slots, alloc: Global, fec: &Fec, leaf: bool)
    requires unique { IsUnique is_fec slots.old }
    requires room { get is_fec slots.old fec.now ≡ None → 0 < spare slots.old }
    ensures each { (other : Fec) → get is_fec slots.new other ≡
        (if is_fec fec.now other then kept (with_mark (had slots.old fec.now) leaf) else get is_fec slots.old other) }
    ensures unique { IsUnique is_fec slots.new }
{
    if leaf {
        mark(slots, alloc, fec);
    } else {
        let mut slot = take(slots, alloc, fec);
        slot.entry.leaf = false;
        give_back(slots, fec, slot);
    }
}

/// Puts a slot with that branch alone. There is room for it.
fn put(slots: &mut Slots, alloc: Global, fec: &Fec, branch: Branch) -> Result<(), NoMemory>
    requires unique { IsUnique is_fec slots.old }
    requires room { 0 < spare slots.old }
    ensures ok { OnOk result ((other : Fec) → get is_fec slots.new other ≡
        (if is_fec fec.now other then Some (with_hop (fresh fec.now) branch) else get is_fec slots.old other)) }
    ensures err { OnErr result (slots.new.entries ≡ slots.old.entries) }
    ensures unique { IsUnique is_fec slots.new }
{
    let mut slot = Slot::of(alloc, fec);
    slot.entry.branches.insert(branch)?;
    slots.insert(*fec, slot).unwrap();
    Ok(())
}

/// Adds the branch to the tree. One that is there stays as it is. There is a slot of the tree, or room for one.
pub(crate) fn add(
    slots: &mut Slots,
    alloc: Global,
    fec: &Fec,
    branch: Branch,
) -> Result<(), NoMemory>
    requires unique { IsUnique is_fec slots.old }
    requires room { get is_fec slots.old fec.now ≡ None → 0 < spare slots.old }
    ensures ok { OnOk result ((other : Fec) → get is_fec slots.new other ≡
        (if is_fec fec.now other then Some (with_hop (had slots.old fec.now) branch) else get is_fec slots.old other)) }
    ensures err { OnErr result ((other : Fec) → get is_fec slots.new other ≡ get is_fec slots.old other) }
    ensures unique { IsUnique is_fec slots.new }
{
    match slots.get_mut(fec) {
        Some(slot) => slot.entry.branches.insert(branch),
        None => put(slots, alloc, fec, branch),
    }
}

/// The FECs that have a slot.
pub(crate) fn fecs_of(alloc: Global, slots: &Slots) -> Result<Vec<Fec>, NoMemory>
    ensures { IfOk result (λ fecs. fecs.items ≡ keys slots.now) }
{
    Ok(Vec::from_slice(alloc, slots.keys().as_slice())?)
}
