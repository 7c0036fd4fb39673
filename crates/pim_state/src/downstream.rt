//! The entries of an edge's interfaces.
ghost use Rattle.std.specs.Prelude.{◌≡◌, ◌<◌, ◌≤◌, ◌^◌, ◌&&◌, not, true, false, count_by, is_some, Err, IfOk, OnOk, OnErr};
ghost use Rattle.std.specs.List.{list_any};
ghost use Rattle.std.specs.FinMap.{empty, from_entries, len};
ghost use Rattle.indexmap.specs.IndexMap.{IsUnique};
ghost use Rattle.mv_base.specs.declared.ids.IfaceId.{IfaceId};
ghost use Rattle.pim_defs.specs.Expiry.{is_after};
ghost use Rattle.scenario_defs.specs.declared.event.JoinEntry.TheVariants as entries;
ghost use Rattle.pim_defs.specs.Expiry.{counts};
ghost use Rattle.pim_defs.specs.Entries.{applied, are_too_many, asks, due, expiry_at, kept_at};
ghost use Rattle.pim_state.specs.Changes.{changed_by};
ghost use Rattle.pim_state.specs.Plan.{is_at};

use crate::arrival::Arrival;
use crate::changes::{Changes, count_after, count_kept};
use crate::ends::{soonest, soonest_with};
use crate::index::{EntryIndex, key_of, list_all, listed, unlist_ended, unlist_gone};
use indexmap::IndexMap;
use mv_base::{Addr, IfaceId, NoMemory};
use pim_defs::{Expiry, counts};
use pim_joinprune::JoinPrune;
use scenario_defs::{IfaceEntry, JoinEntry};
use std::alloc::{AllocError, Global};
use std::marker::Model;

/// The most entries of an edge.
const ENTRY_LIMIT: usize = 1024;

/// Why a message is not taken.
#[derive(Clone, Copy, Debug, PartialEq, Eq)]
pub enum TakeFault {
    /// There would be more entries than an edge holds.
    Full,
    NoMemory,
}

impl From<NoMemory> for TakeFault {
    ghost use Rattle.std.specs.Prelude.{◌≡◌};
    ghost use Rattle.pim_state.specs.declared.downstream.TakeFault.TheVariants as faults;

    ghost from_gives = { λ fault result. result ≡ faults.NoMemory };

    fn from(_: NoMemory) -> Self {
        TakeFault::NoMemory
    }
}

impl From<AllocError> for TakeFault {
    ghost use Rattle.std.specs.Prelude.{◌≡◌};
    ghost use Rattle.pim_state.specs.declared.downstream.TakeFault.TheVariants as faults;

    ghost from_gives = { λ fault result. result ≡ faults.NoMemory };

    fn from(_: AllocError) -> Self {
        TakeFault::NoMemory
    }
}

/// How many of the expiries are at or before the clock.
fn count_due(expiries: &[Expiry], now: u64) -> u64
    ensures { result ≡ count_by (λ expiry. not (is_after expiry now)) expiries.now }
{
    let ended = expiries.iter().filter(|expiry| !expiry.is_after(now));
    ended.count() as u64
}

/// The joined and pruned entries of an edge's interfaces (RFC 7761 section 4.1), at most 1,024.
#[derive(Drop)]
pub struct Downstream {
    alloc: Global,
    entries: IndexMap<IfaceEntry, Expiry>,
    index: EntryIndex,
    /// No entry ends before.
    next: Expiry,
}

impl Model for Downstream {
    ghost use Rattle.std.specs.Prelude.{length, ◌≤◌};
    ghost use Rattle.std.specs.FinMap.{from_entries};
    ghost use Rattle.indexmap.specs.IndexMap.{IsUnique};
    ghost use Rattle.pim_defs.specs.Entries.{Entries};
    ghost use Rattle.pim_state.specs.Codes.{entries_code};
    ghost use Rattle.pim_state.specs.Ends.{IsBound};
    ghost use Rattle.pim_state.specs.Index.{IsExact};
    ghost use Rattle.pim_state.specs.Plan.{is_at};

    ghost Value = { Entries };

    ghost coded = { entries_code };

    ghost view = { λ d. from_entries d.entries.entries };

    ghost invariant = { λ d. IsUnique is_at d.entries × (length d.entries.entries ≤ 1024) × IsExact d.entries d.index
        × IsBound d.next (from_entries d.entries.entries) };
}

impl Downstream {
    /// No entry. It takes no memory.
    pub fn of(alloc: Global) -> Downstream
        ensures { result ≡ empty }
    {
        Downstream {
            alloc,
            entries: IndexMap::new(alloc),
            index: IndexMap::new(alloc),
            next: Expiry::Never,
        }
    }

    /// What stands after a message that the interface takes at the clock. Where that would be more entries than an edge
    /// holds, or there is no memory, nothing changes.
    pub fn take(&mut self, iface: IfaceId, message: &JoinPrune, now: u64) -> Result<(), TakeFault>
        requires { now < 2 ^ 63 }
        ensures taken { OnOk result (self.new ≡ applied self.old iface message.now now) }
        ensures fits { OnOk result (are_too_many (applied self.old iface message.now now) ≡ false) }
        ensures full { result ≡ Err TakeFault.Full → are_too_many (applied self.old iface message.now now) ≡ true }
        ensures unchanged { OnErr result (self.new ≡ self.old) }
    {
        let changes = self.changes(self.alloc, iface, message, now)?;
        if count_after(&self.entries, &changes) > ENTRY_LIMIT {
            return Err(TakeFault::Full);
        }
        self.entries.reserve(count_kept(&changes))?;
        list_all(&mut self.index, self.alloc, &self.entries, &changes)?;
        for (at, expiry) in changes.iter() {
            match expiry {
                Some(expiry) => {
                    self.entries.insert(*at, *expiry).unwrap();
                }
                None => {
                    self.entries.swap_remove(at);
                }
            }
        }
        unlist_gone(&mut self.index, &self.entries, &changes);
        self.next = soonest_with(self.next, &changes);
        Ok(())
    }

    /// What the message changes, where the interface takes it at the clock.
    fn changes(
        &self,
        alloc: Global,
        iface: IfaceId,
        message: &JoinPrune,
        now: u64,
    ) -> Result<Changes, NoMemory>
        requires { now < 2 ^ 63 }
        ensures { IfOk result (λ changes. changed_by self.now changes.entries ≡ applied self.now iface message.now now) }
    {
        let arrival = Arrival::of(alloc, iface, message, now)?;
        arrival.changes(alloc, &self.entries, &self.index)
    }

    /// How many entries would stand after the message.
    pub fn entries_after(
        &self,
        alloc: Global,
        iface: IfaceId,
        message: &JoinPrune,
        now: u64,
    ) -> Result<u32, NoMemory>
        requires { now < 2 ^ 63 }
        ensures { IfOk result (λ count. count ≡ len (applied self.now iface message.now now)) }
    {
        let changes = self.changes(alloc, iface, message, now)?;
        u32::try_from(count_after(&self.entries, &changes)).map_err(|_| NoMemory)
    }

    /// Whether it is known, without a look at the entries, that none of them has ended at the clock.
    pub fn none_ends(&self, now: u64) -> bool
        ensures { result ≡ true → kept_at self.now now ≡ self.now }
    {
        self.next.is_after(now)
    }

    /// Removes the entries that have ended at the clock. It takes no memory.
    pub fn timers(&mut self, now: u64)
        ensures kept { self.new ≡ kept_at self.old now }
        ensures fewer { len self.new ≤ len self.old }
    {
        unlist_ended(&mut self.index, &self.entries, now);
        self.entries.retain(
            |_at: &IfaceEntry, expiry: &mut Expiry| -> bool
                ensures { (result ≡ is_after expiry.old now) × (expiry.new ≡ expiry.old) }
            { expiry.is_after(now) },
        );
        self.next = soonest(self.entries.values().as_slice());
    }

    /// Whether the interface asks for (S,G) at the clock, where S is known to send to G or not.
    pub fn asks(&self, iface: IfaceId, source: Addr, group: Addr, active: bool, now: u64) -> bool
        ensures { result ≡ asks self.now iface source group active now }
    {
        let joined = self.expiry_at(iface, JoinEntry::Source { source, group });
        counts(now, joined) || (active && self.asks_shared(iface, source, group, now))
    }

    /// Whether the interface has joined the shared tree of the group and has not pruned the source off it.
    fn asks_shared(&self, iface: IfaceId, source: Addr, group: Addr, now: u64) -> bool
        ensures { result ≡ (counts now (expiry_at self.now iface (entries.Star group))
            && not (counts now (expiry_at self.now iface (entries.Rpt source group)))) }
    {
        counts(now, self.expiry_at(iface, JoinEntry::Star { group }))
            && !counts(now, self.expiry_at(iface, JoinEntry::Rpt { source, group }))
    }

    /// How many entries end at or before the clock.
    pub fn due(&self, now: u64) -> u64
        ensures { result ≡ due self.now now }
    {
        count_due(self.entries.values().as_slice(), now)
    }

    /// The number of entries.
    pub fn len(&self) -> usize
        ensures { result ≡ len self.now }
    {
        self.entries.len()
    }

    /// The same. It takes no memory.
    pub fn entries(&self) -> u32
        ensures count { result ≡ len self.now }
        ensures few { result ≤ 1024 }
    {
        self.entries.len() as u32
    }

    /// The expiry of each entry, in no order that means anything.
    pub fn expiries(&self) -> &IndexMap<IfaceEntry, Expiry>
        ensures entries { from_entries result.now.entries ≡ self.now }
        ensures unique { IsUnique is_at result.now }
    {
        &self.entries
    }

    /// Entries among which those are, at any interface, that are equal to this one. All of them are there.
    pub fn listed(&self, entry: &JoinEntry) -> &[IfaceEntry]
        ensures { (iface : IfaceId) →
            list_any (is_at (record { iface = iface; entry = entry.now })) result.now ≡ is_some (expiry_at self.now iface entry.now) }
    {
        listed(&self.index, key_of(entry))
    }

    /// Whether the entry of the interface is there.
    pub fn has(&self, iface: IfaceId, entry: JoinEntry) -> bool
        ensures { result ≡ is_some (expiry_at self.now iface entry) }
    {
        self.expiry_at(iface, entry).is_some()
    }

    /// The expiry of an entry of the interface, where it is there.
    fn expiry_at(&self, iface: IfaceId, entry: JoinEntry) -> Option<Expiry>
        ensures { result ≡ expiry_at self.now iface entry }
    {
        self.entries.get(&IfaceEntry { iface, entry }).copied()
    }
}
