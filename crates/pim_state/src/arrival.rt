//! A message that an interface takes.
ghost use Rattle.std.specs.Prelude.{◌≡◌, ◌<◌, ◌^◌, ◌||◌, [], ◌∷◌, IfOk, OnOk};
ghost use Rattle.std.specs.List.{list_any};
ghost use Rattle.std.specs.FinMap.{from_entries};
ghost use Rattle.indexmap.specs.IndexMap.{get, IsUnique};
ghost use Rattle.scenario_defs.specs.declared.event.JoinEntry.{JoinEntry};
ghost use Rattle.pim_joinprune.specs.declared.message.JoinPrune.{JoinPrune};
ghost use Rattle.scenario_defs.specs.declared.event.IfaceEntry.{IfaceEntry};
ghost use Rattle.pim_defs.specs.Mention.{lists};
ghost use Rattle.pim_defs.specs.Entries.{applied};
ghost use Rattle.pim_state.specs.Changes.{changed_by};
ghost use Rattle.pim_state.specs.Index.{pruned_by, ends_of, IsExact};
ghost use Rattle.pim_state.specs.Plan.{is_among, is_at, is_entry, is_named, may_end, ends, ends_among, mention_in, then_of, told_at, Tells};

use crate::changes::Changes;
use crate::index::{EntryIndex, IndexKey, listed};
use indexmap::{IndexMap, IndexSet};
use mv_base::{Addr, IfaceId, NoMemory};
use pim_defs::{Expiry, Mention, entry_of, expiry_after, group_of};
use pim_joinprune::{Group, JoinPrune, JpSource};
use scenario_defs::{IfaceEntry, JoinEntry};
use std::alloc::Global;

/// So many entries are compared one by one in less time than one is hashed.
const FEW: usize = 4;

/// Whether both are one entry.
fn is_same(own: &JoinEntry, other: &JoinEntry) -> bool
    ensures { result ≡ is_entry own.now other.now }
{
    own == other
}

/// Whether the entry is one of these.
fn is_one_of(entries: &[JoinEntry], entry: &JoinEntry) -> bool
    ensures { result ≡ is_among entries.now entry.now }
{
    entries.iter().any(|other| is_same(entry, other))
}

/// Whether the entry is in the set. Most messages name one entry or two, and these are not hashed.
fn has(entries: &IndexSet<JoinEntry>, entry: &JoinEntry) -> bool
    ensures { result ≡ is_among entries.now.keys entry.now }
{
    if entries.len() > FEW {
        return entries.contains(entry);
    }
    is_one_of(entries.as_slice(), entry)
}

/// Adds the entries that the sources of a group name.
fn add_named(
    entries: &mut IndexSet<JoinEntry>,
    group: Addr,
    sources: &[JpSource],
) -> Result<(), NoMemory>
    ensures { (entry : JoinEntry) →
        OnOk result (is_among entries.new.keys entry ≡ (is_among entries.old.keys entry || lists group sources.now entry)) }
{
    for source in sources {
        entries.insert(entry_of(group, source))?;
    }
    Ok(())
}

/// The entries that the groups join.
fn joined(alloc: Global, groups: &[Group]) -> Result<IndexSet<JoinEntry>, NoMemory>
    ensures { (entry : JoinEntry) →
        IfOk result (λ entries. is_among entries.keys entry ≡ list_any (λ group. lists group.group group.joins entry) groups.now) }
{
    let mut entries = IndexSet::new(alloc);
    for group in groups {
        add_named(&mut entries, group.group, group.joins.as_slice())?;
    }
    Ok(entries)
}

/// The entries that the groups prune.
fn pruned(alloc: Global, groups: &[Group]) -> Result<IndexSet<JoinEntry>, NoMemory>
    ensures { (entry : JoinEntry) →
        IfOk result (λ entries. is_among entries.keys entry ≡ list_any (λ group. lists group.group group.prunes entry) groups.now) }
{
    let mut entries = IndexSet::new(alloc);
    for group in groups {
        add_named(&mut entries, group.group, group.prunes.as_slice())?;
    }
    Ok(entries)
}

/// The entries that are listed as prunes (S,G,rpt) of the group, where the entry is its (*,G).
fn pruned_by<'a>(index: &'a EntryIndex, entry: &JoinEntry) -> &'a [IfaceEntry]
    ensures { result.now ≡ pruned_by index.now entry.now }
{
    match entry {
        JoinEntry::Star { group } => listed(index, IndexKey::Pruned { group: *group }),
        _ => &[],
    }
}

/// A message that an interface takes at the clock: which entries it joins and prunes.
#[derive(Drop)]
pub(crate) struct Arrival {
    iface: IfaceId,
    clock: u64,
    holdtime: u16,
    joins: IndexSet<JoinEntry>,
    prunes: IndexSet<JoinEntry>,
}

impl Arrival {
    pub(crate) fn of(
        alloc: Global,
        iface: IfaceId,
        message: &JoinPrune,
        clock: u64,
    ) -> Result<Arrival, NoMemory>
        ensures { IfOk result (λ arrival. (arrival.iface ≡ iface) × (arrival.clock ≡ clock) × Tells arrival message.now) }
    {
        let groups = message.groups.as_slice();
        let joins = joined(alloc, groups)?;
        let prunes = pruned(alloc, groups)?;
        Ok(Arrival {
            iface,
            clock,
            holdtime: message.holdtime,
            joins,
            prunes,
        })
    }

    /// What the message says of the entry.
    fn mention_of(&self, entry: &JoinEntry) -> Mention
        ensures { result ≡ mention_in self.now.joins.keys self.now.prunes.keys entry.now }
    {
        let shared = JoinEntry::Star {
            group: group_of(entry),
        };
        Mention {
            joined: has(&self.joins, entry),
            pruned: has(&self.prunes, entry),
            shared: has(&self.joins, &shared),
        }
    }

    /// The expiry of the entry after the message.
    fn expiry_then(&self, entry: &JoinEntry, old: Option<Expiry>) -> Option<Expiry>
        requires { self.now.clock < 2 ^ 63 }
        ensures { result ≡ then_of self.now entry.now old }
    {
        expiry_after(
            entry,
            self.mention_of(entry),
            self.clock,
            self.holdtime,
            old,
        )
    }

    /// Plans what becomes of an entry of the interface.
    fn plan(
        &self,
        entries: &IndexMap<IfaceEntry, Expiry>,
        entry: JoinEntry,
        changes: &mut Changes,
    ) -> Result<(), NoMemory>
        requires clock { self.now.clock < 2 ^ 63 }
        requires unique { IsUnique is_at changes.old }
        ensures each { (at : IfaceEntry) →
            OnOk result (get is_at changes.new at
            ≡ told_at self.now entries.now (is_named self.now (entry ∷ []) at) (get is_at changes.old at) at) }
        ensures unique { IsUnique is_at changes.new }
    {
        let at = IfaceEntry {
            iface: self.iface,
            entry,
        };
        let old = entries.get(&at).copied();
        changes.insert(at, self.expiry_then(&entry, old))?;
        Ok(())
    }

    /// Plans what becomes of entries that the message names.
    fn plan_named(
        &self,
        entries: &IndexMap<IfaceEntry, Expiry>,
        named: &[JoinEntry],
        changes: &mut Changes,
    ) -> Result<(), NoMemory>
        requires clock { self.now.clock < 2 ^ 63 }
        requires unique { IsUnique is_at changes.old }
        ensures each { (at : IfaceEntry) →
            OnOk result (get is_at changes.new at
            ≡ told_at self.now entries.now (is_named self.now named.now at) (get is_at changes.old at) at) }
        ensures unique { IsUnique is_at changes.new }
    {
        for entry in named {
            self.plan(entries, *entry, changes)?;
        }
        Ok(())
    }

    /// Whether the entry is an (S,G,rpt) prune of the interface whose group the message joins by (*,G).
    fn may_end(&self, at: &IfaceEntry) -> bool
        ensures { result ≡ may_end self.now at.now }
    {
        match at.entry {
            JoinEntry::Rpt { source: _, group } => {
                at.iface == self.iface && has(&self.joins, &JoinEntry::Star { group })
            }
            _ => false,
        }
    }

    /// Whether the message may end the entry, which is there.
    fn ends(&self, entries: &IndexMap<IfaceEntry, Expiry>, at: &IfaceEntry) -> bool
        ensures { result ≡ ends self.now entries.now at.now }
    {
        self.may_end(at) && entries.contains_key(at)
    }

    /// Plans what becomes of an entry that the message may end without naming it.
    fn plan_ended(
        &self,
        entries: &IndexMap<IfaceEntry, Expiry>,
        at: &IfaceEntry,
        changes: &mut Changes,
    ) -> Result<(), NoMemory>
        requires clock { self.now.clock < 2 ^ 63 }
        requires unique { IsUnique is_at changes.old }
        ensures each { (other : IfaceEntry) → OnOk result (get is_at changes.new other
            ≡ told_at self.now entries.now (ends_among self.now entries.now (at.now ∷ []) other) (get is_at changes.old other) other) }
        ensures unique { IsUnique is_at changes.new }
    {
        if self.ends(entries, at) {
            self.plan(entries, at.entry, changes)
        } else {
            Ok(())
        }
    }

    /// Plans what becomes of those of the entries that the message may end without naming them.
    fn plan_listed(
        &self,
        entries: &IndexMap<IfaceEntry, Expiry>,
        listed: &[IfaceEntry],
        changes: &mut Changes,
    ) -> Result<(), NoMemory>
        requires clock { self.now.clock < 2 ^ 63 }
        requires unique { IsUnique is_at changes.old }
        ensures each { (at : IfaceEntry) → OnOk result (get is_at changes.new at
            ≡ told_at self.now entries.now (ends_among self.now entries.now listed.now at) (get is_at changes.old at) at) }
        ensures unique { IsUnique is_at changes.new }
    {
        for at in listed {
            self.plan_ended(entries, at, changes)?;
        }
        Ok(())
    }

    /// Plans what becomes of the entries that the message may end without naming them: where it joins the shared tree of a
    /// group, its prunes (S,G,rpt) are looked at, and no other entries.
    fn plan_all_ended(
        &self,
        entries: &IndexMap<IfaceEntry, Expiry>,
        index: &EntryIndex,
        changes: &mut Changes,
    ) -> Result<(), NoMemory>
        requires clock { self.now.clock < 2 ^ 63 }
        requires unique { IsUnique is_at changes.old }
        ensures each { (at : IfaceEntry) → OnOk result (get is_at changes.new at
            ≡ told_at self.now entries.now (ends_of self.now entries.now index.now self.now.joins.keys at) (get is_at changes.old at) at) }
        ensures unique { IsUnique is_at changes.new }
    {
        let joined = self.joins.as_slice();
        for entry in joined {
            self.plan_listed(entries, pruned_by(index, entry), changes)?;
        }
        Ok(())
    }

    /// What the message changes, each entry that it may change once.
    pub(crate) fn changes(
        &self,
        alloc: Global,
        entries: &IndexMap<IfaceEntry, Expiry>,
        index: &EntryIndex,
    ) -> Result<Changes, NoMemory>
        requires clock { self.now.clock < 2 ^ 63 }
        requires exact { IsExact entries.now index.now }
        ensures { (message : JoinPrune) → Tells self.now message →
            IfOk result (λ changes. changed_by (from_entries entries.now.entries) changes.entries
            ≡ applied (from_entries entries.now.entries) self.now.iface message self.now.clock) }
    {
        let mut changes = IndexMap::new(alloc);
        self.plan_named(entries, self.joins.as_slice(), &mut changes)?;
        self.plan_named(entries, self.prunes.as_slice(), &mut changes)?;
        self.plan_all_ended(entries, index, &mut changes)?;
        Ok(changes)
    }
}
