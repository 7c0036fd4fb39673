//! The index of entries: which of them are listed by what they are looked for by.
ghost use Rattle.std.specs.Prelude.{◌≡◌, ◌||◌, ◌&&◌, not, true, false, [], ◌∷◌, is_some, OnOk, OnErr};
ghost use Rattle.std.specs.Bool.{OnTrue};
ghost use Rattle.indexmap.specs.IndexMap.{get, keys, IsUnique};
ghost use Rattle.scenario_defs.specs.declared.event.IfaceEntry.{IfaceEntry};
ghost use Rattle.pim_state.specs.Plan.{is_at};
ghost use Rattle.pim_state.specs.Index.{is_key, key_of, listed, is_listed, is_kept, is_left, lists_again, IsExact, IsExactAfter};

use crate::changes::Changes;
use crate::entry_set::EntrySet;
use indexmap::IndexMap;
use mv_base::{Addr, NoMemory};
use pim_defs::Expiry;
use scenario_defs::{IfaceEntry, JoinEntry};
use std::alloc::Global;

/// What entries are looked for by.
#[derive(Clone, Copy, PartialEq, Eq, Hash)]
pub(crate) enum IndexKey {
    /// The joins (*,G) of the group.
    Shared { group: Addr },
    /// The joins (S,G).
    Flow { source: Addr, group: Addr },
    /// The prunes (S,G,rpt) of the group.
    Pruned { group: Addr },
}

/// What the entry is looked for by.
pub(crate) fn key_of(entry: &JoinEntry) -> IndexKey
    ensures { result ≡ key_of entry.now }
{
    match entry {
        JoinEntry::Star { group } => IndexKey::Shared { group: *group },
        JoinEntry::Source { source, group } => IndexKey::Flow {
            source: *source,
            group: *group,
        },
        JoinEntry::Rpt { source: _, group } => IndexKey::Pruned { group: *group },
    }
}

/// The entries by what they are looked for by. Each entry that is there is listed, and no other one.
pub(crate) type EntryIndex = IndexMap<IndexKey, EntrySet>;

/// The entries that are listed by the key.
pub(crate) fn listed(index: &EntryIndex, key: IndexKey) -> &[IfaceEntry]
    ensures { result.now ≡ listed index.now key }
{
    match index.get(&key) {
        Some(own) => own.as_slice(),
        None => &[],
    }
}

/// Lists the entry as the first one of its key.
fn list_first(index: &mut EntryIndex, alloc: Global, at: IfaceEntry) -> Result<(), NoMemory>
    requires { is_some (get is_key index.old (key_of at.entry)) ≡ false }
    ensures each { (other : IfaceEntry) → OnOk result (is_listed index.new other ≡ (is_listed index.old other || is_at at other)) }
    ensures same { (other : IfaceEntry) → OnErr result (is_listed index.new other ≡ is_listed index.old other) }
{
    let mut own = EntrySet::new(alloc);
    own.put(at)?;
    index.insert(key_of(&at.entry), own)?;
    Ok(())
}

/// Lists the entry beside those of its key, where there are any.
fn list_more(index: &mut EntryIndex, at: IfaceEntry) -> Result<(), NoMemory>
    requires { is_some (get is_key index.old (key_of at.entry)) ≡ true }
    ensures each { (other : IfaceEntry) → OnOk result (is_listed index.new other ≡ (is_listed index.old other || is_at at other)) }
    ensures same { (other : IfaceEntry) → OnErr result (is_listed index.new other ≡ is_listed index.old other) }
{
    match index.get_mut(&key_of(&at.entry)) {
        None => Ok(()),
        Some(own) => own.put(at),
    }
}

/// Lists the entry.
fn list(index: &mut EntryIndex, alloc: Global, at: IfaceEntry) -> Result<(), NoMemory>
    ensures each { (other : IfaceEntry) → OnOk result (is_listed index.new other ≡ (is_listed index.old other || is_at at other)) }
    ensures same { (other : IfaceEntry) → OnErr result (is_listed index.new other ≡ is_listed index.old other) }
{
    if index.contains_key(&key_of(&at.entry)) {
        list_more(index, at)
    } else {
        list_first(index, alloc, at)
    }
}

/// Lists the entry, where it has an expiry then.
fn list_kept(
    index: &mut EntryIndex,
    alloc: Global,
    at: IfaceEntry,
    expiry: Option<Expiry>,
) -> Result<(), NoMemory>
    ensures each { (other : IfaceEntry) →
        OnOk result (is_listed index.new other ≡ (is_listed index.old other || (is_some expiry && is_at at other))) }
    ensures same { (other : IfaceEntry) → OnErr result (is_listed index.new other ≡ is_listed index.old other) }
{
    match expiry {
        Some(_) => list(index, alloc, at),
        None => Ok(()),
    }
}

/// Lists the changed entries that are there then. Where memory runs out, some of the changed ones may be listed too.
fn list_each(index: &mut EntryIndex, alloc: Global, changes: &Changes) -> Result<(), NoMemory>
    ensures each { (at : IfaceEntry) → OnOk result (is_listed index.new at ≡ (is_listed index.old at || is_kept changes.now.entries at)) }
    ensures some { (at : IfaceEntry) → lists_again changes.now.entries (is_listed index.old at) (is_listed index.new at) at ≡ true }
{
    for (at, expiry) in changes.iter() {
        list_kept(index, alloc, *at, *expiry)?;
    }
    Ok(())
}

/// Lists the changed entries that are there then, or none of them where memory runs out.
pub(crate) fn list_all(
    index: &mut EntryIndex,
    alloc: Global,
    entries: &IndexMap<IfaceEntry, Expiry>,
    changes: &Changes,
) -> Result<(), NoMemory>
    requires { IsExact entries.now index.old }
    ensures each { (at : IfaceEntry) → OnOk result (is_listed index.new at ≡ (is_listed index.old at || is_kept changes.now.entries at)) }
    ensures same { (at : IfaceEntry) → OnErr result (is_listed index.new at ≡ is_listed index.old at) }
{
    match list_each(index, alloc, changes) {
        Ok(()) => Ok(()),
        Err(fault) => {
            unlist_gone(index, entries, changes);
            Err(fault)
        }
    }
}

/// Takes the entry out of those of its key, and answers whether none of them is left.
fn take_off(index: &mut EntryIndex, at: &IfaceEntry) -> bool
    ensures each { (other : IfaceEntry) → is_listed index.new other ≡ (is_listed index.old other && not (is_at at.now other)) }
    ensures none { OnTrue result (listed index.new (key_of at.now.entry) ≡ []) }
{
    match index.get_mut(&key_of(&at.entry)) {
        None => false,
        Some(own) => own.take_out(at),
    }
}

/// Lists the entry no longer. A key without an entry goes.
fn unlist(index: &mut EntryIndex, at: &IfaceEntry)
    ensures { (other : IfaceEntry) → is_listed index.new other ≡ (is_listed index.old other && not (is_at at.now other)) }
{
    if take_off(index, at) {
        index.swap_remove(&key_of(&at.entry));
    }
}

/// Lists the entry no longer, where it is not there.
fn unlist_absent(index: &mut EntryIndex, entries: &IndexMap<IfaceEntry, Expiry>, at: &IfaceEntry)
    ensures { (other : IfaceEntry) → is_listed index.new other
        ≡ (is_listed index.old other && is_left entries.now (at.now ∷ []) other) }
{
    if !entries.contains_key(at) {
        unlist(index, at);
    }
}

/// Lists those of the changed entries no longer that are not there.
pub(crate) fn unlist_gone(
    index: &mut EntryIndex,
    entries: &IndexMap<IfaceEntry, Expiry>,
    changes: &Changes,
)
    ensures { (at : IfaceEntry) → is_listed index.new at ≡ (is_listed index.old at && is_left entries.now (keys changes.now) at) }
{
    let changed = changes.keys().as_slice();
    for at in changed {
        unlist_absent(index, entries, at);
    }
}

/// Lists the entries no longer that have ended at the clock.
pub(crate) fn unlist_ended(index: &mut EntryIndex, entries: &IndexMap<IfaceEntry, Expiry>, now: u64)
    requires unique { IsUnique is_at entries.now }
    requires exact { IsExact entries.now index.old }
    ensures { IsExactAfter now entries.now index.new }
{
    for (at, expiry) in entries.iter() {
        if !expiry.is_after(now) {
            unlist(index, at);
        }
    }
}
