//! What a message changes, each entry once.
ghost use Rattle.std.specs.Prelude.{◌≡◌, ◌<◌, ◌^◌, is_some, count_by};
ghost use Rattle.std.specs.FinMap.{from_entries, len};
ghost use Rattle.indexmap.specs.IndexMap.{get, keys, values, IsUnique};
ghost use Rattle.pim_state.specs.Changes.{changed_by};
ghost use Rattle.pim_state.specs.Plan.{is_at};

use indexmap::IndexMap;
use pim_defs::Expiry;
use scenario_defs::IfaceEntry;

/// Entries that may change, each with its expiry then, where it is there then.
pub(crate) type Changes = IndexMap<IfaceEntry, Option<Expiry>>;

/// How many of the changed entries are there then.
pub(crate) fn count_kept(changes: &Changes) -> usize
    ensures count { result ≡ count_by is_some (values changes.now) }
    ensures bound { result < 2 ^ 63 }
{
    let expiries = changes.values().as_slice();
    expiries.iter().filter(|expiry| expiry.is_some()).count()
}

/// How many of the changed entries are there now.
fn count_present(entries: &IndexMap<IfaceEntry, Expiry>, changes: &Changes) -> usize
    ensures count { result ≡ count_by (λ at. is_some (get is_at entries.now at)) (keys changes.now) }
    ensures unique { IsUnique is_at changes.now }
{
    let changed = changes.keys().as_slice();
    changed
        .iter()
        .filter(|at| entries.contains_key(*at))
        .count()
}

/// How many entries there are after the changes.
pub(crate) fn count_after(entries: &IndexMap<IfaceEntry, Expiry>, changes: &Changes) -> usize
    ensures { result ≡ len (changed_by (from_entries entries.now.entries) changes.now.entries) }
{
    entries.len() + count_kept(changes) - count_present(entries, changes)
}
