//! The delays of the routes of one peer.
ghost use Rattle.std.specs.Prelude.{◌≡◌, ◌+◌, ◌&&◌, None, true, nat_le, is_some};
ghost use Rattle.std.specs.List.{fold};
ghost use Rattle.std.specs.FinMap as maps;
ghost use Rattle.edge_defs.specs.Imported.{imported_selective};
ghost use Rattle.edge_tables.specs.taken_tables.Running.{awaits, earliest_with, imports, is_any_over, is_delayed, run_at, table_run};
ghost use Rattle.edge_tables.specs.taken_tables.Slots.{taken_in};

use crate::rib_sync::Inbox;
use crate::taken_tables::entry::TakenEntry;
use bgp_messages::bgp_attributes::Key;
use edge_routes::route_order::{KeptKey, RouteType};
use edge_routes::{LocalVrf, imported_selective};
use mv_base::Addr;

/// The routes that were taken from a peer.
pub(crate) type TakenRoutes = Inbox<KeptKey, TakenEntry>;

/// Whether the VRF imports the selective route from the peer of that address.
fn is_importer(own: &LocalVrf, peer: Addr, key: &Key, entry: &TakenEntry) -> bool
    ensures { result ≡ is_some (imported_selective own.now.vrf peer (key.now, entry.now)) }
{
    imported_selective(own.vrf(), peer, key, &entry.value()).is_some()
}

/// Whether one of the VRFs does.
fn imports(vrfs: &[LocalVrf], peer: Addr, key: &KeptKey, entry: &TakenEntry) -> bool
    ensures { result ≡ imports vrfs.now peer (key.now, entry.now) }
{
    let key = key.key();
    vrfs.iter().any(|own| is_importer(own, peer, &key, entry))
}

/// Whether a delay from that moment on is over at the clock.
fn is_over(since: u64, delay: u64, now: u64) -> bool
    ensures { result ≡ nat_le (since + delay) now }
{
    since <= now && now - since >= delay
}

/// Whether a route of the key may have a delay: an S-PMSI A-D route alone.
fn is_delayed(key: &KeptKey) -> bool
    ensures { result ≡ is_delayed key.now }
{
    key.show_spelled();
    key.is_of_type(RouteType::Selective)
}

/// Whether the delay of the route may still be run.
fn awaits(key: &KeptKey, entry: &TakenEntry) -> bool
    ensures { result ≡ awaits key.now entry.now }
{
    is_delayed(key) && !entry.was_run()
}

/// The earliest clock at which a route was learned whose delay may still be run, with this route among the others.
pub(crate) fn earliest_with(earliest: Option<u64>, key: &KeptKey, entry: &TakenEntry) -> Option<u64>
    ensures { result ≡ earliest_with earliest (key.now, entry.now) }
{
    if !awaits(key, entry) {
        return earliest;
    }
    match earliest {
        None => Some(entry.since()),
        Some(first) => Some(first.min(entry.since())),
    }
}

/// That clock, of all these routes.
pub(crate) fn earliest_of(routes: &TakenRoutes) -> Option<u64>
    ensures { result ≡ fold earliest_with None (maps.entries (taken_in routes.now)) }
{
    let mut earliest = None;
    for (key, entry) in routes.iter() {
        earliest = earliest_with(earliest, key, entry);
    }
    earliest
}

/// Whether the delay may be over of a route that was learned then or later.
pub(crate) fn is_any_over(earliest: Option<u64>, delay: u64, now: u64) -> bool
    ensures { result ≡ is_any_over earliest delay now }
{
    match earliest {
        None => false,
        Some(since) => is_over(since, delay, now),
    }
}

/// Whether the delay of the route is due, and one of the VRFs imports it. Most routes are none that have a delay, so that is asked
/// first.
fn is_due(
    entry: &TakenEntry,
    key: &KeptKey,
    vrfs: &[LocalVrf],
    peer: Addr,
    delay: u64,
    now: u64,
) -> bool
    ensures { result ≡ ((awaits key.now entry.now && nat_le (entry.now.since + delay) now)
        && imports vrfs.now peer (key.now, entry.now)) }
{
    awaits(key, entry) && is_over(entry.since(), delay, now) && imports(vrfs, peer, key, entry)
}

/// Runs the delay of a route that one of the VRFs imports, where it is due.
fn run_entry(
    entry: &mut TakenEntry,
    key: &KeptKey,
    vrfs: &[LocalVrf],
    peer: Addr,
    delay: u64,
    now: u64,
)
    ensures { entry.new ≡ run_at vrfs.now delay now peer key.now entry.old }
{
    let due = is_due(entry, key, vrfs, peer, delay, now);
    entry.run_where(due);
}

/// Runs the delays of the routes that were taken from a peer of that address.
pub(crate) fn run_routes(
    routes: &mut TakenRoutes,
    vrfs: &[LocalVrf],
    peer: Addr,
    delay: u64,
    now: u64,
)
    ensures { taken_in routes.new ≡ table_run vrfs.now delay now peer (taken_in routes.old) }
{
    routes.retain(
        |key: &KeptKey, entry: &mut TakenEntry| -> bool
            ensures { (result ≡ true) × (entry.new ≡ run_at vrfs.entry.now delay now peer key.now entry.old) }
        {
            run_entry(entry, key, vrfs, peer, delay, now);
            true
        },
    );
}
