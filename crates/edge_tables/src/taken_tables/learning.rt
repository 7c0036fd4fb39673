//! What a table takes of the routes that its peer announces.
ghost use Rattle.std.specs.Prelude.{◌≡◌, false, is_some, not, true, IfOk, OnErr};
ghost use Rattle.std.specs.FinMap as maps;
ghost use Rattle.bgp_messages.specs.bgp_update.Written.{HasOctets};
ghost use Rattle.edge_defs.specs.Steps.{taken_change};
ghost use Rattle.edge_tables.specs.taken_tables.Routes.{handed};
ghost use Rattle.edge_tables.specs.taken_tables.Slots.{taken_in};
ghost use Rattle.edge_tables.specs.taken_tables.Tables.{IsSpelledKey, reach};

use crate::taken_tables::entry::{RouteValue, TakenEntry};
use crate::taken_tables::table::TakenTable;
use bgp_messages::bgp_attributes::Key;
use edge_routes::route_order::{TakenKey, are_octets};
use mv_base::NoMemory;

/// Shows that the prefix of a unicast route is octets.
fn has_octets(key: &Key)
    ensures { HasOctets key.now }
{
    match key {
        Key::Unicast { rd: _, prefix } => are_octets(prefix.addr.octets()),
        Key::Mcast(_, _) => {}
    }
}

/// Shows that the key has a spelling, and is of octets.
fn spelled(key: &TakenKey)
    ensures { IsSpelledKey key.now }
{
    has_octets(key.key());
}

/// Takes the route at the clock, where the table has none of its key, and answers whether that is so.
pub(crate) fn enter(
    table: &mut TakenTable,
    key: &TakenKey,
    value: &RouteValue,
    now: u64,
) -> Result<bool, NoMemory>
    ensures fresh { IfOk result (λ fresh. fresh ≡ not (is_some (maps.get (taken_in table.old) key.now))) }
    ensures entered { IfOk result (λ fresh. fresh ≡ true →
        taken_in table.new ≡ taken_change now (taken_in table.old) (reach key.now (handed value.now))) }
    ensures stays { IfOk result (λ fresh. fresh ≡ false → table.new ≡ table.old) }
    ensures spelled { IsSpelledKey key.now }
    ensures unchanged { OnErr result (table.new ≡ table.old) }
{
    spelled(key);
    table.enter(key.kept(), TakenEntry::of(value.share()?, now))
}
