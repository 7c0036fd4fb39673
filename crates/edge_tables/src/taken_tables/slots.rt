//! The table of one peer among all.
ghost use Rattle.std.specs.Prelude.{◌≡◌, ℕ, false, is_some, not, true, IfOk, OnErr};
ghost use Rattle.bgp_messages.specs.declared.bgp_attributes.update.Change.TheVariants.{Unreach};
ghost use Rattle.edge_defs.specs.Steps.{taken_change};
ghost use Rattle.edge_tables.specs.taken_tables.Routes.{handed};
ghost use Rattle.edge_tables.specs.taken_tables.Slots.{tables_of};
ghost use Rattle.edge_tables.specs.taken_tables.Tables.{AreSpelled, changed_at, reach, route_at};

use crate::taken_tables::entry::RouteValue;
use crate::taken_tables::learning::enter;
use crate::taken_tables::table::TakenTable;
use edge_routes::route_order::TakenKey;
use mv_base::{NoMemory, NodeId};
use std::collections::BTreeMap;

/// The table of each peer.
pub(crate) type Slots = BTreeMap<u16, TakenTable>;

/// Takes the route from the peer at the clock, where it has a table and none of the key in it. It answers whether there was no route
/// of the key.
pub(crate) fn enter_from(
    slots: &mut Slots,
    peer: NodeId,
    key: &TakenKey,
    value: &RouteValue,
    now: u64,
) -> Result<bool, NoMemory>
    ensures fresh { IfOk result (λ fresh. fresh ≡ not (is_some (route_at (tables_of slots.old.entries) peer key.now))) }
    ensures entered { IfOk result (λ fresh. fresh ≡ true → tables_of slots.new.entries
        ≡ changed_at peer (λ taken. taken_change now taken (reach key.now (handed value.now))) (tables_of slots.old.entries)) }
    ensures stays { IfOk result (λ fresh. fresh ≡ false → tables_of slots.new.entries ≡ tables_of slots.old.entries) }
    ensures unchanged { OnErr result (tables_of slots.new.entries ≡ tables_of slots.old.entries) }
    ensures spelled { AreSpelled (tables_of slots.old.entries) → AreSpelled (tables_of slots.new.entries) }
{
    match slots.get_mut(&peer.0) {
        None => Ok(true),
        Some(table) => enter(table, key, value, now),
    }
}

/// Forgets the route of the key that was taken from the peer.
pub(crate) fn forget_from(slots: &mut Slots, peer: NodeId, key: &TakenKey)
    ensures forgot { (now : ℕ) → tables_of slots.new.entries
        ≡ changed_at peer (λ taken. taken_change now taken (Unreach key.now)) (tables_of slots.old.entries) }
    ensures spelled { AreSpelled (tables_of slots.old.entries) → AreSpelled (tables_of slots.new.entries) }
{
    match slots.get_mut(&peer.0) {
        None => {}
        Some(table) => table.remove(key.kept()),
    }
}
