//! The inclusive tunnels that VRFs of an edge import by routes of a peer (RFC 6514 section 9.1.2).
ghost use Rattle.std.specs.Prelude.{◌≡◌, ◌<◌, ◌++◌, ◌↔◌, true, length, IfOk, OnOk};
ghost use Rattle.std.specs.List.{list_any};
ghost use Rattle.std.specs.FinMap as maps;
ghost use Rattle.mv_base.specs.core_walks.Core.{Core};
ghost use Rattle.mldp.specs.declared.mldp_fec.fec.Fec.{Fec};
ghost use Rattle.label_defs.specs.LabelData.{same_fec};
ghost use Rattle.edge_routes.specs.edge_home.Home.{place_of};
ghost use Rattle.edge_routes.specs.Judged.{value_of};
ghost use Rattle.edge_control.specs.edge_tables.taken_tables.Tables.{route_at};
ghost use Rattle.control_laws.specs.Control.{control_of};
ghost use Rattle.edge_control.specs.Taking.{table_of};
ghost use Rattle.edge_routing.specs.edge_updates.Inclusive.{IsInclusiveFrom};
ghost use Rattle.edge_routing.specs.edge_updates.Tunnels.{listed, tunnels_at, tunnels_by, tunnels_by_all, tunnels_from, tunnels_to};

use bgp_messages::bgp_attributes::Key;
use edge_control::EdgeControl;
use edge_control::of_edge_tables::taken_tables::{TableEntries, TakenEntry};
use edge_routes::edge_home::{EdgeHome, OwnVrf};
use edge_routes::route_order::{KeptKey, RouteType, TakenKey};
use edge_routes::{TakenValue, imported_inclusive};
use mldp::mldp_fec::Fec;
use mv_base::{Addr, NoMemory, NodeId};
use std::alloc::Global;

/// Appends the tunnel, where there is one.
fn append(fecs: &mut Vec<Fec>, tunnel: Option<Fec>) -> Result<(), NoMemory>
    ensures { OnOk result (fecs.new.items ≡ fecs.old.items ++ listed tunnel) }
{
    match tunnel {
        None => Ok(()),
        Some(fec) => {
            fecs.push(fec)?;
            Ok(())
        }
    }
}

/// Appends the tunnel of the route of that key and value for each of the VRFs that import it from the peer of that address.
fn append_imported(
    fecs: &mut Vec<Fec>,
    vrfs: &[OwnVrf],
    peer: Addr,
    key: &Key,
    value: &TakenValue,
) -> Result<(), NoMemory>
    ensures { OnOk result (fecs.new.items ≡ fecs.old.items ++ tunnels_to peer key.now (value_of value.now) vrfs.now) }
{
    for own in vrfs {
        append(fecs, imported_inclusive(own.local.vrf(), peer, key, value))?;
    }
    Ok(())
}

/// The same for each VRF of the edge.
fn append_of_route(
    fecs: &mut Vec<Fec>,
    home: &EdgeHome,
    peer: NodeId,
    key: &Key,
    value: &TakenValue,
) -> Result<(), NoMemory>
    requires { peer.0 < length home.now.scenario.nodes }
    ensures { OnOk result (fecs.new.items ≡ fecs.old.items ++ tunnels_by home.now peer key.now (value_of value.now)) }
{
    let addr = home.addr_of(peer);
    append_imported(fecs, home.vrfs(), addr, key, value)
}

/// Appends the tunnels that VRFs of the edge import by the route of the key that was taken from the peer, where there is one.
fn append_taken(
    fecs: &mut Vec<Fec>,
    control: &EdgeControl,
    peer: NodeId,
    key: &TakenKey,
) -> Result<(), NoMemory>
    ensures { OnOk result (fecs.new.items
        ≡ fecs.old.items ++ tunnels_at control.now.home peer key.now (route_at control.now.peers peer key.now)) }
{
    let home = control.home();
    match control.taken().get(peer, key.kept()) {
        None => Ok(()),
        Some(entry) => append_of_route(fecs, home, peer, key.key(), &entry.value()),
    }
}

/// The same. A key that is not that of an Intra-AS I-PMSI A-D route is not looked up.
pub(crate) fn append_at(
    fecs: &mut Vec<Fec>,
    control: &EdgeControl,
    peer: NodeId,
    key: &TakenKey,
) -> Result<(), NoMemory>
    ensures { OnOk result (fecs.new.items
        ≡ fecs.old.items ++ tunnels_at control.now.home peer key.now (route_at control.now.peers peer key.now)) }
{
    if key.kept().is_of_type(RouteType::Intra) {
        append_taken(fecs, control, peer, key)
    } else {
        Ok(())
    }
}

/// Appends those of a route of that key and value, where routes are taken from the peer.
fn append_from(
    fecs: &mut Vec<Fec>,
    control: &EdgeControl,
    peer: NodeId,
    key: &Key,
    value: &TakenValue,
) -> Result<(), NoMemory>
    ensures { OnOk result (fecs.new.items ≡ fecs.old.items
        ++ tunnels_from control.now.home (maps.get control.now.peers peer) peer key.now (value_of value.now)) }
{
    let home = control.home();
    match control.taken().entries(peer) {
        None => Ok(()),
        Some(_) => append_of_route(fecs, home, peer, key, value),
    }
}

/// The same. By most routes, which are no Intra-AS I-PMSI A-D routes, there is none.
pub(crate) fn append_by(
    fecs: &mut Vec<Fec>,
    control: &EdgeControl,
    peer: NodeId,
    key: &TakenKey,
    value: &TakenValue,
) -> Result<(), NoMemory>
    ensures { OnOk result (fecs.new.items ≡ fecs.old.items
        ++ tunnels_from control.now.home (maps.get control.now.peers peer) peer key.now (value_of value.now)) }
{
    if key.kept().is_of_type(RouteType::Intra) {
        append_from(fecs, control, peer, key.key(), value)
    } else {
        Ok(())
    }
}

/// Appends those of a route of the peer's table. Most routes are no inclusive ones, which are Intra-AS I-PMSI A-D routes, and their keys are
/// not read.
fn append_of_entry(
    fecs: &mut Vec<Fec>,
    home: &EdgeHome,
    peer: NodeId,
    key: &KeptKey,
    entry: &TakenEntry,
) -> Result<(), NoMemory>
    requires { peer.0 < length home.now.scenario.nodes }
    ensures { OnOk result (fecs.new.items ≡ fecs.old.items ++ tunnels_by home.now peer key.now entry.now.value) }
{
    if key.is_of_type(RouteType::Intra) {
        append_of_route(fecs, home, peer, &key.key(), &entry.value())
    } else {
        Ok(())
    }
}

/// Appends those of all these routes of the peer.
fn append_of_entries(
    fecs: &mut Vec<Fec>,
    home: &EdgeHome,
    peer: NodeId,
    entries: TableEntries<'_>,
) -> Result<(), NoMemory>
    requires { peer.0 < length home.now.scenario.nodes }
    ensures { OnOk result (fecs.new.items ≡ fecs.old.items ++ tunnels_by_all home.now peer entries.entry) }
{
    for (key, entry) in entries {
        append_of_entry(fecs, home, peer, key, entry)?;
    }
    Ok(())
}

/// Appends those of all routes that were taken from the peer.
fn append_of_table(fecs: &mut Vec<Fec>, control: &EdgeControl, peer: NodeId) -> Result<(), NoMemory>
    ensures { OnOk result (fecs.new.items
        ≡ fecs.old.items ++ tunnels_by_all control.now.home peer (maps.entries (table_of control.now.peers peer))) }
{
    let home = control.home();
    match control.taken().entries(peer) {
        None => Ok(()),
        Some(entries) => append_of_entries(fecs, home, peer, entries),
    }
}

/// The inclusive tunnels whose routes some VRF of the edge imports from the peer, in no order. One may be there more than once.
pub fn inclusive_from(
    control: &EdgeControl,
    alloc: Global,
    peer: NodeId,
) -> Result<Vec<Fec>, NoMemory>
    ensures { (core : Core) → IfOk result (λ fecs. (fec : Fec) →
        IsInclusiveFrom (place_of control.now.home core) (control_of control.now) peer fec ↔ (list_any (same_fec fec) fecs.items ≡ true)) }
{
    let mut fecs = Vec::new(alloc);
    append_of_table(&mut fecs, control, peer)?;
    Ok(fecs)
}
