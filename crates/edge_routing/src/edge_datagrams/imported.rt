//! Which VRFs import a route of a tunnel (RFC 6514 sections 9.1.2 and 12.3).
ghost use Rattle.std.specs.Prelude.{◌≡◌, true};
ghost use Rattle.std.specs.List.{list_any};
ghost use Rattle.mv_base.specs.Lists.{Among};
ghost use Rattle.mv_base.specs.declared.ids.NodeId.{NodeId};
ghost use Rattle.mv_base.specs.core_walks.Core.{Core};
ghost use Rattle.edge_defs.specs.Datagrams.{is_route_of, selective_fec};
ghost use Rattle.edge_defs.specs.Edge.{TakenRoute};
ghost use Rattle.edge_defs.specs.Imported.{imported_selective};
ghost use Rattle.edge_defs.specs.Place as places;
ghost use Rattle.edge_defs.specs.Place.{EdgePlace, addr_of, own_vrfs};
ghost use Rattle.edge_routes.specs.edge_home.Home.{as_own, place_of};
ghost use Rattle.edge_routes.specs.Judged.{value_of};
ghost use Rattle.vrf_words.specs.tree_laws.Imports.{imports};
ghost use Rattle.control_laws.specs.Control.{control_of};
ghost use Rattle.control_laws.specs.Peers.{IsTreeBetween};
ghost use Rattle.edge_control.specs.Places.{is_own_vrf};

use bgp_messages::bgp_attributes::Key;
use edge_control::of_edge_tables::taken_tables::{TableEntries, TakenEntry, is_tunnel};
use edge_control::of_vrf_trees::VrfTree;
use edge_control::{EdgeControl, own_of_vrf};
use edge_routes::edge_home::OwnVrf;
use edge_routes::route_order::KeptKey;
use edge_routes::{TakenValue, imported_inclusive, imported_selective};
use mldp::mldp_fec::Fec;
use mv_base::{Addr, NodeId, VrfId};
use vrf_words::tree_defs::Flow;

/// The tunnel of the selective route of that key and value, where the VRF imports it from the peer of that address.
fn selective_tunnel(own: &OwnVrf, addr: Addr, key: &Key, value: &TakenValue) -> Option<Fec>
    ensures { (taken : TakenRoute) → taken.value ≡ value_of value.now →
        result ≡ selective_fec (imported_selective (as_own own.now).vrf addr (key.now, taken)) }
{
    match imported_selective(own.local.vrf(), addr, key, value) {
        None => None,
        Some(imported) => Some(imported.fec),
    }
}

/// Whether the VRF imports the route of that key from the peer of that address, and it is one of the tunnel. Most routes are of other
/// tunnels, so the tunnel is looked at first.
fn is_route_of(own: &OwnVrf, addr: Addr, fec: &Fec, key: &KeptKey, entry: &TakenEntry) -> bool
    ensures { (place : EdgePlace) (peer : NodeId) → addr_of place.scenario peer ≡ addr →
        result ≡ is_route_of place (as_own own.now) peer fec.now (key.now, entry.now) }
{
    if !entry.has_tunnel(fec) {
        return false;
    }
    let key = key.key();
    let value = entry.value();
    is_tunnel(imported_inclusive(own.local.vrf(), addr, &key, &value), fec)
        || is_tunnel(selective_tunnel(own, addr, &key, &value), fec)
}

/// Whether the VRF imports one of these routes of the peer of that address, and it is one of the tunnel.
fn has_route(own: &OwnVrf, addr: Addr, fec: &Fec, entries: TableEntries<'_>) -> bool
    ensures { (place : EdgePlace) (peer : NodeId) → addr_of place.scenario peer ≡ addr →
        result ≡ list_any (is_route_of place (as_own own.now) peer fec.now) entries.entry }
{
    for (key, entry) in entries {
        if is_route_of(own, addr, fec, key, entry) {
            return true;
        }
    }
    false
}

/// Whether the VRF imports a route of the tunnel from the edge.
fn imports_at(control: &EdgeControl, own: &OwnVrf, edge: NodeId, fec: &Fec) -> bool
    ensures { (core : Core) →
        result ≡ imports (place_of control.now.home core) (control_of control.now) (as_own own.now) edge fec.now }
{
    match control.taken().entries(edge) {
        None => false,
        Some(entries) => has_route(own, control.home().addr_of(edge), fec, entries),
    }
}

/// The same of the VRF of the tree, where the flow is looked up first: where it is known to want the tunnel, the tree learned a selective
/// route of it, and the table of the edge is not searched.
pub(crate) fn imports_to(
    control: &EdgeControl,
    own: &OwnVrf,
    tree: &VrfTree,
    flow: &Flow,
    edge: NodeId,
    fec: &Fec,
) -> bool
    ensures { (core : Core) →
        IsTreeBetween (place_of control.now.home core) (control_of control.now) (as_own own.now) tree.now →
        result ≡ imports (place_of control.now.home core) (control_of control.now) (as_own own.now) edge fec.now }
{
    tree.is_known(flow, edge, fec) || imports_at(control, own, edge, fec)
}

/// Whether the VRF of that number imports a route of the tunnel from the edge (RFC 6514 sections 9.1.2 and 12.3).
pub fn imports(control: &EdgeControl, vrf: VrfId, edge: NodeId, fec: &Fec) -> bool
    requires own { is_own_vrf control.now.home vrf ≡ true }
    ensures { (core : Core) (own : places.OwnVrf) → Among own (own_vrfs (place_of control.now.home core)) → own.id ≡ vrf →
        result ≡ imports (place_of control.now.home core) (control_of control.now) own edge fec.now }
{
    imports_at(control, own_of_vrf(control.home(), vrf), edge, fec)
}
