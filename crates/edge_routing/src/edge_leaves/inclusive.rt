//! Which tunnels are those of inclusive routes that a VRF imports (RFC 6514 section 9.1.2).
ghost use Rattle.std.specs.Prelude.{◌≡◌, ◌↔◌, ◌&&◌, true, IsTrue};
ghost use Rattle.std.specs.List.{list_any};
ghost use Rattle.mv_base.specs.core_walks.Core.{Core};
ghost use Rattle.edge_defs.specs.Datagrams.{is_tunnel};
ghost use Rattle.scenario_defs.specs.declared.scenario.Vrf.{Vrf};
ghost use Rattle.edge_defs.specs.Imported.{imported_inclusive, is_admitted, lsp_of};
ghost use Rattle.edge_routes.specs.edge_home.Home.{as_own, place_of};
ghost use Rattle.edge_routes.specs.Judged.{value_of};
ghost use Rattle.edge_words.specs.Leaf.{IsInclusive};
ghost use Rattle.vrf_words.specs.tree_laws.Imports.{imports_inclusive};
ghost use Rattle.control_laws.specs.Control.{control_of};

use crate::edge_datagrams::root_of;
use edge_control::EdgeControl;
use edge_control::of_edge_tables::taken_tables::{TableEntries, TakenEntry};
use edge_routes::edge_home::OwnVrf;
use edge_routes::route_order::KeptKey;
use edge_routes::{inclusive_tunnel, is_admitted};
use mldp::mldp_fec::Fec;
use mv_base::route_targets::ExtComm;
use mv_base::{Addr, NodeId};

/// Whether the route of that key from the peer of that address is an inclusive one of the tunnel, for each VRF that admits it. Most
/// routes are of other tunnels, so the tunnel is looked at first.
fn is_of_tunnel(addr: Addr, fec: &Fec, key: &KeptKey, entry: &TakenEntry) -> bool
    ensures { (vrf : Vrf) → is_tunnel fec.now (imported_inclusive vrf addr (key.now, entry.now))
        ≡ (result && is_admitted vrf entry.now.value.comms) }
{
    entry.has_tunnel(fec) && inclusive_tunnel(addr, &key.key(), &entry.value()).is_some()
}

/// Whether one of the VRFs admits a route with these communities.
fn any_admits(vrfs: &[OwnVrf], comms: &[ExtComm]) -> bool
    ensures { result ≡ list_any (λ own. is_admitted (as_own own).vrf comms.now) vrfs.now }
{
    vrfs.iter().any(|own| is_admitted(own.local.vrf(), comms))
}

/// Whether one of the VRFs imports the route of that key from the peer of that address, and it is an inclusive one of the tunnel. Most
/// routes are not, so the VRFs are looked at last.
fn is_route_of(vrfs: &[OwnVrf], addr: Addr, fec: &Fec, key: &KeptKey, entry: &TakenEntry) -> bool
    ensures { result ≡ list_any (λ own. is_tunnel fec.now (imported_inclusive (as_own own).vrf addr (key.now, entry.now))) vrfs.now }
{
    if !is_of_tunnel(addr, fec, key, entry) {
        return false;
    }
    any_admits(vrfs, entry.value().comms)
}

/// Whether one of the VRFs imports one of these routes of the peer of that address, and it is an inclusive one of the tunnel.
fn has_route(vrfs: &[OwnVrf], addr: Addr, fec: &Fec, entries: TableEntries<'_>) -> bool
    ensures { result ≡ list_any (λ entry. list_any (λ own.
        is_tunnel fec.now (imported_inclusive (as_own own).vrf addr entry)) vrfs.now) entries.entry }
{
    for (key, entry) in entries {
        if is_route_of(vrfs, addr, fec, key, entry) {
            return true;
        }
    }
    false
}

/// Whether the edge has sent a route of that key, one of the VRFs imports it, and it is an inclusive one of the tunnel.
fn is_at(
    control: &EdgeControl,
    vrfs: &[OwnVrf],
    edge: NodeId,
    fec: &Fec,
    near: Option<&KeptKey>,
) -> bool
    ensures { (core : Core) → result ≡ true → list_any (λ own.
        imports_inclusive (place_of control.now.home core) (control_of control.now) (as_own own) edge fec.now) vrfs.now ≡ true }
{
    let Some(key) = near else {
        return false;
    };
    match control.taken().get(edge, key) {
        None => false,
        Some(entry) => is_route_of(vrfs, control.home().addr_of(edge), fec, key, entry),
    }
}

/// Whether one of the VRFs imports an inclusive route of the tunnel from the edge.
fn any_imports(control: &EdgeControl, vrfs: &[OwnVrf], edge: NodeId, fec: &Fec) -> bool
    ensures { (core : Core) → result
        ≡ list_any (λ own. imports_inclusive (place_of control.now.home core) (control_of control.now) (as_own own) edge fec.now) vrfs.now }
{
    match control.taken().entries(edge) {
        None => false,
        Some(entries) => has_route(vrfs, control.home().addr_of(edge), fec, entries),
    }
}

/// The same, where the route of that key is looked at first.
fn any_imports_near(
    control: &EdgeControl,
    vrfs: &[OwnVrf],
    edge: NodeId,
    fec: &Fec,
    near: Option<&KeptKey>,
) -> bool
    ensures { (core : Core) → result
        ≡ list_any (λ own. imports_inclusive (place_of control.now.home core) (control_of control.now) (as_own own) edge fec.now) vrfs.now }
{
    is_at(control, vrfs, edge, fec, near) || any_imports(control, vrfs, edge, fec)
}

/// Whether a VRF of the edge imports an inclusive route of the tunnel. Such a route is its root's, so no other peer is looked at. The route
/// of that key is looked at first.
pub(crate) fn is_inclusive(control: &EdgeControl, fec: &Fec, near: Option<&KeptKey>) -> bool
    ensures { (core : Core) → IsTrue result ↔ IsInclusive (place_of control.now.home core) (control_of control.now) fec.now }
{
    match root_of(control.home().scenario(), fec) {
        None => false,
        Some(root) => any_imports_near(control, control.home().vrfs(), root, fec, near),
    }
}
