//! Which of the edge's VRFs an interface or a number names.
ghost use Rattle.std.specs.Prelude.{◌≡◌, ◌==◌, true, position};
ghost use Rattle.mv_base.specs.Lists.{Among};
ghost use Rattle.mv_base.specs.core_walks.Core.{Core};
ghost use Rattle.edge_defs.specs.Originated.{is_iface_of};
ghost use Rattle.edge_defs.specs.Place.{own_vrfs};
ghost use Rattle.edge_routes.specs.edge_home.Home.{as_own, place_of};
ghost use Rattle.edge_routes.specs.Local.{IsAt};
ghost use Rattle.edge_control.specs.Places.{IsPlace, is_own_iface, is_own_vrf};

use crate::each::own_at;
use edge_routes::edge_home::{EdgeHome, OwnVrf};
use mv_base::{IfaceId, VrfId};
use scenario_defs::Scenario;

/// Whether the interface is one of the VRF.
fn is_iface_of(scenario: &Scenario, vrf: VrfId, iface: IfaceId) -> bool
    ensures { result ≡ is_iface_of scenario.now vrf iface }
{
    match scenario.ifaces.as_slice().get(usize::from(iface.0)) {
        None => false,
        Some(found) => found.vrf.0 == vrf.0,
    }
}

/// The place of the first of the VRFs that has the interface.
fn position_of_iface(scenario: &Scenario, vrfs: &[OwnVrf], iface: IfaceId) -> Option<usize>
    ensures { result ≡ position (λ own. is_iface_of scenario.now own.id iface) vrfs.now }
{
    vrfs.iter()
        .position(|own| is_iface_of(scenario, own.id, iface))
}

/// The place of the first of the VRFs that has the number.
fn position_of_vrf(vrfs: &[OwnVrf], vrf: VrfId) -> Option<usize>
    ensures { result ≡ position (λ own. own.id.0 == vrf.0) vrfs.now }
{
    vrfs.iter().position(|own| own.id.0 == vrf.0)
}

/// The place of the VRF of the interface among those of the edge.
pub(crate) fn place_of_iface(home: &EdgeHome, iface: IfaceId) -> usize
    requires { is_own_iface home.now iface ≡ true }
    ensures { IsPlace home.now result (λ own. is_iface_of home.now.scenario own.id iface) }
{
    match position_of_iface(home.scenario(), home.vrfs(), iface) {
        Some(place) => place,
        None => unreachable!(),
    }
}

/// The place of the VRF of that number among those of the edge.
pub(crate) fn place_of_vrf(home: &EdgeHome, vrf: VrfId) -> usize
    requires { is_own_vrf home.now vrf ≡ true }
    ensures { IsPlace home.now result (λ own. own.id.0 == vrf.0) }
{
    match position_of_vrf(home.vrfs(), vrf) {
        Some(place) => place,
        None => unreachable!(),
    }
}

/// The VRF of the edge to which the interface belongs.
pub fn own_of_iface(home: &EdgeHome, iface: IfaceId) -> &OwnVrf
    requires { is_own_iface home.now iface ≡ true }
    ensures among { (core : Core) → Among (as_own result.now) (own_vrfs (place_of home.now core)) }
    ensures at { (core : Core) → IsAt (place_of home.now core) result.now.local }
    ensures of { is_iface_of home.now.scenario result.now.id iface ≡ true }
{
    own_at(home, place_of_iface(home, iface))
}

/// The VRF of the edge of that number.
pub fn own_of_vrf(home: &EdgeHome, vrf: VrfId) -> &OwnVrf
    requires { is_own_vrf home.now vrf ≡ true }
    ensures among { (core : Core) → Among (as_own result.now) (own_vrfs (place_of home.now core)) }
    ensures at { (core : Core) → IsAt (place_of home.now core) result.now.local }
    ensures of { result.now.id ≡ vrf }
{
    own_at(home, place_of_vrf(home, vrf))
}
