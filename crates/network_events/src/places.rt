//! At which node and in which VRFs events of customers take place.
ghost use Rattle.std.specs.Prelude.{◌≡◌, ◌≤◌, ◌^◌, length, IfOk};
ghost use Rattle.scenario_defs.specs.Vpn.{entered};
ghost use Rattle.network_defs.specs.Refusals.{edge_of_vrf};
ghost use Rattle.network_events.specs.Places.{among_from, has_vrf, vrfs_of};

use mv_base::{NoMemory, NodeId, Seq, SiteId, VrfId};
use scenario_defs::{Iface, Scenario, Vrf};
use std::alloc::Global;

/// The edge of the VRF, where the scenario has it.
pub(crate) fn edge_of_vrf(scenario: &Scenario, vrf: VrfId) -> Option<NodeId>
    ensures { result ≡ edge_of_vrf scenario.now vrf }
{
    match scenario.vrfs.as_slice().get(usize::from(vrf.0)) {
        Some(found) => Some(found.edge),
        None => None,
    }
}

/// The VRFs of the site's interfaces, in order of interfaces.
fn vrfs_of(alloc: Global, ifaces: &[Iface], site: SiteId) -> Result<Seq<VrfId>, NoMemory>
    ensures { IfOk result (λ vrfs. vrfs ≡ vrfs_of site ifaces.now) }
{
    let mut vrfs = Seq::new(alloc);
    for iface in ifaces {
        if iface.site.0 == site.0 {
            vrfs.push(iface.vrf)?;
        }
    }
    Ok(vrfs)
}

fn has_vrf(vrfs: &[VrfId], vrf: VrfId) -> bool
    ensures { result ≡ has_vrf vrfs.now vrf }
{
    vrfs.iter().any(|other| other.0 == vrf.0)
}

/// Those of the VRFs that are among these, each once and in order.
fn among(alloc: Global, own: &[VrfId], vrfs: &[Vrf]) -> Result<Seq<VrfId>, NoMemory>
    requires { length vrfs.now ≤ 2 ^ 16 }
    ensures { IfOk result (λ found. found ≡ among_from own.now 0 vrfs.now) }
{
    let mut found = Seq::new(alloc);
    for (number, _vrf) in vrfs.iter().enumerate() {
        let id = VrfId(number as u16);
        if has_vrf(own, id) {
            found.push(id)?;
        }
    }
    Ok(found)
}

/// The VRFs at which the site is attached, in order. All interfaces are looked at once, and not for each VRF.
pub(crate) fn entered(
    alloc: Global,
    scenario: &Scenario,
    site: SiteId,
) -> Result<Seq<VrfId>, NoMemory>
    requires { length scenario.now.vrfs ≤ 2 ^ 16 }
    ensures { IfOk result (λ vrfs. vrfs ≡ entered scenario.now site) }
{
    let own = vrfs_of(alloc, scenario.ifaces.as_slice(), site)?;
    among(alloc, own.as_slice(), scenario.vrfs.as_slice())
}
