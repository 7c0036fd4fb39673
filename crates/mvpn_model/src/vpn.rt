//! Which VRFs and sites belong together.
ghost use Rattle.std.specs.Prelude.{◌≡◌, ◌==◌, ◌&&◌, find, option_map, option_copied};
ghost use Rattle.scenario_defs.specs.Vpn.{same_vpn, is_attached, vrf_of_site, is_of_site};

use mv_base::{SiteId, VrfId};
use scenario_defs::{Iface, Scenario, same_vpn};

/// Whether the interface belongs to the site, and its VRF to the VRF's VPN.
fn attaches(scenario: &Scenario, vrf: VrfId, site: SiteId, iface: &Iface) -> bool
    ensures { result ≡ (is_of_site site iface.now && same_vpn scenario.now vrf iface.now.vrf) }
{
    iface.site.0 == site.0 && same_vpn(scenario, vrf, iface.vrf)
}

/// Whether the site is attached to the VRF's VPN.
pub fn is_attached(scenario: &Scenario, vrf: VrfId, site: SiteId) -> bool
    ensures { result ≡ is_attached scenario.now vrf site }
{
    let ifaces = scenario.ifaces.as_slice();
    ifaces
        .iter()
        .any(|iface| attaches(scenario, vrf, site, iface))
}

fn first_of_site(ifaces: &[Iface], site: SiteId) -> Option<&Iface>
    ensures { option_copied result ≡ find (is_of_site site) ifaces.now }
{
    ifaces.iter().find(|iface| iface.site.0 == site.0)
}

/// The VRF of the site's first interface, where it has one.
pub fn vrf_of_site(scenario: &Scenario, site: SiteId) -> Option<VrfId>
    ensures { result ≡ vrf_of_site scenario.now site }
{
    match first_of_site(scenario.ifaces.as_slice(), site) {
        Some(iface) => Some(iface.vrf),
        None => None,
    }
}
