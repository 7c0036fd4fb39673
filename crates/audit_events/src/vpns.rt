//! The interfaces and routes of each VRF's VPN.
ghost use Rattle.std.specs.Prelude.{◌≡◌, ◌≤◌, ◌^◌, ◌++◌, length, IfOk, OnOk};
ghost use Rattle.audit_defs.specs.scenario_defs.Home.{routes, routes_of_site};
ghost use Rattle.audit_events.specs.Vpns.{members, vpn_of, vpns_of};

use audit_defs::of_mv_base::{IfaceId, NoMemory, Prefix, Seq, SiteId, VrfId};
use audit_defs::of_mvpn_model::is_attached;
use audit_defs::of_scenario_defs::{IfaceList, Route, Scenario, same_vpn};
use std::alloc::Global;

/// The interfaces and routes of a VPN.
#[derive(Drop)]
pub struct Vpn {
    pub members: IfaceList,
    pub routes: Seq<Route>,
}

/// By VRFs: the VPN of each.
pub type Vpns = Seq<Vpn>;

/// The interfaces of the VRF's VPN.
fn members(alloc: Global, scenario: &Scenario, vrf: VrfId) -> Result<IfaceList, NoMemory>
    requires { length scenario.now.ifaces ≤ 2 ^ 16 }
    ensures { IfOk result (λ all. all ≡ members scenario.now vrf) }
{
    let mut all = Seq::new(alloc);
    let ifaces = scenario.ifaces.as_slice();
    for (number, iface) in ifaces.iter().enumerate() {
        if same_vpn(scenario, vrf, iface.vrf) {
            all.push(IfaceId(number as u16))?;
        }
    }
    Ok(all)
}

/// Adds the routes of a site.
fn add_routes(routes: &mut Seq<Route>, site: SiteId, prefixes: &[Prefix]) -> Result<(), NoMemory>
    ensures { OnOk result (routes.new ≡ routes.old ++ routes_of_site site prefixes.now) }
{
    for prefix in prefixes {
        routes.push(Route {
            prefix: *prefix,
            site,
        })?;
    }
    Ok(())
}

/// The routes of the VRF's VPN.
fn routes(alloc: Global, scenario: &Scenario, vrf: VrfId) -> Result<Seq<Route>, NoMemory>
    requires { length scenario.now.sites ≤ 2 ^ 16 }
    ensures { IfOk result (λ all. all ≡ routes scenario.now vrf) }
{
    let mut all = Seq::new(alloc);
    let sites = scenario.sites.as_slice();
    for (number, site) in sites.iter().enumerate() {
        let id = SiteId(number as u16);
        if is_attached(scenario, vrf, id) {
            add_routes(&mut all, id, site.prefixes.as_slice())?;
        }
    }
    Ok(all)
}

/// What is looked up of the VRF's VPN.
fn look_up(alloc: Global, scenario: &Scenario, vrf: VrfId) -> Result<Vpn, NoMemory>
    requires ifaces { length scenario.now.ifaces ≤ 2 ^ 16 }
    requires sites { length scenario.now.sites ≤ 2 ^ 16 }
    ensures { IfOk result (λ vpn. vpn ≡ vpn_of scenario.now vrf) }
{
    Ok(Vpn {
        members: members(alloc, scenario, vrf)?,
        routes: routes(alloc, scenario, vrf)?,
    })
}

/// The VPN of each VRF, in order.
pub(crate) fn vpns(alloc: Global, scenario: &Scenario) -> Result<Vpns, NoMemory>
    requires ifaces { length scenario.now.ifaces ≤ 2 ^ 16 }
    requires sites { length scenario.now.sites ≤ 2 ^ 16 }
    requires vrfs { length scenario.now.vrfs ≤ 2 ^ 16 }
    ensures { IfOk result (λ all. all ≡ vpns_of scenario.now) }
{
    let mut all = Seq::new(alloc);
    let vrfs = scenario.vrfs.as_slice();
    for (number, _vrf) in vrfs.iter().enumerate() {
        all.push(look_up(alloc, scenario, VrfId(number as u16))?)?;
    }
    Ok(all)
}
