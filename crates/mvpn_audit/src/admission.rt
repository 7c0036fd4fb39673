//! Which sites' datagrams may leave at an interface.
ghost use Rattle.std.specs.Prelude.{◌≡◌, ◌&&◌};
ghost use Rattle.std.specs.List.{list_any, list_all};
ghost use Rattle.audit_events.specs.mv_base.route_targets.Targets.{has, shares};
ghost use Rattle.audit_events.specs.scenario_defs.Vpn.{targets_of, admits, is_of_site};
ghost use Rattle.audit_events.specs.audit_defs.Offences.{iface_admits, site_admitted};
ghost use Rattle.mvpn_audit.specs.Judging.{is_let_out};

use audit_events::of_mv_base::route_targets::Target;
use audit_events::of_mv_base::{IfaceId, SiteId, VrfId};
use audit_events::of_scenario_defs::{Iface, Scenario};

/// The Route Targets of a VRF, none where there is no such VRF.
fn targets_of(scenario: &Scenario, vrf: VrfId) -> &[Target]
    ensures { result.now ≡ targets_of scenario.now vrf }
{
    match scenario.vrfs.as_slice().get(usize::from(vrf.0)) {
        Some(found) => found.targets.as_slice(),
        None => &[],
    }
}

fn has(targets: &[Target], target: Target) -> bool
    ensures { result ≡ has targets.now target }
{
    targets.iter().any(|own| target.same(*own))
}

fn shares(a: &[Target], b: &[Target]) -> bool
    ensures { result ≡ shares a.now b.now }
{
    a.iter().any(|target| has(b, *target))
}

/// Whether the VRFs admit each other's routes.
fn admits(scenario: &Scenario, a: VrfId, b: VrfId) -> bool
    ensures { result ≡ admits scenario.now a b }
{
    shares(targets_of(scenario, a), targets_of(scenario, b))
}

/// Whether the VRF of the interface admits a VRF.
fn iface_admits(scenario: &Scenario, iface: IfaceId, vrf: VrfId) -> bool
    ensures { result ≡ iface_admits scenario.now iface vrf }
{
    match scenario.ifaces.as_slice().get(usize::from(iface.0)) {
        Some(own) => admits(scenario, own.vrf, vrf),
        None => false,
    }
}

/// Whether the site has one of the interfaces.
fn is_attached(ifaces: &[Iface], site: SiteId) -> bool
    ensures { result ≡ list_any (is_of_site site) ifaces.now }
{
    ifaces.iter().any(|iface| iface.site.0 == site.0)
}

/// Whether the other interface is of another site, or its VRF is admitted by that of the interface.
fn is_let_out(scenario: &Scenario, iface: IfaceId, site: SiteId, other: &Iface) -> bool
    ensures { result ≡ is_let_out scenario.now iface site other.now }
{
    other.site.0 != site.0 || iface_admits(scenario, iface, other.vrf)
}

/// Whether the VRF of the interface admits that of each of the interfaces that the site has.
fn all_admitted(scenario: &Scenario, iface: IfaceId, site: SiteId) -> bool
    ensures { result ≡ list_all (is_let_out scenario.now iface site) scenario.now.ifaces }
{
    let ifaces = scenario.ifaces.as_slice();
    ifaces
        .iter()
        .all(|other| is_let_out(scenario, iface, site, other))
}

/// Whether the site has an interface, and the interface's VRF admits the VRF of each of them.
pub(crate) fn site_admitted(scenario: &Scenario, iface: IfaceId, site: SiteId) -> bool
    ensures { result ≡ site_admitted scenario.now iface site }
{
    is_attached(scenario.ifaces.as_slice(), site) && all_admitted(scenario, iface, site)
}
