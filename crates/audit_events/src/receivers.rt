//! Who receives a flow, by joined state and notes as they are kept.
ghost use Rattle.std.specs.Prelude.{◌≡◌, ◌&&◌, filter, IfOk};
ghost use Rattle.audit_events.specs.Joined.{kept_of};
ghost use Rattle.audit_events.specs.Receivers.{is_home_in, is_active_now, receives_now, receivers_in, receivers_now};

use crate::joined::Joined;
use crate::vpns::Vpn;
use audit_defs::of_mv_base::{Addr, IfaceId, NoMemory, Seq, SiteId};
use audit_defs::of_mvpn_model::{home_among, vrf_of_site};
use audit_defs::of_scenario_defs::{IfaceList, Scenario};
use std::alloc::Global;

/// A flow from a site.
#[derive(Clone, Copy)]
pub(crate) struct Flow {
    pub site: SiteId,
    pub source: Addr,
    pub group: Addr,
}

/// Whether the flow's site is the home of its source, by the routes of the VPN.
fn is_home_in(vpn: &Vpn, flow: &Flow) -> bool
    ensures { result ≡ is_home_in vpn.now flow.now }
{
    match home_among(vpn.routes.as_slice(), flow.source) {
        Some(found) => found.0 == flow.site.0,
        None => false,
    }
}

/// Whether the flow's source is noted at one of the interfaces as a sender to its group.
fn is_active_now(joined: &Joined, scenario: &Scenario, members: &[IfaceId], flow: &Flow) -> bool
    ensures { result ≡ is_active_now scenario.now (kept_of joined.now) members.now flow.now }
{
    let mut active = false;
    for iface in members {
        active = active || joined.is_noted(scenario, *iface, flow.source, flow.group);
    }
    active
}

/// Whether the interface is of another site, and asks for the flow.
fn receives_now(
    joined: &Joined,
    scenario: &Scenario,
    flow: &Flow,
    active: bool,
    iface: IfaceId,
) -> bool
    ensures { result ≡ receives_now scenario.now (kept_of joined.now) flow.now active iface }
{
    match scenario.ifaces.as_slice().get(usize::from(iface.0)) {
        Some(own) => {
            own.site.0 != flow.site.0
                && joined.asks(scenario, iface, flow.source, flow.group, active)
        }
        None => false,
    }
}

/// Those of the interfaces that receive the flow.
fn receiving(
    alloc: Global,
    joined: &Joined,
    scenario: &Scenario,
    members: &[IfaceId],
    flow: &Flow,
    active: bool,
) -> Result<IfaceList, NoMemory>
    ensures { IfOk result (λ found. found ≡ filter (receives_now scenario.now (kept_of joined.now) flow.now active) members.now) }
{
    let mut found = Seq::new(alloc);
    for iface in members {
        if receives_now(joined, scenario, flow, active, *iface) {
            found.push(*iface)?;
        }
    }
    Ok(found)
}

/// The receivers of the flow in the VPN.
fn receivers_in(
    alloc: Global,
    joined: &Joined,
    scenario: &Scenario,
    vpn: &Vpn,
    flow: &Flow,
) -> Result<IfaceList, NoMemory>
    ensures { IfOk result (λ found. found ≡ receivers_in scenario.now (kept_of joined.now) vpn.now flow.now) }
{
    if !is_home_in(vpn, flow) {
        return Ok(Seq::new(alloc));
    }
    let members = vpn.members.as_slice();
    let active = is_active_now(joined, scenario, members, flow);
    receiving(alloc, joined, scenario, members, flow, active)
}

/// The receivers of the flow, by the VPNs of the VRFs.
pub(crate) fn receivers_now(
    alloc: Global,
    joined: &Joined,
    scenario: &Scenario,
    vpns: &[Vpn],
    flow: &Flow,
) -> Result<IfaceList, NoMemory>
    ensures { IfOk result (λ found. found ≡ receivers_now scenario.now (kept_of joined.now) vpns.now flow.now) }
{
    let Some(vrf) = vrf_of_site(scenario, flow.site) else {
        return Ok(Seq::new(alloc));
    };
    match vpns.get(usize::from(vrf.0)) {
        Some(vpn) => receivers_in(alloc, joined, scenario, vpn, flow),
        None => Ok(Seq::new(alloc)),
    }
}
