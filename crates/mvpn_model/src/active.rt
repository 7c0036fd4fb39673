//! Which sources are known to send after events.
ghost use Rattle.std.specs.Prelude.{◌≡◌, ◌≤◌, ◌^◌, ◌==◌, ◌&&◌, false, length};
ghost use Rattle.std.specs.List.{fold, list_any};
ghost use Rattle.mv_base.specs.Address.{same_addr};
ghost use Rattle.scenario_defs.specs.declared.event.Event.TheVariants as events;
ghost use Rattle.scenario_defs.specs.Vpn.{same_vpn, ifaces_where};
ghost use Rattle.mvpn_model.specs.Past.{past_of, is_flow_at, noted_by, noted_after, is_noted, is_active, is_active_at};

use crate::history::{History, events_of};
use crate::standing::{is_accepted, is_of_edge};
use mv_base::{Addr, IfaceId, VrfId};
use scenario_defs::{CustomerEvent, Event, Scenario, Timed, same_vpn};

/// A flow of one interface that is followed through events.
#[derive(Clone, Copy)]
struct Noted<'a> {
    scenario: &'a Scenario,
    refused: &'a [u32],
    iface: IfaceId,
    source: Addr,
    group: Addr,
}

/// Whether these are the flow and the interface.
fn is_flow_at(noted: &Noted<'_>, iface: IfaceId, source: Addr, group: Addr) -> bool
    ensures { result ≡ is_flow_at noted.now.iface noted.now.source noted.now.group iface source group }
{
    noted.iface.0 == iface.0 && noted.source.same(source) && noted.group.same(group)
}

/// Whether the flow is noted after an accepted event of a customer, by whether it was before.
fn noted_by_customer(noted: &Noted<'_>, event: &CustomerEvent, old: bool) -> bool
    ensures { result ≡ noted_by noted.now.scenario.now noted.now.iface noted.now.source noted.now.group (events.Customer event.now) old }
{
    match event {
        CustomerEvent::Active {
            iface,
            source,
            group,
        } => old || is_flow_at(noted, *iface, *source, *group),
        CustomerEvent::Idle {
            iface,
            source,
            group,
        } => old && !is_flow_at(noted, *iface, *source, *group),
        _ => old,
    }
}

/// Whether the flow is noted after an accepted event, by whether it was before.
fn noted_by(noted: &Noted<'_>, event: &Event, old: bool) -> bool
    ensures { result ≡ noted_by noted.now.scenario.now noted.now.iface noted.now.source noted.now.group event.now old }
{
    match event {
        Event::Customer(event) => noted_by_customer(noted, event, old),
        Event::Restart { node } => old && !is_of_edge(noted.scenario, *node, noted.iface),
        _ => old,
    }
}

fn noted_after(noted: &Noted<'_>, old: bool, timed: &Timed) -> bool
    ensures { result ≡ noted_after noted.now.scenario.now noted.now.refused.now noted.now.iface noted.now.source noted.now.group
        old timed.now }
{
    if is_accepted(noted.refused, timed) {
        noted_by(noted, &timed.event, old)
    } else {
        old
    }
}

/// Whether the flow is noted after all events.
fn noted_thereafter(noted: &Noted<'_>, events: &[Timed]) -> bool
    ensures { result ≡ fold
        (noted_after noted.now.scenario.now noted.now.refused.now noted.now.iface noted.now.source noted.now.group)
        false events.now }
{
    let mut is_noted = false;
    for timed in events {
        is_noted = noted_after(noted, is_noted, timed);
    }
    is_noted
}

/// Whether S is noted at the interface as a sender to G.
fn is_noted(history: &History<'_>, iface: IfaceId, source: Addr, group: Addr) -> bool
    requires upto { history.now.upto ≤ length history.now.script.now.events }
    ensures { result ≡ is_noted (past_of history.now) iface source group }
{
    let noted = Noted {
        scenario: &history.script.scenario,
        refused: history.refused.as_slice(),
        iface,
        source,
        group,
    };
    noted_thereafter(&noted, events_of(history))
}

/// Whether S is known in the VRF's VPN to send to G.
fn is_active(history: &History<'_>, vrf: VrfId, source: Addr, group: Addr) -> bool
    requires few { length history.now.script.now.scenario.ifaces ≤ 2 ^ 16 }
    requires upto { history.now.upto ≤ length history.now.script.now.events }
    ensures { result ≡ is_active (past_of history.now) vrf source group }
{
    let mut active = false;
    let ifaces = history.script.scenario.ifaces.as_slice();
    for (number, iface) in ifaces.iter().enumerate() {
        let id = IfaceId(number as u16);
        if same_vpn(&history.script.scenario, vrf, iface.vrf) {
            active = active || is_noted(history, id, source, group);
        }
    }
    active
}

/// Whether S is known in the interface's VPN to send to G.
pub(crate) fn is_active_at(history: &History<'_>, iface: IfaceId, source: Addr, group: Addr) -> bool
    requires few { length history.now.script.now.scenario.ifaces ≤ 2 ^ 16 }
    requires upto { history.now.upto ≤ length history.now.script.now.events }
    ensures { result ≡ is_active_at (past_of history.now) iface source group }
{
    match history
        .script
        .scenario
        .ifaces
        .as_slice()
        .get(iface.0 as usize)
    {
        Some(own) => is_active(history, own.vrf, source, group),
        None => false,
    }
}
