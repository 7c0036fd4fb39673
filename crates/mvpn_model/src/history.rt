//! Histories of events, and what they mean.
ghost use Rattle.std.specs.Prelude.{◌≡◌, ◌<◌, ◌≤◌, ◌^◌, length, IfOk, IfSome, IfNone};
ghost use Rattle.scenario_defs.specs.Rules.{Rules};
ghost use Rattle.scenario_defs.specs.Home.{home, routes, IsLongest, IsUncovered};
ghost use Rattle.scenario_defs.specs.Vpn.{ifaces_where};
ghost use Rattle.mvpn_model.specs.Past.{past_of, ticks_in, standing, asks, receives, receivers, is_home};

use crate::active::is_active_at;
use crate::routing::longest_route;
use crate::standing::{Followed, Standing, stand_after};
use crate::vpn::vrf_of_site;
use mv_base::{Addr, IfaceId, NoMemory, Seq, SiteId, VrfId};
use pim_defs::asks_by;
use scenario_defs::{Iface, IfaceList, JoinEntry, Scenario, Script, Timed, same_vpn};
use std::alloc::Global;

/// Numbers of lines.
pub type LineNumbers = Seq<u32>;

/// The first events of a script, and the lines of those that were refused.
#[derive(Clone, Copy)]
pub struct History<'a> {
    pub script: &'a Script,
    /// How many events there were so far.
    pub upto: u32,
    pub refused: &'a LineNumbers,
}

/// The events of the history.
pub(crate) fn events_of<'a>(history: &History<'a>) -> &'a [Timed]
    requires { history.now.upto ≤ length history.now.script.now.events }
    ensures { result.now ≡ (past_of history.now).events }
{
    &history.script.events.as_slice()[..history.upto as usize]
}

/// The site that is home of the source in the VRF's VPN: that of the longest prefix that covers it, of the prefixes of
/// all sites attached to the VPN. `None` exactly where no prefix of an attached site covers the source.
pub fn home(history: &History<'_>, vrf: VrfId, source: Addr) -> Option<SiteId>
    requires { Rules history.now.script.now.scenario }
    ensures value { result ≡ home history.now.script.now.scenario vrf source }
    ensures longest { IfSome result (IsLongest (routes history.now.script.now.scenario vrf) source) }
    ensures none { IfNone result (IsUncovered (routes history.now.script.now.scenario vrf) source) }
{
    site_of_longest(&history.script.scenario, vrf, source)
}

fn site_of_longest(scenario: &Scenario, vrf: VrfId, source: Addr) -> Option<SiteId>
    requires { length scenario.now.sites ≤ 2 ^ 16 }
    ensures { result ≡ home scenario.now vrf source }
{
    longest_route(scenario, vrf, source).map(|route| route.site)
}

/// Where an entry of the interface stands after the history.
fn stands(
    alloc: Global,
    history: &History<'_>,
    iface: IfaceId,
    entry: JoinEntry,
) -> Result<Standing, NoMemory>
    requires upto { history.now.upto ≤ length history.now.script.now.events }
    requires clock { ticks_in (past_of history.now).events < 2 ^ 63 }
    ensures { IfOk result (λ found. found ≡ standing (past_of history.now) iface entry) }
{
    let followed = Followed {
        scenario: &history.script.scenario,
        refused: history.refused.as_slice(),
        iface,
        entry,
    };
    stand_after(alloc, &followed, events_of(history))
}

/// Whether the interface asks for (S,G) (RFC 7761 section 4.1.5).
pub fn asks(
    alloc: Global,
    history: &History<'_>,
    iface: IfaceId,
    source: Addr,
    group: Addr,
) -> Result<bool, NoMemory>
    requires rules { Rules history.now.script.now.scenario }
    requires upto { history.now.upto ≤ length history.now.script.now.events }
    requires clock { ticks_in (past_of history.now).events < 2 ^ 63 }
    ensures { IfOk result (λ answer. answer ≡ asks (past_of history.now) iface source group) }
{
    let joined = stands(alloc, history, iface, JoinEntry::Source { source, group })?;
    let shared = stands(alloc, history, iface, JoinEntry::Star { group })?;
    let pruned = stands(alloc, history, iface, JoinEntry::Rpt { source, group })?;
    Ok(asks_by(
        joined.clock,
        is_active_at(history, iface, source, group),
        joined.expiry,
        shared.expiry,
        pruned.expiry,
    ))
}

/// Whether the site is the home of the source in the VRF's VPN.
fn is_home(history: &History<'_>, vrf: VrfId, source: Addr, site: SiteId) -> bool
    requires { Rules history.now.script.now.scenario }
    ensures { result ≡ is_home history.now.script.now.scenario vrf source site }
{
    match home(history, vrf, source) {
        Some(found) => found.0 == site.0,
        None => false,
    }
}

/// Whether an interface is of the VRF's VPN, belongs to another site, and asks for (S,G).
fn receives(
    alloc: Global,
    history: &History<'_>,
    vrf: VrfId,
    site: SiteId,
    source: Addr,
    group: Addr,
    number: IfaceId,
    iface: &Iface,
) -> Result<bool, NoMemory>
    requires rules { Rules history.now.script.now.scenario }
    requires upto { history.now.upto ≤ length history.now.script.now.events }
    requires clock { ticks_in (past_of history.now).events < 2 ^ 63 }
    ensures { IfOk result (λ answer. answer ≡ receives (past_of history.now) vrf site source group number iface.now) }
{
    let elsewhere = same_vpn(&history.script.scenario, vrf, iface.vrf) && iface.site.0 != site.0;
    if !elsewhere {
        return Ok(false);
    }
    asks(alloc, history, number, source, group)
}

/// The receivers of (S,G) from the site: where the site is attached to a VPN and is the home of S there, all interfaces
/// of that VPN that belong to another site and ask for (S,G), in order; otherwise none.
pub fn receivers(
    alloc: Global,
    history: &History<'_>,
    site: SiteId,
    source: Addr,
    group: Addr,
) -> Result<IfaceList, NoMemory>
    requires rules { Rules history.now.script.now.scenario }
    requires upto { history.now.upto ≤ length history.now.script.now.events }
    requires clock { ticks_in (past_of history.now).events < 2 ^ 63 }
    ensures { IfOk result (λ ifaces. ifaces ≡ receivers (past_of history.now) site source group) }
{
    match vrf_of_site(&history.script.scenario, site) {
        Some(vrf) if is_home(history, vrf, source, site) => {
            receiving(alloc, history, vrf, site, source, group)
        }
        _ => Ok(Seq::new(alloc)),
    }
}

/// The interfaces that receive (S,G) from the site in the VRF's VPN, in order.
fn receiving(
    alloc: Global,
    history: &History<'_>,
    vrf: VrfId,
    site: SiteId,
    source: Addr,
    group: Addr,
) -> Result<IfaceList, NoMemory>
    requires rules { Rules history.now.script.now.scenario }
    requires upto { history.now.upto ≤ length history.now.script.now.events }
    requires clock { ticks_in (past_of history.now).events < 2 ^ 63 }
    ensures { IfOk result (λ ifaces. ifaces ≡ ifaces_where (receives (past_of history.now) vrf site source group) 0
        history.now.script.now.scenario.ifaces) }
{
    let mut found = Seq::new(alloc);
    let ifaces = history.script.scenario.ifaces.as_slice();
    for (number, iface) in ifaces.iter().enumerate() {
        let id = IfaceId(number as u16);
        if receives(alloc, history, vrf, site, source, group, id, iface)? {
            found.push(id)?;
        }
    }
    Ok(found)
}
