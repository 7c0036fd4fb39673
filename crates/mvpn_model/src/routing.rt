//! The routes of a VRF, and the home of a source.
ghost use Rattle.std.specs.Prelude.{◌≡◌, ◌≤◌, ◌^◌, ◌++◌, filter, length, IfOk, OnOk};
ghost use Rattle.mv_base.specs.Prefix.{covers};
ghost use Rattle.scenario_defs.specs.Home.{routes, local_routes, routes_of_site, longer, longest_after, home_by};
ghost use Rattle.std.specs.List.{list_any};
ghost use Rattle.scenario_defs.specs.Vpn.{is_attached_at, is_of_site, is_of_vrf};

use crate::vpn::is_attached;
use mv_base::{Addr, NoMemory, Prefix, Seq, SiteId, VrfId};
use scenario_defs::{Iface, Route, Scenario};
use std::alloc::Global;

/// The longer of two routes, and the first of two that are equally long.
fn longer(best: Option<Route>, route: Route) -> Option<Route>
    ensures { result ≡ longer best route }
{
    match best {
        Some(kept) if route.prefix.bits <= kept.prefix.bits => Some(kept),
        _ => Some(route),
    }
}

/// Of the best so far and those of the routes that cover the source, the longest.
fn longest_among(best: Option<Route>, routes: &[Route], source: Addr) -> Option<Route>
    ensures { result ≡ longest_after best (filter (λ route. covers route.prefix source) routes.now) }
{
    let mut longest = best;
    for route in routes {
        if route.prefix.covers(source) {
            longest = longer(longest, *route);
        }
    }
    longest
}

/// Of the best so far and those of a site's prefixes that cover the source, the longest.
fn longest_of_site(
    best: Option<Route>,
    site: SiteId,
    prefixes: &[Prefix],
    source: Addr,
) -> Option<Route>
    ensures { result ≡ longest_after best (filter (λ route. covers route.prefix source) (routes_of_site site prefixes.now)) }
{
    let mut longest = best;
    for prefix in prefixes {
        if prefix.covers(source) {
            longest = longer(
                longest,
                Route {
                    prefix: *prefix,
                    site,
                },
            );
        }
    }
    longest
}

/// The site of the longest of the routes that cover the source (RFC 6513 section 5.1).
pub fn home_among(routes: &[Route], source: Addr) -> Option<SiteId>
    ensures { result ≡ home_by routes.now source }
{
    longest_among(None, routes, source).map(|route| route.site)
}

/// The longest route to the source in the VRF's VPN.
pub(crate) fn longest_route(scenario: &Scenario, vrf: VrfId, source: Addr) -> Option<Route>
    requires { length scenario.now.sites ≤ 2 ^ 16 }
    ensures { result ≡ longest_after None (filter (λ route. covers route.prefix source) (routes scenario.now vrf)) }
{
    let mut longest = None;
    let sites = scenario.sites.as_slice();
    for (number, site) in sites.iter().enumerate() {
        let id = SiteId(number as u16);
        if is_attached(scenario, vrf, id) {
            longest = longest_of_site(longest, id, site.prefixes.as_slice(), source);
        }
    }
    longest
}

/// Adds the routes of a site.
fn add_routes(routes: &mut Seq<Route>, site: SiteId, prefixes: &[Prefix]) -> Result<(), NoMemory>
    ensures { OnOk result (routes.new ≡ routes.old ++ routes_of_site site prefixes.now) }
{
    for prefix in prefixes {
        routes.push(Route {
            prefix: *prefix,
            site,
        })?;
    }
    Ok(())
}

/// The interfaces of the VRF.
fn own_ifaces(alloc: Global, ifaces: &[Iface], vrf: VrfId) -> Result<Vec<Iface>, NoMemory>
    ensures { IfOk result (λ own. own.items ≡ filter (is_of_vrf vrf) ifaces.now) }
{
    let mut own = Vec::new(alloc);
    for iface in ifaces {
        if iface.vrf.0 == vrf.0 {
            own.push(*iface)?;
        }
    }
    Ok(own)
}

/// Whether one of the interfaces belongs to the site.
fn has_site(ifaces: &[Iface], site: SiteId) -> bool
    ensures { result ≡ list_any (is_of_site site) ifaces.now }
{
    ifaces.iter().any(|iface| iface.site.0 == site.0)
}

/// Whether the site is attached at the VRF that has these interfaces.
fn is_local(own: &[Iface], _scenario: &Scenario, _vrf: VrfId, site: SiteId) -> bool
    requires { own.now ≡ filter (is_of_vrf _vrf) _scenario.now.ifaces }
    ensures { result ≡ is_attached_at _scenario.now _vrf site }
{
    has_site(own, site)
}

/// The local routes of the VRF: each prefix of each site that is attached at the VRF itself, in order of sites.
pub fn local_routes(alloc: Global, scenario: &Scenario, vrf: VrfId) -> Result<Seq<Route>, NoMemory>
    requires { length scenario.now.sites ≤ 2 ^ 16 }
    ensures { IfOk result (λ all. all ≡ local_routes scenario.now vrf) }
{
    let own = own_ifaces(alloc, scenario.ifaces.as_slice(), vrf)?;
    let mut all = Seq::new(alloc);
    let sites = scenario.sites.as_slice();
    for (number, site) in sites.iter().enumerate() {
        let id = SiteId(number as u16);
        if is_local(&own, scenario, vrf, id) {
            add_routes(&mut all, id, site.prefixes.as_slice())?;
        }
    }
    Ok(all)
}
