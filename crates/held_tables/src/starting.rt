//! What each peer is to have before anything happens (RFC 6514 section 9.1.1; RFC 4364 section 4.3).
ghost use Rattle.std.specs.Prelude.{◌≡◌, map, All, OnOk, OnErr};
ghost use Rattle.std.specs.List.{flat_map};
ghost use Rattle.mv_base.specs.core_walks.Core.{Core};
ghost use Rattle.scenario_defs.specs.Rules.{IsSitePrefix};
ghost use Rattle.edge_defs.specs.Edge.{no_control};
ghost use Rattle.edge_routes.specs.edge_home.Home.{as_own, place_of};
ghost use Rattle.edge_routes.specs.Local.{IsAt};
ghost use Rattle.edge_tables.specs.Tables.{EachPeer};
ghost use Rattle.held_tables.specs.Holding.{AreToldAlike, HoldAll};
ghost use Rattle.held_tables.specs.Starting.{
  AreEmpty,
  HasFront,
  all_start_routes,
  home_place,
  inclusive_routes,
  prefix_routes,
  start_routes,
  with_routes,
};

use crate::keys;
use edge_routes::edge_home::{EdgeHome, OwnVrf};
use edge_routes::route_order::TableValue;
use edge_routes::{LocalVrf, tunnel_number, tunnel_value, unicast_value};
use edge_tables::EdgeTables;
use mv_base::NoMemory;
use mvpn_model::local_routes;
use scenario_defs::Route;
use std::alloc::Global;

/// Each peer is to have a unicast route of that value for each of the prefixes.
fn hold_prefixes(
    tables: &mut EdgeTables,
    own: &LocalVrf,
    value: &TableValue,
    routes: &[Route],
) -> Result<(), NoMemory>
    requires { All (λ route. IsSitePrefix route.prefix) routes.now }
    ensures set { OnOk result (EachPeer (λ before thereafter.
        thereafter ≡ with_routes (prefix_routes own.now.vrf.rd value.now routes.now) before) tables.old tables.new) }
    ensures partly { OnErr result (
        EachPeer (HasFront (prefix_routes own.now.vrf.rd value.now routes.now)) tables.old tables.new) }
{
    for route in routes {
        let key = keys::unicast_key(own, route.prefix);
        tables.set(&key, value)?;
    }
    Ok(())
}

/// Each peer is to have the inclusive route of the VRF.
fn hold_inclusive(tables: &mut EdgeTables, home: &EdgeHome, own: &OwnVrf) -> Result<(), NoMemory>
    requires { IsAt (home_place home.now) own.now.local }
    ensures set { OnOk result (EachPeer (λ before thereafter.
        thereafter ≡ with_routes (inclusive_routes (home_place home.now) (as_own own.now)) before) tables.old tables.new) }
    ensures partly { OnErr result (
        EachPeer (HasFront (inclusive_routes (home_place home.now) (as_own own.now))) tables.old tables.new) }
{
    let key = keys::inclusive_key(&own.local);
    let value = tunnel_value(&own.local, tunnel_number(own.local.vrf(), 0));
    tables.set(&key, &value)
}

/// Each peer is to have the first routes of the VRF: its inclusive route, and the unicast routes of the sites that are attached at it.
fn hold_vrf(
    tables: &mut EdgeTables,
    alloc: Global,
    home: &EdgeHome,
    own: &OwnVrf,
) -> Result<(), NoMemory>
    requires { IsAt (home_place home.now) own.now.local }
    ensures set { OnOk result (EachPeer (λ before thereafter.
        thereafter ≡ with_routes (start_routes (home_place home.now) (as_own own.now)) before) tables.old tables.new) }
    ensures partly { OnErr result (
        EachPeer (HasFront (start_routes (home_place home.now) (as_own own.now))) tables.old tables.new) }
{
    hold_inclusive(tables, home, own)?;
    let value = unicast_value(&own.local);
    let routes = local_routes(alloc, home.scenario(), own.id)?;
    hold_prefixes(tables, &own.local, &value, routes.as_slice())
}

/// Each peer is to have the first routes of these VRFs.
fn hold_vrfs(
    tables: &mut EdgeTables,
    alloc: Global,
    home: &EdgeHome,
    vrfs: &[OwnVrf],
) -> Result<(), NoMemory>
    requires { All (λ own. IsAt (home_place home.now) own.local) vrfs.now }
    ensures set { OnOk result (EachPeer (λ before thereafter.
        thereafter ≡ with_routes (flat_map (start_routes (home_place home.now)) (map as_own vrfs.now)) before) tables.old tables.new) }
    ensures partly { OnErr result (
        EachPeer (HasFront (flat_map (start_routes (home_place home.now)) (map as_own vrfs.now))) tables.old tables.new) }
{
    for own in vrfs {
        hold_vrf(tables, alloc, home, own)?;
    }
    Ok(())
}

/// In tables without a route, each peer is to have what the edge holds before anything happens: of each of its VRFs the Intra-AS I-PMSI
/// A-D route, and a unicast route for each prefix of each site that is attached at it. Where memory runs out, each peer is to have
/// some first ones of these.
pub fn start(tables: &mut EdgeTables, alloc: Global, home: &EdgeHome) -> Result<(), NoMemory>
    requires { AreEmpty tables.now }
    ensures held { OnOk result ((core : Core) → HoldAll (place_of home.now core) no_control tables.new) }
    ensures partly { OnErr result ((core : Core) →
        EachPeer (HasFront (all_start_routes (place_of home.now core))) tables.old tables.new) }
    ensures told { AreToldAlike tables.old tables.new }
{
    hold_vrfs(tables, alloc, home, home.vrfs())
}
