//! Laws of joins that change.
ghost use Rattle.std.specs.Prelude.{ℕ, List, Option};
ghost use Rattle.std.specs.FinMap.{FinMap};
ghost use Rattle.edge_defs.specs.Edge.{Control, Upstream, flow_cmp};
ghost use Rattle.edge_defs.specs.Place.{EdgePlace};
ghost use Rattle.edge_defs.specs.Steps.{refreshed};
ghost use Rattle.edge_control.specs.edge_tables.Tables.{Tables};
ghost use Rattle.vrf_words.specs.tree_laws.Joins.{AreOfVrfs};
ghost use Rattle.edge_control.specs.vrf_trees.declared.changes.TreeJoin.{TreeJoin};
ghost use Rattle.held_tables.specs.Holding.{HoldAll};
ghost use Rattle.held_tables.specs.Joins.{HoldAllBut, with_flows};
ghost use Rattle.edge_control.specs.Refreshing.{AreChanged};
ghost use Rattle.edge_routing.specs.edge_joins.Keys.{keys_of};
ghost use Rattle.edge_routing.specs.edge_joins.Upstreams.{HaveIpv4Imports};

/// Where flows alone change, the joins that a refresh lists are all that the tables are to change.
pub fn changed_joins_are_left()
    ensures { (place : EdgePlace) (old : Control) (flows : FinMap flow_cmp (Option Upstream)) (joins : List TreeJoin) (tables : Tables) →
        AreOfVrfs place old → AreOfVrfs place (with_flows old flows) → AreChanged old.flows flows joins → HoldAll place old tables →
        HoldAllBut place (with_flows old flows) (keys_of joins) tables }
{}

/// After a refresh each flow's upstream at another edge is named by a VRF Route Import of an IPv4 address, since a unicast route is used
/// only with one (RFC 6514 section 7).
pub fn refreshed_imports_are_ipv4()
    ensures { (place : EdgePlace) (now : ℕ) (control : Control) → HaveIpv4Imports (refreshed place now control) }
{}
