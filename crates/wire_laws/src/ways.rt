//! Laws of the directions of a scenario's sessions.
ghost use Rattle.std.specs.Prelude.{◌≡◌, ◌↔◌, ◌<◌, ◌++◌, ◌∷◌, List, length};
ghost use Rattle.mv_base.specs.Lists.{Among};
ghost use Rattle.mv_base.specs.declared.ids.NodeId.{NodeId};
ghost use Rattle.scenario_defs.specs.Rules.{AreLinked, IsEdge, Rules};
ghost use Rattle.scenario_defs.specs.declared.event.Kind.{Kind};
ghost use Rattle.scenario_defs.specs.declared.event.Kind.TheVariants as kinds;
ghost use Rattle.scenario_defs.specs.declared.scenario.Scenario.{Scenario};
ghost use Rattle.network_defs.specs.declared.session_defs.direction.Direction.{Direction};
ghost use Rattle.edge_routes.specs.edge_home.Home.{home_of, peers_of};
ghost use Rattle.network_defs.specs.Counts.{direction, directions};
ghost use Rattle.wire_laws.specs.Edges.{IsWay};
ghost use Rattle.wire_laws.specs.Ways.{IsFound};

/// The directions of a scenario are those of each two edges over BGP and of each link over LDP, both ways, and each is there once.
pub fn ways_of_a_scenario()
    ensures reverse { (scenario : Scenario) (kind : Kind) (a b : NodeId) → Rules scenario →
        IsWay scenario (direction kind a b) → IsWay scenario (direction kind b a) }
    ensures ends { (scenario : Scenario) (kind : Kind) (a b : NodeId) → Rules scenario → IsWay scenario (direction kind a b) →
        (a.0 < length scenario.nodes) × (b.0 < length scenario.nodes) × ¬ (a ≡ b) }
    ensures edges { (scenario : Scenario) (a b : NodeId) → Rules scenario → IsWay scenario (direction kinds.Bgp a b) →
        IsEdge scenario a × IsEdge scenario b × Among b (peers_of (home_of scenario a)) }
    ensures linked { (scenario : Scenario) (a b : NodeId) → Rules scenario →
        IsWay scenario (direction kinds.Ldp a b) ↔ AreLinked scenario a b }
    ensures bgp { (scenario : Scenario) (a b : NodeId) → Rules scenario → IsEdge scenario a → IsEdge scenario b → ¬ (a ≡ b) →
        IsWay scenario (direction kinds.Bgp a b) }
    ensures once { (scenario : Scenario) (before after : List Direction) (over : Direction) → Rules scenario →
        directions scenario ≡ before ++ over ∷ after → ¬ (Among over before) }
    ensures found { (scenario : Scenario) (kind : Kind) (a b : NodeId) → Rules scenario →
        IsWay scenario (direction kind a b) → IsFound scenario kind a b }
{}
