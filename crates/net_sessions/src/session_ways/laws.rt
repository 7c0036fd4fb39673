//! A law of what is made of the directions that lead away from a node.
ghost use Rattle.std.specs.Prelude.{◌≡◌, [], List, flat_map};
ghost use Rattle.mv_base.specs.declared.ids.NodeId.{NodeId};
ghost use Rattle.scenario_defs.specs.declared.report.ReportLine.{ReportLine};
ghost use Rattle.network_defs.specs.declared.session_defs.direction.Direction.{Direction};
ghost use Rattle.net_sessions.specs.session_ways.Ways.{ways_from};

/// Where directions that lead away from other nodes give no line of a report, the lines of the directions that lead away from one
/// node are those of all directions.
pub fn lines_go_by_ways()
    ensures { (line : Direction → List ReportLine) (n : NodeId) (all : List Direction) →
        ((over : Direction) → ¬ (over.from ≡ n) → line over ≡ []) →
        flat_map line (ways_from n all) ≡ flat_map line all }
{}
