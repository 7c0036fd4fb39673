//! A law of runs of the whole network.
ghost use Rattle.std.specs.Prelude.{◌≡◌, List};
ghost use Rattle.scenario_defs.specs.Rules.{Rules, Rises};
ghost use Rattle.scenario_defs.specs.declared.event.Script.{Script};
ghost use Rattle.scenario_defs.specs.declared.event.Timed.{Timed};
ghost use Rattle.network_defs.specs.mvpn_model.Report.{refused_lines};
ghost use Rattle.network_defs.specs.Costs.{Cores};
ghost use Rattle.network_defs.specs.Counts.{unready};
ghost use Rattle.network_defs.specs.Run.{Traced, Run, report_of};
ghost use Rattle.network_defs.specs.mvpn_model.Unready.{unready_after};
ghost use Rattle.network_defs.specs.World.{World};

/// How many sessions are not ready after a run is what the events of the script say, and which of them were refused. By its rules
/// the links of a scenario join nodes of it, and `settle` runs the timers of no others.
pub fn unready_is_told_by_the_events()
    ensures { (cores : Cores) (script : Script) (events : List Timed) (trace : List Traced) (new : World) →
        Rules script.scenario → Rises 0 events →
        Run cores script events trace new →
        unready new ≡ unready_after (record { scenario = script.scenario; events = events; refused = refused_lines (report_of trace) }) }
{}
