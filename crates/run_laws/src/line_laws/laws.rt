//! The law of the lines of runs.
ghost use Rattle.std.specs.Prelude.{◌≡◌, List, [], ◌∷◌, ◌++◌, All};
ghost use Rattle.mv_base.specs.declared.ids.NodeId.{NodeId};
ghost use Rattle.scenario_defs.specs.Text.{IsLineOf};
ghost use Rattle.scenario_defs.specs.declared.event.Script.{Script};
ghost use Rattle.scenario_defs.specs.declared.event.Timed.{Timed};
ghost use Rattle.scenario_defs.specs.declared.report.ReportLine.TheVariants as lines;
ghost use Rattle.network_defs.specs.Costs.{Cores};
ghost use Rattle.network_defs.specs.Events.{Happened, Done, Halted};
ghost use Rattle.network_defs.specs.Run.{Traced, outcome};
ghost use Rattle.network_defs.specs.World.{World};
ghost use Rattle.delivery_laws.specs.network_laws.Honest.{IsSoundEvent};
ghost use Rattle.delivery_laws.specs.network_laws.SoundRun.{SoundRun};
ghost use Rattle.run_laws.specs.line_laws.Lines.{lines_in};

/// After a run of sound events in a sound scenario, each line of what a sound event does names nodes and interfaces of the scenario.
/// So do the lines of an event that runs out of labels, up to there, and the line of its halt.
pub fn lines_name_what_is_there()
    ensures done { (cores : Cores) (script : Script) (events : List Timed) (trace : List Traced) (world : World) →
        SoundRun cores script events trace world → (timed : Timed) → IsSoundEvent script.scenario timed.event →
        (acts : List Happened) (new : World) → outcome world timed ≡ Done acts new →
        All (IsLineOf script.scenario) (lines_in acts) }
    ensures halted { (cores : Cores) (script : Script) (events : List Timed) (trace : List Traced) (world : World) →
        SoundRun cores script events trace world → (timed : Timed) → IsSoundEvent script.scenario timed.event →
        (acts : List Happened) (node : NodeId) → outcome world timed ≡ Halted acts node →
        All (IsLineOf script.scenario) (lines_in acts ++ lines.Halt timed.line node ∷ []) }
{}
