//! Laws of runs of the whole network.
ghost use Rattle.std.specs.Prelude.{◌≡◌, ℕ, List, [], ◌∷◌, Some, None};
ghost use Rattle.scenario_defs.specs.declared.event.Script.{Script};
ghost use Rattle.scenario_defs.specs.declared.event.Timed.{Timed};
ghost use Rattle.scenario_defs.specs.declared.report.Refusal.{Refusal};
ghost use Rattle.scenario_defs.specs.declared.report.ReportLine.TheVariants as lines;
ghost use Rattle.network_defs.specs.Events.{Done};
ghost use Rattle.network_defs.specs.Example.{LabelSessionsComeUp};
ghost use Rattle.network_defs.specs.Refusals.{refusal};
ghost use Rattle.network_defs.specs.Run.{Traced, RunOf, outcome};
ghost use Rattle.network_defs.specs.World.{World};

/// The first events of a script have at most one run: the script tells what happens in them, and the network after them.
pub fn a_script_has_one_run()
    ensures { (script : Script) (count : ℕ) (trace other : List Traced) (new last : World) → RunOf script count trace new →
        RunOf script count other last → (trace ≡ other) × (new ≡ last) }
{}

/// A refused event changes nothing and gives the one line that says so.
pub fn a_refused_event_changes_nothing()
    ensures { (world : World) (timed : Timed) (reason : Refusal) → refusal world timed.event ≡ Some reason →
        outcome world timed ≡ Done (record { act = None; lines = lines.Refused timed.line reason ∷ [] } ∷ []) world }
{}

/// Of two edges and a core node, the LDP sessions come up and are ready after their holds; one is lost, and comes up again once both of
/// its ends have noticed that.
pub fn label_sessions_come_up()
    ensures { LabelSessionsComeUp }
{}
