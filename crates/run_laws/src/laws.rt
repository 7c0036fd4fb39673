//! Laws of runs of whole scripts.
ghost use Rattle.std.specs.Prelude.{◌≡◌, ◌↔◌, ℕ, Bool, true, List, ◌++◌, take, filter};
ghost use Rattle.std.specs.List.{AllByRecursion};
ghost use Rattle.mv_base.specs.declared.ids.NodeId.{NodeId};
ghost use Rattle.scenario_defs.specs.Rules.{Rules, Rises, ScriptRules, IsEventOf};
ghost use Rattle.scenario_defs.specs.declared.event.Event.{Event};
ghost use Rattle.scenario_defs.specs.declared.event.Script.{Script};
ghost use Rattle.scenario_defs.specs.declared.event.Timed.{Timed};
ghost use Rattle.scenario_defs.specs.declared.report.ReportLine.{ReportLine};
ghost use Rattle.scenario_defs.specs.declared.scenario.Scenario.{Scenario};
ghost use Rattle.mvpn_model.specs.Once.{Once};
ghost use Rattle.mvpn_model.specs.Report.{Entry, lines_of, refused_lines};
ghost use Rattle.mvpn_model.specs.Safe.{Safe};
ghost use Rattle.network_defs.specs.Costs.{Cores, AreCoresOf};
ghost use Rattle.network_defs.specs.Run.{Traced, Run, Halts, report_of};
ghost use Rattle.network_defs.specs.World.{World};
ghost use Rattle.delivery_laws.specs.network_laws.Honest.{IsSoundEvent};
ghost use Rattle.delivery_laws.specs.network_laws.SoundRun.{SoundRun};
ghost use Rattle.run_laws.specs.Octets.{EventHasOctets, ScriptHasOctets};
ghost use Rattle.run_laws.specs.Plain.{is_plain, plain};
ghost use Rattle.run_laws.specs.Ready.{ReportsUnready};
ghost use Rattle.run_laws.specs.Runs.{of_events, RunsOrHalts, RunsInTwo, ReportBegins};

/// An event that a scenario allows is of sound values. So where a script meets its rules, each run of first events of it is one of
/// sound events in a sound scenario, of which the laws of runs speak.
pub fn readable_events_are_sound()
    ensures event { (scenario : Scenario) (event : Event) → Rules scenario → IsEventOf scenario event → EventHasOctets event →
        IsSoundEvent scenario event }
    ensures events { (script : Script) (count : ℕ) → ScriptRules script → ScriptHasOctets script →
        AllByRecursion (λ (timed : Timed). IsSoundEvent script.scenario timed.event) (take count script.events) }
    ensures run { (cores : Cores) (script : Script) (count : ℕ) (trace : List Traced) (new : World) →
        ScriptRules script → ScriptHasOctets script → AreCoresOf script.scenario cores →
        Run cores script (take count script.events) trace new → SoundRun cores script (take count script.events) trace new }
{}

/// By the cores of the script's scenario any events either run, or halt at one of them and at one node; never both. What happens in the
/// run is one, and so are the halt and its report.
pub fn one_run_or_one_halt()
    ensures either { (cores : Cores) (script : Script) (events : List Timed) → AreCoresOf script.scenario cores →
        RunsOrHalts cores (of_events script events) }
    ensures never_both { (cores : Cores) (script : Script) (events : List Timed) (trace : List Traced) (new : World)
        (report : List Entry) (node : NodeId) → Run cores script events trace new → Halts cores (of_events script events) report node → ⊥ }
    ensures one_run { (cores : Cores) (script : Script) (events : List Timed) (trace other : List Traced) (new last : World) →
        Run cores script events trace new → Run cores script events other last → (trace ≡ other) × (new ≡ last) }
    ensures one_halt { (cores : Cores) (script : Script) (report other : List Entry) (node last : NodeId)
        (halt : Halts cores script report node) (again : Halts cores script other last) →
        (halt.before ≡ again.before) × (halt.timed ≡ again.timed) × (node ≡ last) × (report ≡ other) }
{}

/// Where events run, the first of them do, and what happens in these is the front of what happens. So it is with the events before a
/// halt: the report of the halt begins with what happens in them.
pub fn first_events_of_a_run_run()
    ensures run { (cores : Cores) (script : Script) (first more : List Timed) (trace : List Traced) (new : World) →
        Run cores script (first ++ more) trace new → RunsInTwo cores script first more trace new }
    ensures halt { (cores : Cores) (script : Script) (report : List Entry) (node : NodeId)
        (halt : Halts cores script report node) (first more : List Timed) → halt.before ≡ first ++ more →
        ReportBegins cores script first report }
{}

/// A plain report has the lines of its report, in their order, but for those of the wire. It refuses the same events, and is safe or
/// delivers once exactly where the report does.
pub fn a_plain_report_says_as_much()
    ensures lines { (report : List Entry) → lines_of (plain report) ≡ filter is_plain (lines_of report) }
    ensures kept { (test : ReportLine → Bool) → ((line : ReportLine) → test line ≡ true → is_plain line ≡ true) →
        (report : List Entry) → filter test (lines_of (plain report)) ≡ filter test (lines_of report) }
    ensures refused { (report : List Entry) → refused_lines (plain report) ≡ refused_lines report }
    ensures safe { (scenario : Scenario) (events : List Timed) (refused : List ℕ) (report : List Entry) →
        Safe scenario events refused (plain report) ↔ Safe scenario events refused report }
    ensures once { (scenario : Scenario) (events : List Timed) (refused : List ℕ) (report : List Entry) →
        Once scenario events refused (plain report) ↔ Once scenario events refused report }
{}

/// The last number of each `state` line of a run is how many sessions are not ready by the events before it alone, where the refused
/// ones are left out.
pub fn state_lines_report_unready()
    ensures { (cores : Cores) (script : Script) (events : List Timed) (trace : List Traced) (new : World) →
        Rules script.scenario → Rises 0 events → Run cores script events trace new →
        ReportsUnready script.scenario events (refused_lines (report_of trace)) (report_of trace) }
{}
