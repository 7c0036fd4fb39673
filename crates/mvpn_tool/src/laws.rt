//! What is known of a script and of its runs. No function here does anything: each says what laws of lower crates come to.
ghost use Rattle.std.specs.Prelude.{All, ◌≡◌, ◌≤◌, ◌++◌, ◌∷◌, [], ℕ, List, Option, Ok, length};
ghost use Rattle.scenario_defs.specs.Text.{IsLineOf};
ghost use Rattle.scenario_defs.specs.declared.event.Timed.{Timed};
ghost use Rattle.scenario_defs.specs.declared.scenario.Scenario.{Scenario};
ghost use Rattle.core_pcap.specs.Spelling.{IsHop};
ghost use Rattle.network_defs.specs.Run.{report_of};
ghost use Rattle.scenario_text.specs.Grammar.{script_of};
ghost use Rattle.audit_defs.specs.declared.verdict.ReportLines.{ReportLines};
ghost use Rattle.audit_defs.specs.Verdicts.{HasNoOffence};
ghost use Rattle.audit_text.specs.Texts.{Says};
ghost use Rattle.mvpn_tool.specs.declared.command.Detail.{Detail};
ghost use Rattle.mvpn_tool.specs.declared.command.Output.{Output};
ghost use Rattle.mvpn_tool.specs.declared.command.Output.TheVariants as outputs;
ghost use Rattle.mvpn_tool.specs.declared.sent_hops.SoFar.{SoFar};
ghost use Rattle.hop_laws.specs.run_laws.Octets.{ScriptHasOctets};
ghost use Rattle.network_events.specs.WorldView.{WorldView};
ghost use Rattle.mvpn_tool.specs.Known.{KnownRuns};
ghost use Rattle.mvpn_tool.specs.Outcome.{Place, ReplaysWhole, lines_at};
ghost use Rattle.mvpn_tool.specs.Output.{event_hops};
ghost use Rattle.mvpn_tool.specs.Report.{own_report};

use audit_laws::runs_have_no_offence;
use audit_text::reports_are_said;
use hop_laws::of_license_laws::{halting_runs_are_local, runs_are_local};
use hop_laws::of_run_laws::line_laws::lines_name_what_is_there;
use hop_laws::of_run_laws::of_rule_laws::runs_keep_the_label_rule;
use hop_laws::of_run_laws::script_values::{events_have_octets, scenario_has_octets};
use hop_laws::of_run_laws::{
    a_plain_report_says_as_much, first_events_of_a_run_run, one_run_or_one_halt,
    readable_events_are_sound, state_lines_report_unready,
};
use hop_laws::{hop_lines_name_datagrams, hops_have_spellings};
use network_events::of_network_laws::core_laws::each_scenario_has_cores;
use network_events::of_once_laws::{
    each_run_is_safe, halting_runs_are_safe, halting_runs_deliver_once, runs_deliver_once,
};
use scenario_defs::Script;
use settle_laws::{drain_drains, settle_settles};

/// What a script holds is octets.
pub(crate) fn script_has_octets(script: &Script)
    ensures { ScriptHasOctets script.now }
{
    scenario_has_octets(&script.scenario);
    events_have_octets(script.events.as_slice());
}

/// The lines of an event name what is there.
pub(crate) fn lines_are_known()
    ensures { (output : Output) (scenario : Scenario) (timed : Timed) (view : WorldView) (so_far : SoFar) →
        (place : Place output scenario timed view so_far) → All (IsLineOf scenario) (lines_at output scenario timed view so_far place) }
{
    readable_events_are_sound();
    lines_name_what_is_there();
}

/// The hops of an event have spellings.
pub(crate) fn hops_are_known()
    ensures { (output : Output) (scenario : Scenario) (timed : Timed) (view : WorldView) (so_far : SoFar) →
        (place : Place output scenario timed view so_far) →
        All IsHop (event_hops place.script.events (report_of place.trace) place.count (lines_at output scenario timed view so_far place)) }
{
    readable_events_are_sound();
    hops_have_spellings();
}

/// What laws of runs say of the reports of a script.
pub(crate) fn runs_are_known()
    ensures { KnownRuns }
{
    each_scenario_has_cores();
    readable_events_are_sound();
    each_run_is_safe();
    runs_deliver_once();
    runs_are_local();
    runs_keep_the_label_rule();
    state_lines_report_unready();
    settle_settles();
    drain_drains();
    halting_runs_are_safe();
    halting_runs_deliver_once();
    halting_runs_are_local();
    one_run_or_one_halt();
    first_events_of_a_run_run();
    a_plain_report_says_as_much();
    runs_have_no_offence();
    hop_lines_name_datagrams();
    hops_have_spellings();
}

/// What `replay` writes of all events of a script that ends with a line feed, after that script and the line `report`, is a report without
/// an offence.
pub fn own_reports_have_no_offence()
    ensures { (detail : Detail) (front : List ℕ) (script : Script) (old new : Option (List ℕ)) (view : WorldView) →
        script_of (front ++ 10 ∷ []) ≡ Ok script → (whole : ReplaysWhole (outputs.Report detail) script old new view) →
        length (own_report detail (front ++ 10 ∷ []) script (report_of whole.replayed.trace)) ≤ 16777216 →
        (report : ReportLines) × Says (own_report detail (front ++ 10 ∷ []) script (report_of whole.replayed.trace)) script report
        × HasNoOffence script report }
{
    a_plain_report_says_as_much();
    reports_are_said();
}
