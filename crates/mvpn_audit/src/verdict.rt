//! The judgement of a finished report.
ghost use Rattle.std.specs.Prelude.{◌≡◌, Some, None, IfOk};
ghost use Rattle.audit_events.specs.audit_defs.Verdicts.{IsVerdict};
ghost use Rattle.audit_events.specs.scenario_defs.Rules.{ScriptRules};
ghost use Rattle.audit_events.specs.Case.{IsCase};
ghost use Rattle.audit_events.specs.Marking.{ComesAfter};
ghost use Rattle.audit_events.specs.Sents.{sents_of};
ghost use Rattle.mvpn_audit.specs.Findings.{AreFound};
ghost use Rattle.mvpn_audit.specs.Missing.{line_in};

use crate::exits::out_lines;
use crate::findings::{Findings, find};
use crate::judging::read;
use audit_events::of_audit_defs::{Offence, ReportLines, Verdict};
use audit_events::of_mv_base::NoMemory;
use audit_events::of_scenario_defs::{Script, Timed};
use audit_events::{Case, Marking, mark};
use std::alloc::Global;

/// The line of the event of that number.
fn line_in(events: &[Timed], event: usize) -> u32
    ensures { result ≡ line_in events.now event }
{
    match events.get(event) {
        Some(timed) => timed.line,
        None => 0,
    }
}

/// The least offence of a report without a datagram that is missing.
fn first_offence(alloc: Global, case: &Case<'_>, findings: &Findings) -> Result<Verdict, NoMemory>
    requires is { IsCase case.now }
    requires found { AreFound case.now.report.now.lines (sents_of case.now) findings.now }
    requires none { findings.now.missing ≡ None }
    ensures { IfOk result (λ verdict. IsVerdict case.now.script.now case.now.report.now verdict) }
{
    let reading = read(alloc, case, findings)?;
    match reading.first {
        Some(found) => Ok(Verdict::No {
            line: found.line,
            reason: found.reason,
        }),
        None => Ok(Verdict::Yes),
    }
}

/// Judges a report whose markers fit.
fn judge(alloc: Global, case: &Case<'_>) -> Result<Verdict, NoMemory>
    requires { IsCase case.now }
    ensures { IfOk result (λ verdict. IsVerdict case.now.script.now case.now.report.now verdict) }
{
    let outs = out_lines(alloc, case.report.lines.as_slice())?;
    let findings = find(alloc, case, outs)?;
    match findings.missing {
        Some(event) => Ok(Verdict::No {
            line: line_in(case.script.events.as_slice(), event),
            reason: Offence::Missing,
        }),
        None => first_offence(alloc, case, &findings),
    }
}

/// The least offence of a finished report, of the script that it follows; `Yes` where it has none.
pub fn audit(alloc: Global, script: &Script, report: &ReportLines) -> Result<Verdict, NoMemory>
    requires rules { ScriptRules script.now }
    requires after { ComesAfter script.now report.now }
    ensures { IfOk result (IsVerdict script.now report.now) }
{
    match mark(alloc, script, report)? {
        Marking::Offends { line, reason } => Ok(Verdict::No { line, reason }),
        Marking::Fit { marked } => judge(alloc, &Case::of(alloc, script, report, marked)?),
    }
}
