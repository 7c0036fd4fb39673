//! The texts that a replay writes.
ghost use Rattle.std.specs.Prelude.{◌≡◌, ◌++◌, [], ◌∷◌, All, OnOk, IfOk};
ghost use Rattle.scenario_defs.specs.Text.{IsLineOf};
ghost use Rattle.line_words.specs.FaultText.{fault_text};
ghost use Rattle.report_text.specs.report_lines.Bounds.{HasTypeBounds};
ghost use Rattle.mvpn_tool.specs.Output.{MayWrite, front_of, halt_output, kept_after, output_after};
ghost use Rattle.mvpn_tool.specs.Report.{is_told, lines_text};

use crate::command::{Detail, Output};
use crate::sent_hops::{SoFar, put_event_hops};
use core_pcap::write_header;
use line_words::{TextFault, reason_word};
use mv_base::{Bytes, NoMemory};
use report_text::report_lines::has_type_bounds;
use report_text::write_line;
use scenario_defs::{ReportLine, Scenario, Timed};
use std::alloc::Global;

/// What the types of the program say of lines. It does nothing else.
pub fn have_type_bounds(lines: &[ReportLine])
    ensures { All HasTypeBounds lines.now }
{
    for line in lines {
        has_type_bounds(line);
    }
}

/// Whether a line is shown.
fn is_told(detail: Detail, line: &ReportLine) -> bool
    ensures { result ≡ is_told detail line.now }
{
    match detail {
        Detail::Wire => true,
        Detail::Plain => !matches!(
            line,
            ReportLine::Put { .. }
                | ReportLine::Take { .. }
                | ReportLine::Hop { .. }
                | ReportLine::Land { .. }
        ),
    }
}

/// Appends the text of the line, if it is shown.
fn put_line(
    detail: Detail,
    line: &ReportLine,
    scenario: &Scenario,
    text: &mut Bytes,
) -> Result<(), NoMemory>
    requires { IsLineOf scenario.now line.now }
    ensures { OnOk result (text.new ≡ text.old ++ lines_text detail scenario.now (line.now ∷ [])) }
{
    if is_told(detail, line) {
        write_line(line, scenario, text)?;
    }
    Ok(())
}

/// Appends the text of those of the lines that are shown.
fn put_lines(
    detail: Detail,
    lines: &[ReportLine],
    scenario: &Scenario,
    text: &mut Bytes,
) -> Result<(), NoMemory>
    requires { All (IsLineOf scenario.now) lines.now }
    ensures { OnOk result (text.new ≡ text.old ++ lines_text detail scenario.now lines.now) }
{
    for line in lines {
        put_line(detail, line, scenario, text)?;
    }
    Ok(())
}

/// Appends what comes first in the output of any report.
pub fn put_front(output: Output, text: &mut Bytes) -> Result<(), NoMemory>
    ensures { OnOk result (text.new ≡ text.old ++ front_of output) }
{
    match output {
        Output::Report(_) => Ok(()),
        Output::Hops => write_header(text),
    }
}

/// Appends what is to be written of an event with these lines, and keeps it.
pub fn put_event(
    output: Output,
    scenario: &Scenario,
    timed: &Timed,
    lines: &[ReportLine],
    so_far: &mut SoFar,
    text: &mut Bytes,
) -> Result<(), NoMemory>
    requires names { All (IsLineOf scenario.now) lines.now }
    requires hops { MayWrite output timed.now so_far.old lines.now }
    ensures text { OnOk result (text.new ≡ text.old ++ output_after output scenario.now timed.now so_far.old lines.now) }
    ensures kept { OnOk result (so_far.new ≡ kept_after output timed.now so_far.old lines.now) }
{
    match output {
        Output::Report(detail) => put_lines(detail, lines, scenario, text),
        Output::Hops => put_event_hops(timed, lines, so_far, text),
    }
}

/// Appends what is to be written of an event that runs out of labels.
pub fn put_halt(
    output: Output,
    scenario: &Scenario,
    lines: &[ReportLine],
    text: &mut Bytes,
) -> Result<(), NoMemory>
    requires { All (IsLineOf scenario.now) lines.now }
    ensures { OnOk result (text.new ≡ text.old ++ halt_output output scenario.now lines.now) }
{
    match output {
        Output::Report(detail) => put_lines(detail, lines, scenario, text),
        Output::Hops => Ok(()),
    }
}

/// The line that shows a fault.
pub fn text_of_fault(alloc: Global, fault: TextFault) -> Result<Bytes, NoMemory>
    ensures { IfOk result (λ text. text ≡ fault_text fault) }
{
    let mut text = Bytes::new(alloc);
    let line = fault.line.to_string(alloc)?;
    let column = fault.column.to_string(alloc)?;
    text.extend(b"fault ")?;
    text.extend(line.as_bytes())?;
    text.extend(b":")?;
    text.extend(column.as_bytes())?;
    text.extend(b" ")?;
    text.extend(reason_word(fault.reason))?;
    text.extend(b"\n")?;
    Ok(text)
}
