//! Reads the text of an audit.
ghost use Rattle.std.specs.Prelude.{◌≡◌, ◌≤◌, ◌+◌, length, IfOk, Err};
ghost use Rattle.std.specs.Str.Lines.{lines};
ghost use Rattle.scenario_defs.specs.Rules.{Rules, ScriptRules};
ghost use Rattle.audit_text.specs.Texts.{IsRead};
ghost use Rattle.audit_text.specs.Reading.{IsReadLine, IsReadReport};

use crate::mark::parts_of;
use audit_defs::{Numbered, NumberedLines, ReportLines};
use line_words::{ReadFault, Reason, TEXT_LIMIT, fault_at, split_line};
use report_text::report_lines::{LineFault, has_type_bounds, read_line};
use scenario_defs::{Scenario, Script};
use scenario_text::read;
use std::alloc::Global;

/// What is judged: a script, and the lines of a report.
#[derive(Drop)]
pub struct AuditText {
    pub script: Script,
    pub report: ReportLines,
}

/// The line of a report that a line of the text is.
fn read_numbered(
    alloc: Global,
    scenario: &Scenario,
    number: u32,
    octets: &[u8],
) -> Result<Numbered, ReadFault>
    requires { Rules scenario.now }
    ensures { IsReadLine scenario.now number octets.now result }
{
    match read_line(alloc, octets, scenario) {
        Ok(value) => {
            has_type_bounds(&value);
            Ok(Numbered {
                line: number,
                value,
            })
        }
        Err(LineFault::NotALine) => Err(ReadFault::Text(fault_at(number, 1, Reason::Report))),
        Err(LineFault::NoMemory) => Err(ReadFault::NoMemory),
    }
}

/// The lines of a report that the lines of a text are, which are numbered from that number on.
fn read_report(
    alloc: Global,
    scenario: &Scenario,
    first: u32,
    text: &[u8],
) -> Result<ReportLines, ReadFault>
    requires rules { Rules scenario.now }
    requires count { first + length text.now ≤ TEXT_LIMIT + 1 }
    ensures { IsReadReport scenario.now first (lines text.now) result }
{
    let mut read = NumberedLines::new(alloc);
    let mut number = first;
    let mut rest = text;
    'lines: while !rest.is_empty() {
        let (line, thereafter) = split_line(rest);
        let one = read_numbered(alloc, scenario, number, line)?;
        read.push(one)?;
        number += 1;
        rest = thereafter;
    }
    Ok(ReportLines {
        lines: read,
        end: number,
    })
}

/// Reads the whole text: what it says, or its first fault.
pub fn read_audit(alloc: Global, text: &[u8]) -> Result<AuditText, ReadFault>
    ensures read { IsRead text.now result }
    ensures rules { IfOk result (λ found. ScriptRules found.script) }
{
    if text.len() > TEXT_LIMIT {
        return Err(ReadFault::Text(fault_at(1, 1, Reason::Long)));
    }
    let parts = match parts_of(text) {
        Ok(parts) => parts,
        Err(number) => return Err(ReadFault::Text(fault_at(number, 1, Reason::Report))),
    };
    let script = match read(alloc, parts.front) {
        Ok(script) => script,
        Err(stop) => return Err(stop),
    };
    match read_report(alloc, &script.scenario, parts.number + 1, parts.thereafter) {
        Ok(report) => Ok(AuditText { script, report }),
        Err(stop) => Err(stop),
    }
}
