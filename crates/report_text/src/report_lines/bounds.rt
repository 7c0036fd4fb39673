//! What the types of the program say of a line.
ghost use Rattle.hex.specs.Hex.{IsBytes};
ghost use Rattle.report_text.specs.report_lines.Bounds.{HasReasonBounds, HasTypeBounds};

use scenario_defs::{Refusal, ReportLine};

fn are_octets(bytes: &[u8])
    ensures { IsBytes bytes.now }
{}

fn has_reason_bounds(reason: Refusal)
    ensures { HasReasonBounds reason }
{
    match reason {
        Refusal::Bytes { place, word: _ } => {
            let _place = place;
        }
        _ => {}
    }
}

/// Each line of the program is within the bounds of its types. `back` of `read_line` asks it of a line.
pub fn has_type_bounds(line: &ReportLine)
    ensures { HasTypeBounds line.now }
{
    match line {
        ReportLine::Out { number, bytes, .. } => {
            let _number = *number;
            are_octets(bytes.as_slice())
        }
        ReportLine::Refused { line, reason } => {
            let _line = *line;
            has_reason_bounds(*reason)
        }
        ReportLine::State {
            bytes,
            copies,
            buffers,
            due,
            unready,
        } => {
            let _values = (*bytes, *copies, *buffers, *due, *unready);
        }
        ReportLine::Halt { line, .. } => {
            let _line = *line;
        }
        ReportLine::Put { bytes, .. } => are_octets(bytes.as_slice()),
        ReportLine::Take { bytes, .. } => are_octets(bytes.as_slice()),
        ReportLine::Hop {
            label,
            ttl,
            number,
            ..
        } => {
            let _values = (*label, *ttl, *number);
        }
        ReportLine::Land { label, number, .. } => {
            let _values = (*label, *number);
        }
    }
}
