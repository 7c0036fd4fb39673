//! Reads a line of a report.
ghost use Rattle.std.specs.Prelude.{◌≡◌, ◌++◌, ◌∷◌, [], ◌⊎◌, ◌↔◌, IsTrue, IfOk, Ok, Err};
ghost use Rattle.scenario_defs.specs.Rules.{Rules};
ghost use Rattle.scenario_defs.specs.Text.{IsLineOf, line_text};
ghost use Rattle.report_text.specs.report_lines.Bounds.{HasTypeBounds};

use crate::report_lines::LineFault;
use crate::report_lines::lines::named_line;
use crate::write_line;
use mv_base::Bytes;
use scenario_defs::{ReportLine, Scenario};
use std::alloc::Global;

/// Whether the first text is the second one and an LF.
fn is_ended(written: &[u8], text: &[u8]) -> bool
    ensures { IsTrue result ↔ (written.now ≡ text.now ++ 10 ∷ []) }
{
    match written.strip_suffix(b"\n".as_slice()) {
        Some(front) => front == text,
        None => false,
    }
}

/// The line of a report that the text is, without its LF.
pub fn read_line(alloc: Global, text: &[u8], scenario: &Scenario) -> Result<ReportLine, LineFault>
    requires { Rules scenario.now }
    ensures line { IfOk result (λ line.
        IsLineOf scenario.now line × (line_text scenario.now line ≡ text.now ++ 10 ∷ [])) }
    ensures back { (line : ReportLine) → IsLineOf scenario.now line → HasTypeBounds line →
        line_text scenario.now line ≡ text.now ++ 10 ∷ [] →
        (result ≡ Ok line) ⊎ (result ≡ Err LineFault.NoMemory) }
    ensures none { result ≡ Err LineFault.NotALine → (line : ReportLine) → IsLineOf scenario.now line →
        HasTypeBounds line → ¬ (line_text scenario.now line ≡ text.now ++ 10 ∷ []) }
{
    let Some(line) = named_line(alloc, scenario, text)? else {
        return Err(LineFault::NotALine);
    };
    let mut written = Bytes::new(alloc);
    write_line(&line, scenario, &mut written)?;
    if !is_ended(written.as_slice(), text) {
        return Err(LineFault::NotALine);
    }
    Ok(line)
}
