//! The lines of settings.
ghost use Rattle.std.specs.Prelude.{◌≡◌, map};
ghost use Rattle.line_words.specs.Words.{placed_word};
ghost use Rattle.scenario_lines.specs.SettingGrammar.{value_of, setting_line};

use crate::forms::count_fault;
use crate::scenario_draft::{Draft, Line, Setting};
use line_words::{Reason, Row, TextFault, Word, fault_at, or_fault};
use mv_base::read_number;

#[tactic(auto, unfolding(crate::specs::SettingGrammar::value_of))]
fn value_of(setting: Setting, text: &[u8]) -> Option<u64>
    ensures { result ≡ value_of setting text.now }
{
    let value = read_number(text)?;
    if value >= 1 && value <= setting.highest() {
        Some(value)
    } else {
        None
    }
}

/// A line of a setting by its words.
#[tactic(auto, unfolding(crate::specs::SettingGrammar::setting_line, crate::specs::SettingGrammar::setting_words))]
pub fn setting_line(
    draft: &Draft,
    row: Row,
    setting: Setting,
    first: &Word,
    rest: &[Word],
) -> Result<Line, TextFault>
    ensures { result ≡ setting_line draft.now row setting (placed_word first.now) (map placed_word rest.now) }
{
    let [value] = rest else {
        return Err(count_fault(row, rest, 1));
    };
    if draft.given().has(setting) {
        return Err(fault_at(row.number, first.column, Reason::Again));
    }
    let value = or_fault(value_of(setting, value.text), row, value, Reason::Number)?;
    Ok(Line::Setting { setting, value })
}
