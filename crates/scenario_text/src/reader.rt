//! Reads a text.
ghost use Rattle.std.specs.Prelude.{◌≡◌, ◌≤◌, length, map, IfOk};
ghost use Rattle.mv_base.specs.core_walks.Topology.{IsTopology};
ghost use Rattle.scenario_defs.specs.Rules.{ScriptRules};
ghost use Rattle.line_words.specs.Answers.{Gives};
ghost use Rattle.line_words.specs.Words.{placed_word};
ghost use Rattle.scenario_text.specs.Grammar.{words_line, line_of, script_of};

use crate::event_lines::event_line;
use line_words::{
    ReadFault, Reason, Row, TEXT_LIMIT, Word, fault_at, row_of, split_line, words_in,
};
use scenario_defs::Script;
use scenario_lines::scenario_draft::{Draft, Line};
use scenario_lines::scenario_line;
use std::alloc::Global;

#[tactic(auto, unfolding(crate::specs::Grammar::words_line))]
fn words_line(draft: &Draft, row: Row, words: &[Word]) -> Result<Line, ReadFault>
    requires topology { IsTopology (length draft.now.scenario.nodes) draft.now.scenario.links }
    ensures { Gives result (words_line draft.now row (map placed_word words.now)) }
{
    match words {
        [] => Ok(Line::Blank),
        [first, rest @ ..] if draft.begun() => event_line(draft, row, first, rest),
        [first, rest @ ..] => scenario_line(draft, row, first, rest),
    }
}

/// What a line says, given what the lines before it declared.
#[tactic(auto, unfolding(crate::specs::Grammar::line_of))]
fn line_of(draft: &Draft, number: u32, octets: &[u8]) -> Result<Line, ReadFault>
    requires topology { IsTopology (length draft.now.scenario.nodes) draft.now.scenario.links }
    requires short { length octets.now ≤ TEXT_LIMIT }
    ensures { Gives result (line_of draft.now number octets.now) }
{
    let words = words_in(draft.alloc(), number, octets)?;
    words_line(draft, row_of(number, octets), &words)
}

/// Reads the whole text: what it says, or its first fault.
pub fn read(alloc: Global, text: &[u8]) -> Result<Script, ReadFault>
    ensures value { Gives result (script_of text.now) }
    ensures rules { IfOk result ScriptRules }
{
    if text.len() > TEXT_LIMIT {
        return Err(ReadFault::Text(fault_at(1, 1, Reason::Long)));
    }
    let mut draft = Draft::new(alloc);
    let mut number = 1;
    let mut rest = text;
    'lines: while !rest.is_empty() {
        let (line, thereafter) = split_line(rest);
        let said = line_of(&draft, number, line)?;
        draft.add(number, said)?;
        number += 1;
        rest = thereafter;
    }
    if !draft.begun() {
        return Err(ReadFault::Text(fault_at(number, 1, Reason::Events)));
    }
    Ok(draft.into_script(number))
}
