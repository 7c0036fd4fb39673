//! Reads a text.
ghost use Rattle.std.specs.Prelude.{◌≡◌, ◌≤◌, length};
ghost use Rattle.line_words.specs.Answers.{Gives};
ghost use Rattle.ingress_text.specs.Grammar.{line_of, input_of};

use crate::draft::Draft;
use crate::input::{Input, Step};
use crate::lines::words_line;
use line_words::{ReadFault, Reason, TEXT_LIMIT, fault_at, row_of, split_line, words_in};
use std::alloc::Global;

/// What a line says, given what the lines before it said.
#[tactic(auto, unfolding(crate::specs::Grammar::line_of))]
fn line_of(alloc: Global, draft: &Draft, number: u32, octets: &[u8]) -> Result<Step, ReadFault>
    requires { length octets.now ≤ TEXT_LIMIT }
    ensures { Gives result (line_of draft.now number octets.now) }
{
    let words = words_in(alloc, number, octets)?;
    words_line(alloc, draft, row_of(number, octets), &words)
}

/// Reads the whole text: what it says, or its first fault.
pub fn read(alloc: Global, text: &[u8]) -> Result<Input, ReadFault>
    ensures { Gives result (input_of text.now) }
{
    if text.len() > TEXT_LIMIT {
        return Err(ReadFault::Text(fault_at(1, 1, Reason::Long)));
    }
    let mut draft = Draft::new(alloc);
    let mut number = 1;
    let mut rest = text;
    'lines: while !rest.is_empty() {
        let (line, thereafter) = split_line(rest);
        let step = line_of(alloc, &draft, number, line)?;
        draft = draft.add(number, step)?;
        number += 1;
        rest = thereafter;
    }
    match draft.into_input() {
        Some(input) => Ok(input),
        None => Err(ReadFault::Text(fault_at(number, 1, Reason::Root))),
    }
}
