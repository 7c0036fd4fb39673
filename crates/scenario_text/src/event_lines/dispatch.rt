//! The lines of events, by the first word.
ghost use Rattle.std.specs.Prelude.{◌≡◌, map};
ghost use Rattle.line_words.specs.Answers.{Gives};
ghost use Rattle.line_words.specs.Words.{placed_word};
ghost use Rattle.scenario_text.specs.event_lines.EventGrammar.{bare_line, event_words, event_line};

use crate::event_lines::clock_lines::{node_line, tick_line};
use crate::event_lines::flow_lines::flow_line;
use crate::event_lines::join_lines::entry_line;
use crate::event_lines::link_lines::link_line;
use crate::event_lines::payload_lines::{packet_line, pim_line, send_line};
use crate::event_lines::select_lines::select_line;
use crate::event_lines::session_lines::{move_line, session_line};
use crate::event_lines::words::{BareWord, EventWord, bare_event, event_word};
use line_words::{ReadFault, Reason, Row, TextFault, Word, fault_at, or_fault};
use scenario_lines::scenario_draft::{Draft, Line};

const EVENT_LIMIT: usize = 200_000;

#[tactic(auto, unfolding(crate::specs::event_lines::EventGrammar::bare_line))]
fn bare_line(row: Row, word: BareWord, words: &[Word]) -> Result<Line, TextFault>
    ensures { result ≡ bare_line row word (map placed_word words.now) }
{
    match words {
        [] => Ok(Line::Event {
            event: bare_event(word),
        }),
        [extra, ..] => Err(fault_at(row.number, extra.column, Reason::Count)),
    }
}

#[tactic(auto, unfolding(crate::specs::event_lines::EventGrammar::event_words))]
fn event_words(draft: &Draft, row: Row, kind: EventWord, rest: &[Word]) -> Result<Line, ReadFault>
    ensures { Gives result (event_words draft.now row kind (map placed_word rest.now)) }
{
    match kind {
        EventWord::Tick => Ok(tick_line(row, rest)?),
        EventWord::Move => Ok(move_line(draft, row, rest)?),
        EventWord::Pim => pim_line(draft, row, rest),
        EventWord::Packet => packet_line(draft, row, rest),
        EventWord::Send => send_line(draft, row, rest),
        EventWord::Node(word) => Ok(node_line(draft, row, word, rest)?),
        EventWord::Session(word) => Ok(session_line(draft, row, word, rest)?),
        EventWord::Link(word) => Ok(link_line(draft, row, word, rest)?),
        EventWord::Entry(word) => Ok(entry_line(draft, row, word, rest)?),
        EventWord::Flow(word) => Ok(flow_line(draft, row, word, rest)?),
        EventWord::Select(word) => Ok(select_line(draft, row, word, rest)?),
        EventWord::Bare(word) => Ok(bare_line(row, word, rest)?),
    }
}

/// A line of an event by its words.
#[tactic(auto, unfolding(crate::specs::event_lines::EventGrammar::event_line))]
pub fn event_line(draft: &Draft, row: Row, first: &Word, rest: &[Word]) -> Result<Line, ReadFault>
    ensures { Gives result (event_line draft.now row (placed_word first.now) (map placed_word rest.now)) }
{
    let kind = or_fault(event_word(first.text), row, first, Reason::Word)?;
    if draft.event_count() >= EVENT_LIMIT {
        return Err(ReadFault::Text(fault_at(row.number, first.column, Reason::Limit)));
    }
    event_words(draft, row, kind, rest)
}
