//! The lines of links and of the copies on them.
ghost use Rattle.std.specs.Prelude.{◌≡◌, map};
ghost use Rattle.line_words.specs.Words.{placed_word};
ghost use Rattle.scenario_text.specs.event_lines.LinkGrammar.{highest, link_event, link_line};

use crate::event_lines::rules::{link_fault, unless_broken};
use line_words::{Row, TextFault, Word, number_at};
use mv_base::NodeId;
use scenario_defs::Event;
use scenario_lines::count_fault;
use scenario_lines::scenario_draft::{Draft, Line, node_at};

/// The last place on a link that an event names.
const PLACE_LIMIT: u32 = 999_999_999;

const COST_LIMIT: u32 = 65535;

/// The events of a link.
#[derive(Clone, Copy)]
pub enum LinkWord {
    Hop,
    Drop,
    Cost,
}

/// The highest number of its line.
fn highest(word: LinkWord) -> u32
    ensures { result ≡ highest word }
{
    match word {
        LinkWord::Hop | LinkWord::Drop => PLACE_LIMIT,
        LinkWord::Cost => COST_LIMIT,
    }
}

fn link_event(word: LinkWord, from: NodeId, to: NodeId, number: u32) -> Event
    ensures { result ≡ link_event word from to number }
{
    match word {
        LinkWord::Hop => Event::Hop {
            from,
            to,
            place: number,
        },
        LinkWord::Drop => Event::DropCopy {
            from,
            to,
            place: number,
        },
        LinkWord::Cost => Event::Cost {
            a: from,
            b: to,
            cost: number,
        },
    }
}

/// The line of a link by the words after the first one.
#[tactic(auto, unfolding(crate::specs::event_lines::LinkGrammar::link_line, crate::specs::event_lines::LinkGrammar::link_words))]
pub fn link_line(draft: &Draft, row: Row, word: LinkWord, words: &[Word]) -> Result<Line, TextFault>
    ensures { result ≡ link_line draft.now row word (map placed_word words.now) }
{
    let [a, b, number] = words else {
        return Err(count_fault(row, words, 3));
    };
    let from = node_at(draft, row, a)?;
    let to = node_at(draft, row, b)?;
    let number = number_at(row, number, highest(word))?;
    let broken = link_fault(draft.scenario().links.as_slice(), from, to);
    let event = link_event(word, from, to, number);
    unless_broken(broken, row, b, Line::Event { event })
}
