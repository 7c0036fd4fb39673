//! The lines of the clock and of a node.
ghost use Rattle.std.specs.Prelude.{◌≡◌, map};
ghost use Rattle.line_words.specs.Words.{placed_word};
ghost use Rattle.scenario_text.specs.event_lines.ClockGrammar.{tick_line, node_event, node_line};

use line_words::{Row, TextFault, Word, number_at};
use mv_base::NodeId;
use scenario_defs::Event;
use scenario_lines::count_fault;
use scenario_lines::scenario_draft::{Draft, Line, node_at};

const TICK_LIMIT: u32 = 1_000_000;

/// The line of ticks by the words after the first one.
#[tactic(auto, unfolding(crate::specs::event_lines::ClockGrammar::tick_line, crate::specs::event_lines::ClockGrammar::tick_words))]
pub fn tick_line(row: Row, words: &[Word]) -> Result<Line, TextFault>
    ensures { result ≡ tick_line row (map placed_word words.now) }
{
    let [count] = words else {
        return Err(count_fault(row, words, 1));
    };
    let count = number_at(row, count, TICK_LIMIT)?;
    Ok(Line::Event {
        event: Event::Tick {
            count: u64::from(count),
        },
    })
}

/// The events of a node.
#[derive(Clone, Copy)]
pub enum NodeWord {
    Timers,
    Restart,
}

fn node_event(word: NodeWord, node: NodeId) -> Event
    ensures { result ≡ node_event word node }
{
    match word {
        NodeWord::Timers => Event::Timers { node },
        NodeWord::Restart => Event::Restart { node },
    }
}

/// The line of a node by the words after the first one.
#[tactic(auto, unfolding(crate::specs::event_lines::ClockGrammar::node_line, crate::specs::event_lines::ClockGrammar::node_words))]
pub fn node_line(draft: &Draft, row: Row, word: NodeWord, words: &[Word]) -> Result<Line, TextFault>
    ensures { result ≡ node_line draft.now row word (map placed_word words.now) }
{
    let [node] = words else {
        return Err(count_fault(row, words, 1));
    };
    let node = node_at(draft, row, node)?;
    Ok(Line::Event {
        event: node_event(word, node),
    })
}
