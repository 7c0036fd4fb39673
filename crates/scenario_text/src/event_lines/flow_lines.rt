//! The lines of sources that begin or cease to send.
ghost use Rattle.std.specs.Prelude.{◌≡◌, map};
ghost use Rattle.line_words.specs.Words.{placed_word};
ghost use Rattle.scenario_text.specs.event_lines.FlowGrammar.{flow_event, flow_line};

use crate::event_lines::rules::{family_fault, is_flow_of, unless_broken};
use line_words::{Row, TextFault, Word, group_at, source_at};
use mv_base::{Addr, IfaceId};
use scenario_defs::{CustomerEvent, Event};
use scenario_lines::count_fault;
use scenario_lines::scenario_draft::{Draft, Line, iface_at};

/// The events of a source.
#[derive(Clone, Copy)]
pub enum FlowWord {
    Active,
    Idle,
}

fn flow_event(word: FlowWord, iface: IfaceId, source: Addr, group: Addr) -> Event
    ensures { result ≡ flow_event word iface source group }
{
    match word {
        FlowWord::Active => Event::Customer(CustomerEvent::Active {
            iface,
            source,
            group,
        }),
        FlowWord::Idle => Event::Customer(CustomerEvent::Idle {
            iface,
            source,
            group,
        }),
    }
}

/// The line of a source by the words after the first one.
#[tactic(auto, unfolding(crate::specs::event_lines::FlowGrammar::flow_line, crate::specs::event_lines::FlowGrammar::flow_words))]
pub fn flow_line(draft: &Draft, row: Row, word: FlowWord, words: &[Word]) -> Result<Line, TextFault>
    ensures { result ≡ flow_line draft.now row word (map placed_word words.now) }
{
    let [iface, source, group] = words else {
        return Err(count_fault(row, words, 3));
    };
    let iface = iface_at(draft, row, iface)?;
    let from = source_at(row, source)?;
    let to = group_at(row, group)?;
    let kept = is_flow_of(draft, iface, from, to);
    let event = flow_event(word, iface, from, to);
    unless_broken(family_fault(kept), row, group, Line::Event { event })
}
