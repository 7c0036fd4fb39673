//! The lines of selections.
ghost use Rattle.std.specs.Prelude.{◌≡◌, map};
ghost use Rattle.line_words.specs.Words.{placed_word};
ghost use Rattle.scenario_text.specs.event_lines.SelectGrammar.{select_event, any_or, pattern_at, select_line};

use crate::event_lines::rules::{family_fault, is_of_family, unless_broken};
use line_words::{Row, TextFault, Word, group_at, source_at};
use mv_base::{Addr, Pattern, VrfId};
use scenario_defs::{CustomerEvent, Event};
use scenario_lines::count_fault;
use scenario_lines::scenario_draft::{Draft, Line, vrf_at};

/// The events of a selection.
#[derive(Clone, Copy)]
pub enum SelectWord {
    Select,
    Unselect,
}

fn select_event(word: SelectWord, vrf: VrfId, pattern: Pattern) -> Event
    ensures { result ≡ select_event word vrf pattern }
{
    match word {
        SelectWord::Select => Event::Customer(CustomerEvent::Select { vrf, pattern }),
        SelectWord::Unselect => Event::Customer(CustomerEvent::Unselect { vrf, pattern }),
    }
}

/// No address at `*`, which is any (RFC 6625 section 2), and elsewhere the one that the word writes.
#[tactic(auto, unfolding(crate::specs::event_lines::SelectGrammar::any_or))]
fn any_or(word: &Word, addr: Result<Addr, TextFault>) -> Result<Option<Addr>, TextFault>
    ensures { result ≡ any_or (placed_word word.now) addr }
{
    if word.text == b"*".as_slice() {
        return Ok(None);
    }
    let addr = addr?;
    Ok(Some(addr))
}

#[tactic(auto, unfolding(crate::specs::event_lines::SelectGrammar::pattern_at))]
fn pattern_at(row: Row, source: &Word, group: &Word) -> Result<Pattern, TextFault>
    ensures { result ≡ pattern_at row (placed_word source.now) (placed_word group.now) }
{
    let source = any_or(source, source_at(row, source))?;
    let group = any_or(group, group_at(row, group))?;
    Ok(Pattern { source, group })
}

/// The line of a selection by the words after the first one.
#[tactic(auto, unfolding(crate::specs::event_lines::SelectGrammar::select_line, crate::specs::event_lines::SelectGrammar::select_words))]
pub fn select_line(
    draft: &Draft,
    row: Row,
    word: SelectWord,
    words: &[Word],
) -> Result<Line, TextFault>
    ensures { result ≡ select_line draft.now row word (map placed_word words.now) }
{
    let [vrf, source, group] = words else {
        return Err(count_fault(row, words, 3));
    };
    let vrf = vrf_at(draft, row, vrf)?;
    let pattern = pattern_at(row, source, group)?;
    let kept = is_of_family(pattern);
    let event = select_event(word, vrf, pattern);
    unless_broken(family_fault(kept), row, group, Line::Event { event })
}
