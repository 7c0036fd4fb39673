//! The lines of joins and prunes.
ghost use Rattle.std.specs.Prelude.{◌≡◌, map};
ghost use Rattle.line_words.specs.Words.{placed_word};
ghost use Rattle.scenario_text.specs.event_lines.JoinGrammar.{entry_event, star_entry, source_entry, if_rpt, rpt_entry, entry_at};
ghost use Rattle.scenario_text.specs.event_lines.JoinGrammar.{at_iface, iface_entry, entry_line};

use crate::event_lines::rules::{family_fault, is_entry_of, unless_broken};
use line_words::{Reason, Row, TextFault, Word, fault_at, group_at, source_at};
use mv_base::IfaceId;
use scenario_defs::{CustomerEvent, Event, IfaceEntry, JoinEntry};
use scenario_lines::count_fault;
use scenario_lines::scenario_draft::{Draft, Line, iface_at};

/// The events of an entry.
#[derive(Clone, Copy)]
pub enum EntryWord {
    Join,
    Prune,
}

fn entry_event(word: EntryWord, named: IfaceEntry) -> Event
    ensures { result ≡ entry_event word named }
{
    let IfaceEntry { iface, entry } = named;
    match word {
        EntryWord::Join => Event::Customer(CustomerEvent::Join { iface, entry }),
        EntryWord::Prune => Event::Customer(CustomerEvent::Prune { iface, entry }),
    }
}

#[tactic(auto, unfolding(crate::specs::event_lines::JoinGrammar::star_entry))]
fn star_entry(row: Row, group: &Word) -> Result<JoinEntry, TextFault>
    ensures { result ≡ star_entry row (placed_word group.now) }
{
    let group = group_at(row, group)?;
    Ok(JoinEntry::Star { group })
}

#[tactic(auto, unfolding(crate::specs::event_lines::JoinGrammar::source_entry))]
fn source_entry(row: Row, source: &Word, group: &Word) -> Result<JoinEntry, TextFault>
    ensures { result ≡ source_entry row (placed_word source.now) (placed_word group.now) }
{
    let source = source_at(row, source)?;
    let group = group_at(row, group)?;
    Ok(JoinEntry::Source { source, group })
}

#[tactic(auto, unfolding(crate::specs::event_lines::JoinGrammar::if_rpt))]
fn if_rpt(row: Row, word: &Word, entry: JoinEntry) -> Result<JoinEntry, TextFault>
    ensures { result ≡ if_rpt row (placed_word word.now) entry }
{
    if word.text == b"rpt".as_slice() {
        Ok(entry)
    } else {
        Err(fault_at(row.number, word.column, Reason::Choice))
    }
}

#[tactic(auto, unfolding(crate::specs::event_lines::JoinGrammar::rpt_entry))]
fn rpt_entry(row: Row, source: &Word, group: &Word, last: &Word) -> Result<JoinEntry, TextFault>
    ensures { result ≡ rpt_entry row (placed_word source.now) (placed_word group.now) (placed_word last.now) }
{
    let source = source_at(row, source)?;
    let group = group_at(row, group)?;
    if_rpt(row, last, JoinEntry::Rpt { source, group })
}

#[tactic(auto, unfolding(crate::specs::event_lines::JoinGrammar::entry_at))]
fn entry_at(row: Row, source: &Word, group: &Word) -> Result<JoinEntry, TextFault>
    ensures { result ≡ entry_at row (placed_word source.now) (placed_word group.now) }
{
    if source.text == b"*".as_slice() {
        star_entry(row, group)
    } else {
        source_entry(row, source, group)
    }
}

/// The entry at the interface, or `Family` at the group.
fn at_iface(
    draft: &Draft,
    row: Row,
    group: &Word,
    iface: IfaceId,
    entry: JoinEntry,
) -> Result<IfaceEntry, TextFault>
    ensures { result ≡ at_iface draft.now row (placed_word group.now) iface entry }
{
    let kept = is_entry_of(draft, iface, entry);
    unless_broken(family_fault(kept), row, group, IfaceEntry { iface, entry })
}

#[tactic(auto, unfolding(crate::specs::event_lines::JoinGrammar::iface_entry))]
fn iface_entry(draft: &Draft, row: Row, words: &[Word]) -> Result<IfaceEntry, TextFault>
    ensures { result ≡ iface_entry draft.now row (map placed_word words.now) }
{
    match words {
        [iface, source, group] => {
            let iface = iface_at(draft, row, iface)?;
            let entry = entry_at(row, source, group)?;
            at_iface(draft, row, group, iface, entry)
        }
        [iface, source, group, last] => {
            let iface = iface_at(draft, row, iface)?;
            let entry = rpt_entry(row, source, group, last)?;
            at_iface(draft, row, group, iface, entry)
        }
        _ => Err(count_fault(row, words, 4)),
    }
}

/// The line of a join or a prune by the words after the first one.
#[tactic(auto, unfolding(crate::specs::event_lines::JoinGrammar::entry_line))]
pub fn entry_line(
    draft: &Draft,
    row: Row,
    word: EntryWord,
    words: &[Word],
) -> Result<Line, TextFault>
    ensures { result ≡ entry_line draft.now row word (map placed_word words.now) }
{
    let named = iface_entry(draft, row, words)?;
    Ok(Line::Event {
        event: entry_event(word, named),
    })
}
