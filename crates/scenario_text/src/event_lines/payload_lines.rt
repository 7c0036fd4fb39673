//! The lines that end in octets: of PIM messages, of packets and of datagrams.
ghost use Rattle.std.specs.Prelude.{◌≡◌, map};
ghost use Rattle.line_words.specs.Answers.{Gives};
ghost use Rattle.line_words.specs.Words.{placed_word};
ghost use Rattle.scenario_text.specs.event_lines.PayloadGrammar.{pim_line, packet_line, send_line};

use crate::event_lines::rules::{family_fault, unless_broken};
use line_words::{ReadFault, Row, Word, group_at, payload_at, same_family, source_at};
use scenario_defs::{CustomerEvent, Event};
use scenario_lines::count_fault;
use scenario_lines::scenario_draft::{Draft, Line, iface_at, site_at};

/// The line of a PIM message by the words after the first one.
#[tactic(auto, unfolding(crate::specs::event_lines::PayloadGrammar::pim_line, crate::specs::event_lines::PayloadGrammar::pim_words))]
pub fn pim_line(draft: &Draft, row: Row, words: &[Word]) -> Result<Line, ReadFault>
    ensures { Gives result (pim_line draft.now row (map placed_word words.now)) }
{
    let [iface, octets] = words else {
        return Err(ReadFault::Text(count_fault(row, words, 2)));
    };
    let iface = iface_at(draft, row, iface)?;
    let bytes = payload_at(draft.alloc(), row, octets)?;
    Ok(Line::Event {
        event: Event::Customer(CustomerEvent::Pim { iface, bytes }),
    })
}

/// The line of a packet by the words after the first one.
#[tactic(auto, unfolding(crate::specs::event_lines::PayloadGrammar::packet_line, crate::specs::event_lines::PayloadGrammar::packet_words))]
pub fn packet_line(draft: &Draft, row: Row, words: &[Word]) -> Result<Line, ReadFault>
    ensures { Gives result (packet_line draft.now row (map placed_word words.now)) }
{
    let [site, octets] = words else {
        return Err(ReadFault::Text(count_fault(row, words, 2)));
    };
    let site = site_at(draft, row, site)?;
    let bytes = payload_at(draft.alloc(), row, octets)?;
    Ok(Line::Event {
        event: Event::Packet { site, bytes },
    })
}

/// The line of a datagram by the words after the first one.
#[tactic(auto, unfolding(crate::specs::event_lines::PayloadGrammar::send_line, crate::specs::event_lines::PayloadGrammar::send_head))]
pub fn send_line(draft: &Draft, row: Row, words: &[Word]) -> Result<Line, ReadFault>
    ensures { Gives result (send_line draft.now row (map placed_word words.now)) }
{
    let [site, source, group, payload] = words else {
        return Err(ReadFault::Text(count_fault(row, words, 4)));
    };
    let site = site_at(draft, row, site)?;
    let from = source_at(row, source)?;
    let to = group_at(row, group)?;
    let event = Event::Send {
        site,
        source: from,
        group: to,
        payload: payload_at(draft.alloc(), row, payload)?,
    };
    let kept = same_family(from, to);
    Ok(unless_broken(family_fault(kept), row, group, Line::Event { event })?)
}
