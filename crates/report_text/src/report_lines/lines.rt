//! The only line that a text can be: the one that its words name. The text need not be what is written of that line.
ghost use Rattle.std.specs.Prelude.{◌≡◌, IfOk, option_map};
ghost use Rattle.report_text.specs.report_lines.Fields.{with_rest};
ghost use Rattle.report_text.specs.report_lines.Lines.{bytes_refusal, refusal_of, out_line, refused_line, state_line, halt_line};
ghost use Rattle.report_text.specs.report_lines.Lines.{direction_field, put_line, take_line, hop_line, land_line, line_after, named_line};

use crate::report_lines::fields::{
    iface_field, kind_field, node_field, number_field, number_of, octets_of, short_field, ttl_field,
};
use crate::report_lines::names::node_named;
use crate::report_lines::words::{LineWord, bare_refusal, fault_word_of, line_word};
use mv_base::{NoMemory, NodeId, cut_at};
use scenario_defs::{Kind, Refusal, ReportLine, Scenario};
use std::alloc::Global;

/// One direction of a session.
#[derive(Clone, Copy)]
pub struct Direction {
    pub kind: Kind,
    pub from: NodeId,
    pub to: NodeId,
}

#[tactic(auto, unfolding(crate::specs::report_lines::Lines::bytes_refusal))]
fn bytes_refusal(text: &[u8]) -> Option<Refusal>
    ensures { result ≡ bytes_refusal text.now }
{
    let (place, rest) = short_field(text)?;
    let word = fault_word_of(rest)?;
    Some(Refusal::Bytes { place, word })
}

#[tactic(auto, unfolding(crate::specs::report_lines::Lines::refusal_of))]
fn refusal_of(text: &[u8]) -> Option<Refusal>
    ensures { result ≡ refusal_of text.now }
{
    match cut_at(text, b' ') {
        None => bare_refusal(text),
        Some((_, rest)) => bytes_refusal(rest),
    }
}

#[tactic(auto, unfolding(crate::specs::report_lines::Lines::out_line))]
fn out_line(alloc: Global, scenario: &Scenario, text: &[u8]) -> Result<Option<ReportLine>, NoMemory>
    ensures { IfOk result (λ found. found ≡ out_line scenario.now text.now) }
{
    let Some((number, rest)) = number_field(text) else {
        return Ok(None);
    };
    let Some((iface, rest)) = iface_field(scenario, rest) else {
        return Ok(None);
    };
    let Some(bytes) = octets_of(alloc, rest)? else {
        return Ok(None);
    };
    Ok(Some(ReportLine::Out {
        number,
        iface,
        bytes,
    }))
}

#[tactic(auto, unfolding(crate::specs::report_lines::Lines::refused_line))]
fn refused_line(text: &[u8]) -> Option<ReportLine>
    ensures { result ≡ refused_line text.now }
{
    let (line, rest) = short_field(text)?;
    let reason = refusal_of(rest)?;
    Some(ReportLine::Refused { line, reason })
}

#[tactic(auto, unfolding(crate::specs::report_lines::Lines::state_line))]
fn state_line(text: &[u8]) -> Option<ReportLine>
    ensures { result ≡ state_line text.now }
{
    let (bytes, rest) = number_field(text)?;
    let (copies, rest) = number_field(rest)?;
    let (buffers, rest) = number_field(rest)?;
    let (due, rest) = number_field(rest)?;
    let unready = number_of(rest)?;
    Some(ReportLine::State {
        bytes,
        copies,
        buffers,
        due,
        unready,
    })
}

#[tactic(auto, unfolding(crate::specs::report_lines::Lines::halt_line))]
fn halt_line(scenario: &Scenario, text: &[u8]) -> Option<ReportLine>
    ensures { result ≡ halt_line scenario.now text.now }
{
    let (line, rest) = short_field(text)?;
    let (_, rest) = cut_at(rest, b' ')?;
    let node = node_named(scenario, rest)?;
    Some(ReportLine::Halt { line, node })
}

#[tactic(auto, unfolding(crate::specs::report_lines::Lines::direction_field))]
fn direction_field<'a>(scenario: &Scenario, text: &'a [u8]) -> Option<(Direction, &'a [u8])>
    ensures { option_map with_rest result ≡ direction_field scenario.now text.now }
{
    let (kind, rest) = kind_field(text)?;
    let (from, rest) = node_field(scenario, rest)?;
    let (to, rest) = node_field(scenario, rest)?;
    Some((Direction { kind, from, to }, rest))
}

#[tactic(auto, unfolding(crate::specs::report_lines::Lines::put_line))]
fn put_line(alloc: Global, scenario: &Scenario, text: &[u8]) -> Result<Option<ReportLine>, NoMemory>
    ensures { IfOk result (λ found. found ≡ put_line scenario.now text.now) }
{
    let Some((Direction { kind, from, to }, rest)) = direction_field(scenario, text) else {
        return Ok(None);
    };
    let Some(bytes) = octets_of(alloc, rest)? else {
        return Ok(None);
    };
    Ok(Some(ReportLine::Put {
        kind,
        from,
        to,
        bytes,
    }))
}

#[tactic(auto, unfolding(crate::specs::report_lines::Lines::take_line))]
fn take_line(
    alloc: Global,
    scenario: &Scenario,
    text: &[u8],
) -> Result<Option<ReportLine>, NoMemory>
    ensures { IfOk result (λ found. found ≡ take_line scenario.now text.now) }
{
    let Some((Direction { kind, from, to }, rest)) = direction_field(scenario, text) else {
        return Ok(None);
    };
    let Some(bytes) = octets_of(alloc, rest)? else {
        return Ok(None);
    };
    Ok(Some(ReportLine::Take {
        kind,
        from,
        to,
        bytes,
    }))
}

#[tactic(auto, unfolding(crate::specs::report_lines::Lines::hop_line))]
fn hop_line(scenario: &Scenario, text: &[u8]) -> Option<ReportLine>
    ensures { result ≡ hop_line scenario.now text.now }
{
    let (from, rest) = node_field(scenario, text)?;
    let (to, rest) = node_field(scenario, rest)?;
    let (label, rest) = short_field(rest)?;
    let (ttl, rest) = ttl_field(rest)?;
    let number = number_of(rest)?;
    Some(ReportLine::Hop {
        from,
        to,
        label,
        ttl,
        number,
    })
}

#[tactic(auto, unfolding(crate::specs::report_lines::Lines::land_line))]
fn land_line(scenario: &Scenario, text: &[u8]) -> Option<ReportLine>
    ensures { result ≡ land_line scenario.now text.now }
{
    let (from, rest) = node_field(scenario, text)?;
    let (to, rest) = node_field(scenario, rest)?;
    let (label, rest) = short_field(rest)?;
    let number = number_of(rest)?;
    Some(ReportLine::Land {
        from,
        to,
        label,
        number,
    })
}

fn line_after(
    alloc: Global,
    scenario: &Scenario,
    word: LineWord,
    text: &[u8],
) -> Result<Option<ReportLine>, NoMemory>
    ensures { IfOk result (λ found. found ≡ line_after scenario.now word text.now) }
{
    match word {
        LineWord::Out => out_line(alloc, scenario, text),
        LineWord::Refused => Ok(refused_line(text)),
        LineWord::State => Ok(state_line(text)),
        LineWord::Halt => Ok(halt_line(scenario, text)),
        LineWord::Put => put_line(alloc, scenario, text),
        LineWord::Take => take_line(alloc, scenario, text),
        LineWord::Hop => Ok(hop_line(scenario, text)),
        LineWord::Land => Ok(land_line(scenario, text)),
    }
}

/// The line that the words of a text name, where they name one.
#[tactic(auto, unfolding(crate::specs::report_lines::Lines::named_line))]
pub fn named_line(
    alloc: Global,
    scenario: &Scenario,
    text: &[u8],
) -> Result<Option<ReportLine>, NoMemory>
    ensures { IfOk result (λ found. found ≡ named_line scenario.now text.now) }
{
    let Some((first, rest)) = cut_at(text, b' ') else {
        return Ok(None);
    };
    let Some(word) = line_word(first) else {
        return Ok(None);
    };
    line_after(alloc, scenario, word, rest)
}
