//! Reads a text.
ghost use Rattle.std.specs.Prelude.{◌≡◌, ◌≤◌, ◌<◌, ◌+◌, [], length, take, drop, IfErr, IfOk, Ok, OnOk};
ghost use Rattle.std.specs.Str.Lines.{lines};
ghost use Rattle.mv_base.specs.core_walks.Topology.{IsTopology};
ghost use Rattle.line_words.specs.Answers.{Fails, Gives};
ghost use Rattle.probe_defs.specs.Lines.{IsProbe, joins_of};
ghost use Rattle.scenario_lines.specs.scenario_draft.Adding.{empty_draft};
ghost use Rattle.probe_text.specs.Grammar.{declared_from, given_from, probe_from, probe_of, with_line};

use crate::input::ProbeText;
use crate::lines::{declared_by, given_by, probe_line};
use crate::mark::probe_place;
use line_words::{ReadFault, Reason, TEXT_LIMIT, fault_at, split_line};
use mv_base::{NoMemory, NodeId};
use probe_defs::{ProbeLine, ProbeLines};
use scenario_defs::Script;
use scenario_lines::scenario_draft::Draft;
use std::alloc::Global;

/// What the first lines of a text declare, and the text after them.
#[derive(Drop)]
struct Front<'a> {
    draft: Draft,
    thereafter: &'a [u8],
}

/// Reads so many first lines as those of a scenario.
fn read_front<'a>(alloc: Global, text: &'a [u8], place: usize) -> Result<Front<'a>, ReadFault>
    requires short { length text.now ≤ TEXT_LIMIT }
    requires within { place < length (lines text.now) }
    ensures draft { IfOk result (λ front. declared_from empty_draft 1 (take place (lines text.now)) ≡ Ok front.draft) }
    ensures thereafter { IfOk result (λ front. lines front.thereafter.now ≡ drop place (lines text.now)) }
    ensures topology { IfOk result (λ front. IsTopology (length front.draft.scenario.nodes) front.draft.scenario.links) }
    ensures count { IfOk result (λ front. place + length front.thereafter.now ≤ TEXT_LIMIT) }
    ensures fault { IfErr result (λ stop. Fails stop (declared_from empty_draft 1 (take place (lines text.now)))) }
{
    let mut draft = Draft::new(alloc);
    let mut done = 0;
    let mut rest = text;
    'lines: while done < place {
        let (line, thereafter) = split_line(rest);
        let number = done as u32 + 1;
        let said = match declared_by(&draft, number, line) {
            Ok(said) => said,
            Err(stop) => return Err(stop),
        };
        draft.add(number, said)?;
        done += 1;
        rest = thereafter;
    }
    Ok(Front {
        draft,
        thereafter: rest,
    })
}

/// Adds a line. What is answered is how many joins there are then.
fn add_line(
    lines: &mut ProbeLines,
    joins: usize,
    line: Option<ProbeLine>,
) -> Result<usize, NoMemory>
    requires few { joins ≤ TEXT_LIMIT }
    requires joins { joins ≡ length (joins_of lines.old) }
    ensures added { OnOk result (lines.new ≡ with_line lines.old line) }
    ensures joins { IfOk result (λ count. count ≡ length (joins_of (with_line lines.old line))) }
    ensures more { IfOk result (λ count. count ≤ joins + 1) }
{
    match line {
        None => Ok(joins),
        Some(
            ProbeLine::Join {
                iface,
                source,
                group,
            },
        ) => {
            lines.push(ProbeLine::Join {
                iface,
                source,
                group,
            })?;
            Ok(joins + 1)
        }
        Some(ProbeLine::Piece(octets)) => {
            lines.push(ProbeLine::Piece(octets))?;
            Ok(joins)
        }
    }
}

/// Reads the lines from that number on, which are after the line `probe`.
fn read_lines(draft: &Draft, edge: NodeId, first: u32, text: &[u8]) -> Result<ProbeLines, ReadFault>
    requires some { 0 < first }
    requires short { first + length text.now ≤ TEXT_LIMIT + 1 }
    ensures { Gives result (given_from draft.now edge [] first (lines text.now)) }
{
    let mut given = ProbeLines::new(draft.alloc());
    let mut joins = 0;
    let mut number = first;
    let mut rest = text;
    'lines: while !rest.is_empty() {
        let (line, thereafter) = split_line(rest);
        let one = given_by(draft, edge, joins, number, line)?;
        joins = add_line(&mut given, joins, one)?;
        number += 1;
        rest = thereafter;
    }
    Ok(given)
}

/// Reads the lines from that number on, of which the first is the line `probe`.
fn read_probe(front: Front<'_>, number: u32) -> Result<ProbeText, ReadFault>
    requires topology { IsTopology (length front.draft.scenario.nodes) front.draft.scenario.links }
    requires some { 0 < number }
    requires short { number + length front.thereafter.now ≤ TEXT_LIMIT + 1 }
    requires line { 0 < length front.thereafter.now }
    ensures { Gives result (probe_from front.entry.draft number (lines front.entry.thereafter.now)) }
{
    let Front { draft, thereafter } = front;
    let (line, rest) = split_line(thereafter);
    let ends = probe_line(&draft, number, line)?;
    let lines = read_lines(&draft, ends.edge, number + 1, rest)?;
    let Script { scenario, .. } = draft.into_script(number);
    Ok(ProbeText {
        scenario,
        ends,
        lines,
    })
}

/// Reads the whole text: what it says, or its first fault. What it says is a probe: a scenario that meets its rules, two of its
/// edges, and lines of which each join fits.
pub fn read(alloc: Global, text: &[u8]) -> Result<ProbeText, ReadFault>
    ensures value { Gives result (probe_of text.now) }
    ensures probe { IfOk result (λ read. IsProbe read.scenario read.ends.edge read.ends.peer read.lines) }
{
    if text.len() > TEXT_LIMIT {
        return Err(ReadFault::Text(fault_at(1, 1, Reason::Long)));
    }
    match probe_place(text) {
        Ok(place) => {
            let front = read_front(alloc, text, place)?;
            read_probe(front, place as u32 + 1)
        }
        Err(count) => Err(ReadFault::Text(fault_at(count as u32 + 1, 1, Reason::Probe))),
    }
}
