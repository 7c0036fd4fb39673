//! The markers of a report: which event each of them belongs to, and the first one that belongs to none.
ghost use Rattle.std.specs.Prelude.{◌≡◌, ◌<◌, ◌≤◌, ◌&&◌, drop, length, option_map, IfOk, IfSome};
ghost use Rattle.audit_defs.specs.scenario_defs.Rules.{Rises};
ghost use Rattle.audit_defs.specs.Markers.{is_marker, is_refusable, is_state, marks};
ghost use Rattle.audit_defs.specs.Verdicts.{is_halt};
ghost use Rattle.audit_events.specs.Marking.{ComesAfter, IsMarking};
ghost use Rattle.audit_events.specs.Placed.{fate_of, found, has_state};

use crate::fate::{Fate, Marked, MarkedEvents};
use audit_defs::of_mv_base::{NoMemory, Seq};
use audit_defs::of_scenario_defs::{Event, ReportLine, Script, Timed};
use audit_defs::{Offence, ReportLines};
use std::alloc::Global;

/// What the markers of a report show.
#[derive(Drop)]
pub enum Marking {
    /// They fit, and belong to these events.
    Fit { marked: MarkedEvents },
    /// The least offence of the report is one of a marker, or a `halt` line.
    Offends { line: u32, reason: Offence },
}

fn is_state(event: &Event) -> bool
    ensures { result ≡ is_state event.now }
{
    matches!(event, Event::State)
}

/// Whether there is a reason for which such an event can be refused.
fn is_refusable(event: &Event) -> bool
    ensures { result ≡ is_refusable event.now }
{
    match event {
        Event::Tick { count: _ }
        | Event::Timers { node: _ }
        | Event::Restart { node: _ }
        | Event::Cost {
            a: _,
            b: _,
            cost: _,
        }
        | Event::Heal
        | Event::Settle
        | Event::Drain
        | Event::State => false,
        _ => true,
    }
}

pub fn is_marker(line: &ReportLine) -> bool
    ensures { result ≡ is_marker line.now }
{
    match line {
        ReportLine::State { .. } | ReportLine::Refused { line: _, reason: _ } => true,
        _ => false,
    }
}

fn is_halt(line: &ReportLine) -> bool
    ensures { result ≡ is_halt line.now }
{
    matches!(line, ReportLine::Halt { line: _, node: _ })
}

/// Whether the line is a marker of the event.
fn marks(timed: &Timed, line: &ReportLine) -> bool
    ensures { result ≡ marks timed.now line.now }
{
    match line {
        ReportLine::State { .. } => is_state(&timed.event),
        ReportLine::Refused { line, reason: _ } => {
            *line == timed.line && is_refusable(&timed.event)
        }
        _ => false,
    }
}

/// The place of the next event, from that place on, that the line marks. No `state` event is passed over.
fn next_marked(events: &[Timed], from: usize, line: &ReportLine) -> Option<usize>
    requires { from ≤ length events.now }
    ensures place { result ≡ option_map (λ here. here.place) (found line.now from (drop from events.now)) }
    ensures within { IfSome result (λ place. place < length events.now) }
{
    for place in from..events.len() {
        let timed = &events[place];
        if marks(timed, line) {
            return Some(place);
        }
        if is_state(&timed.event) {
            return None;
        }
    }
    None
}

/// What the marker says of its event.
fn fate_of(line: &ReportLine) -> Fate
    ensures { result ≡ fate_of line.now }
{
    match line {
        ReportLine::State {
            bytes: 0,
            copies: 0,
            buffers: 0,
            due: 0,
            unready: 0,
        } => Fate::Calm,
        ReportLine::State { copies: 0, .. } => Fate::Clear,
        ReportLine::State { .. } => Fate::Busy,
        _ => Fate::Refused,
    }
}

fn has_state(events: &[Timed]) -> bool
    ensures { result ≡ has_state events.now }
{
    events.iter().any(|timed| is_state(&timed.event))
}

fn offends(line: u32, reason: Offence) -> Marking
    ensures { result ≡ Marking.Offends line reason }
{
    Marking::Offends { line, reason }
}

/// The events that have a marker where all markers fit and no line is a `halt` line, and otherwise the least offence.
pub fn mark(alloc: Global, script: &Script, report: &ReportLines) -> Result<Marking, NoMemory>
    requires rises { Rises 0 script.now.events }
    requires after { ComesAfter script.now report.now }
    ensures { IfOk result (IsMarking script.now report.now) }
{
    let events = script.events.as_slice();
    let lines = report.lines.as_slice();
    let mut marked = Seq::new(alloc);
    let mut next = 0;
    for numbered in lines {
        if is_halt(&numbered.value) {
            return Ok(offends(numbered.line, Offence::Halt));
        }
        if is_marker(&numbered.value) {
            let Some(place) = next_marked(events, next, &numbered.value) else {
                return Ok(offends(numbered.line, Offence::Markers));
            };
            marked.push(Marked {
                place,
                fate: fate_of(&numbered.value),
            })?;
            next = place + 1;
        }
    }
    if has_state(&events[next..]) {
        return Ok(offends(report.end, Offence::Markers));
    }
    Ok(Marking::Fit { marked })
}
