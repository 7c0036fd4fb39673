//! The offences of the `out` lines of a report, line by line.
ghost use Rattle.std.specs.Prelude.{◌≡◌, ◌+◌, ◌<◌, ◌^◌, Some, true, length, slice_get, option_copied, IfOk, OnOk};
ghost use Rattle.audit_events.specs.declared.case.Case.{Case as TheCase};
ghost use Rattle.audit_events.specs.Case.{IsCase, events_of};
ghost use Rattle.audit_events.specs.Sents.{sents_of};
ghost use Rattle.mvpn_audit.specs.Exits.{exit, has_out};
ghost use Rattle.mvpn_audit.specs.Findings.{AreFound};
ghost use Rattle.mvpn_audit.specs.Judging.{noted_named, fault_in, fault_by, fault_of, first_after, next_event, repeat_in};
ghost use Rattle.mvpn_audit.specs.Judging.{is_asked_in, IsRead, Leaves, Passes};

use crate::admission::site_admitted;
use crate::exits::{Exit, Exits};
use crate::findings::{Findings, Noted};
use crate::octets::has_octets;
use audit_events::of_audit_defs::{Numbered, Offence};
use audit_events::of_mv_base::{IfaceId, NoMemory};
use audit_events::of_scenario_defs::ReportLine;
use audit_events::{Case, is_marker};
use std::alloc::Global;

/// What an `out` line says, and the event of the next marker.
#[derive(Clone, Copy)]
pub(crate) struct Out<'a> {
    pub event: usize,
    pub number: u64,
    pub iface: IfaceId,
    pub bytes: &'a [u8],
}

/// An offence, and its line.
#[derive(Clone, Copy, PartialEq, Eq)]
pub(crate) struct Found {
    pub line: u32,
    pub reason: Offence,
}

/// The datagram of that number, counted from 1, if its event comes before that one.
fn noted_named(all: &[Noted], event: usize, number: u64) -> Option<&Noted>
    ensures { option_copied result ≡ noted_named all.now event number }
{
    if number == 0 {
        return None;
    }
    let noted = all.get((number - 1) as usize)?;
    if noted.event < event {
        Some(noted)
    } else {
        None
    }
}

/// Whether the datagram is noted as asked for there.
fn is_asked_in(exits: &Exits, number: u64, iface: IfaceId) -> bool
    ensures { result ≡ is_asked_in exits.now (exit number iface) }
{
    match exits.get(&Exit { number, iface }) {
        Some(asked) => *asked,
        None => false,
    }
}

/// The offence of a datagram that leaves at an interface: whether it is of a window, whether the interface is one of its
/// receivers, and whether it left there before.
fn fault_in(windowed: bool, asked: bool, earlier: bool) -> Option<Offence>
    ensures { result ≡ fault_in windowed asked earlier }
{
    if !windowed {
        None
    } else if earlier {
        Some(Offence::Again)
    } else if asked {
        None
    } else {
        Some(Offence::Asked)
    }
}

/// The offence of an `out` line that names the datagram, by whether the interface is one of its receivers, and whether an
/// earlier line has its number and interface.
#[tactic(auto, using(crate::proofs::NamedLemmas::is_short))]
fn fault_by(
    alloc: Global,
    case: &Case<'_>,
    noted: &Noted,
    out: &Out<'_>,
    asked: bool,
    earlier: bool,
) -> Result<Option<Offence>, NoMemory>
    requires is { IsCase case.now }
    requires within { noted.now.event < length (events_of case.now) }
    ensures { IfOk result (λ fault. fault ≡ fault_by case.now noted.now out.now asked earlier) }
{
    let timed = &case.script.events.as_slice()[noted.event];
    if !has_octets(alloc, &timed.event, out.bytes)? {
        return Ok(Some(Offence::Bytes));
    }
    if !site_admitted(&case.script.scenario, out.iface, noted.site) {
        return Ok(Some(Offence::Admit));
    }
    Ok(fault_in(noted.windowed, asked, earlier))
}

/// The offence of an `out` line, by whether an earlier one has its number and interface.
fn fault_of(
    alloc: Global,
    case: &Case<'_>,
    findings: &Findings,
    out: &Out<'_>,
    earlier: bool,
) -> Result<Option<Offence>, NoMemory>
    requires is { IsCase case.now }
    requires found { AreFound case.now.report.now.lines (sents_of case.now) findings.now }
    requires said { has_out case.now.report.now.lines (exit out.now.number out.now.iface) ≡ true }
    ensures { IfOk result (λ fault. fault ≡ fault_of case.now out.now earlier) }
{
    match noted_named(findings.noted.as_slice(), out.event, out.number) {
        Some(noted) => {
            let asked = is_asked_in(&findings.outs.exits, out.number, out.iface);
            fault_by(alloc, case, noted, out, asked, earlier)
        }
        None => Ok(Some(Offence::Number)),
    }
}

/// The first offence after an `out` line, by the one before it.
fn first_after(
    alloc: Global,
    case: &Case<'_>,
    findings: &Findings,
    line: u32,
    out: &Out<'_>,
    earlier: bool,
    first: Option<Found>,
) -> Result<Option<Found>, NoMemory>
    requires is { IsCase case.now }
    requires found { AreFound case.now.report.now.lines (sents_of case.now) findings.now }
    requires said { has_out case.now.report.now.lines (exit out.now.number out.now.iface) ≡ true }
    ensures { IfOk result (λ found. found ≡ first_after case.now line out.now earlier first) }
{
    match first {
        Some(found) => Ok(Some(found)),
        None => match fault_of(alloc, case, findings, out, earlier)? {
            Some(reason) => Ok(Some(Found { line, reason })),
            None => Ok(None),
        },
    }
}

/// Whether the line of that place repeats an earlier one.
fn repeat_in(repeats: &[bool], place: usize) -> bool
    ensures { result ≡ repeat_in repeats.now place }
{
    match repeats.get(place) {
        Some(repeat) => *repeat,
        None => false,
    }
}

/// What is known after the first lines of a report.
#[derive(Clone, Copy, PartialEq, Eq)]
pub(crate) struct Reading {
    /// How many of them are markers.
    pub passed: usize,
    /// Their first offence.
    pub first: Option<Found>,
}

impl Reading {
    /// Nothing is known yet.
    fn of() -> Reading
        ensures { (case : TheCase) → IsCase case → IsRead case 0 result }
    {
        Reading {
            passed: 0,
            first: None,
        }
    }

    /// The event of the next marker.
    fn next_event(&self, case: &Case<'_>) -> usize
        ensures { result ≡ next_event case.now self.now.passed }
    {
        match case.marked.as_slice().get(self.passed) {
            Some(mark) => mark.place,
            None => case.script.events.len(),
        }
    }

    /// Takes an `out` line, by whether an earlier one has its number and interface.
    fn leave(
        &mut self,
        alloc: Global,
        case: &Case<'_>,
        findings: &Findings,
        line: u32,
        out: &Out<'_>,
        earlier: bool,
    ) -> Result<(), NoMemory>
        requires is { IsCase case.now }
        requires found { AreFound case.now.report.now.lines (sents_of case.now) findings.now }
        requires said { has_out case.now.report.now.lines (exit out.now.number out.now.iface) ≡ true }
        ensures { OnOk result (Leaves case.now line out.now earlier self.old self.new) }
    {
        self.first = first_after(alloc, case, findings, line, out, earlier, self.first)?;
        Ok(())
    }

    /// Takes another line.
    fn pass(&mut self, value: &ReportLine)
        requires { self.old.passed < 2 ^ 63 }
        ensures { Passes value.now self.old self.new }
    {
        if is_marker(value) {
            self.passed += 1;
        }
    }

    /// Takes the line of that place.
    fn take(
        &mut self,
        alloc: Global,
        case: &Case<'_>,
        findings: &Findings,
        place: usize,
        numbered: &Numbered,
    ) -> Result<(), NoMemory>
        requires is { IsCase case.now }
        requires found { AreFound case.now.report.now.lines (sents_of case.now) findings.now }
        requires at { slice_get case.now.report.now.lines place ≡ Some numbered.now }
        requires room { place < 2 ^ 63 }
        requires read { IsRead case.now place self.old }
        ensures { OnOk result (IsRead case.now (place + 1) self.new) }
    {
        match &numbered.value {
            ReportLine::Out {
                number,
                iface,
                bytes,
            } => {
                let out = Out {
                    event: self.next_event(case),
                    number: *number,
                    iface: *iface,
                    bytes: bytes.as_slice(),
                };
                let earlier = repeat_in(findings.outs.repeats.as_slice(), place);
                self.leave(alloc, case, findings, numbered.line, &out, earlier)?;
                Ok(())
            }
            _ => {
                self.pass(&numbered.value);
                Ok(())
            }
        }
    }
}

/// What the lines of the report say.
pub(crate) fn read(alloc: Global, case: &Case<'_>, findings: &Findings) -> Result<Reading, NoMemory>
    requires is { IsCase case.now }
    requires found { AreFound case.now.report.now.lines (sents_of case.now) findings.now }
    ensures { IfOk result (λ reading. IsRead case.now (length case.now.report.now.lines) reading) }
{
    let lines = case.report.lines.as_slice();
    let mut reading = Reading::of();
    for (place, numbered) in lines.iter().enumerate() {
        reading.take(alloc, case, findings, place, numbered)?;
    }
    Ok(reading)
}
