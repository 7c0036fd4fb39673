//! What the events of a script show of its datagrams, beside the `out` lines of a report. Receivers are looked at as the
//! events come, and not kept: a bit says of each datagram whether it is of a window, and of each exit whether the
//! datagram was asked for there.
ghost use Rattle.std.specs.Prelude.{◌≡◌, ◌+◌, ◌++◌, ◌∷◌, [], List, Some, length, slice_get, IfOk, OnOk};
ghost use Rattle.indexmap.specs.IndexMap.{get, IsUnique};
ghost use Rattle.audit_events.specs.audit_defs.declared.verdict.Numbered.{Numbered};
ghost use Rattle.audit_events.specs.declared.sents.Sent.{Sent as Said};
ghost use Rattle.audit_events.specs.Case.{IsCase, events_of};
ghost use Rattle.audit_events.specs.Sents.{sents_before, sents_of, IsWalked};
ghost use Rattle.mvpn_audit.specs.declared.exits.Exit.{Exit};
ghost use Rattle.mvpn_audit.specs.Exits.{is_exit, asked_if, AreOutLines};
ghost use Rattle.mvpn_audit.specs.Findings.{noted_of, asks_of, lacks_of, first_of, AreFound};

use crate::exits::{Exits, OutLines, ask_all};
use audit_events::of_mv_base::{NoMemory, Seq, SiteId};
use audit_events::of_scenario_defs::{IfaceList, Timed};
use audit_events::{Case, Sent, Walk};
use std::alloc::Global;

/// A datagram that was accepted.
#[derive(Clone, Copy, PartialEq, Eq)]
pub(crate) struct Noted {
    /// The number of its event, counted from 0.
    pub event: usize,
    pub site: SiteId,
    /// Whether it is of a window.
    pub windowed: bool,
}

fn noted_of(sent: &Sent) -> Noted
    ensures { result ≡ noted_of sent.now }
{
    Noted {
        event: sent.event,
        site: sent.site,
        windowed: sent.asked.is_some(),
    }
}

/// Notes where the datagram of that number was asked for, where it is of a window. Whether it did not leave at one of its
/// receivers.
fn ask_of(exits: &mut Exits, number: u64, asked: &Option<IfaceList>) -> bool
    requires { IsUnique is_exit exits.old }
    ensures each { (own : Exit) → get is_exit exits.new own ≡ asked_if (asks_of number asked.now own) (get is_exit exits.old own) }
    ensures lacks { result ≡ lacks_of exits.old number asked.now }
    ensures unique { IsUnique is_exit exits.new }
{
    match asked {
        Some(asked) => ask_all(exits, number, asked.as_slice()),
        None => false,
    }
}

/// The event of the first datagram that is missing, by the one before.
fn first_of(missing: Option<usize>, lacks: bool, event: usize) -> Option<usize>
    ensures { result ≡ first_of missing lacks event }
{
    match missing {
        Some(first) => Some(first),
        None => { if lacks { Some(event) } else { None } }
    }
}

/// What is found of the first datagrams.
#[derive(Drop)]
pub(crate) struct Findings {
    pub noted: Seq<Noted>,
    /// What the `out` lines say, and of each exit whether the datagram is of a window and was asked for there.
    pub outs: OutLines,
    /// The event of the first one that is of a window and did not leave at one of its receivers.
    pub missing: Option<usize>,
}

impl Findings {
    /// No datagram was sent. It takes no memory.
    fn of(alloc: Global, outs: OutLines) -> Findings
        ensures { (all : List Numbered) → AreOutLines all (length all) outs → AreFound all [] result }
    {
        Findings {
            noted: Seq::new(alloc),
            outs,
            missing: None,
        }
    }

    /// Takes the next datagram.
    fn add(&mut self, sent: &Sent) -> Result<(), NoMemory>
        requires { IsUnique is_exit self.old.outs.exits }
        ensures { (all : List Numbered) (sents : List Said) → AreFound all sents self.old →
            OnOk result (AreFound all (sents ++ sent.now ∷ []) self.new) }
    {
        let number = self.noted.as_slice().len() as u64 + 1;
        self.noted.push(noted_of(sent))?;
        let lacks = ask_of(&mut self.outs.exits, number, &sent.asked);
        self.missing = first_of(self.missing, lacks, sent.event);
        Ok(())
    }

    /// Takes the event of that number.
    fn take(
        &mut self,
        alloc: Global,
        case: &Case<'_>,
        walk: &mut Walk,
        number: usize,
        timed: &Timed,
    ) -> Result<(), NoMemory>
        requires is { IsCase case.now }
        requires walked { IsWalked case.now number walk.old }
        requires at { slice_get (events_of case.now) number ≡ Some timed.now }
        requires found { AreFound case.now.report.now.lines (sents_before case.now number) self.old }
        ensures walked { OnOk result (IsWalked case.now (number + 1) walk.new) }
        ensures found { OnOk result (AreFound case.now.report.now.lines (sents_before case.now (number + 1)) self.new) }
    {
        match walk.take(alloc, case, number, timed)? {
            Some(sent) => {
                self.add(&sent)?;
                Ok(())
            }
            None => Ok(()),
        }
    }
}

/// What is found of all datagrams.
pub(crate) fn find(alloc: Global, case: &Case<'_>, outs: OutLines) -> Result<Findings, NoMemory>
    requires is { IsCase case.now }
    requires outs { AreOutLines case.now.report.now.lines (length case.now.report.now.lines) outs }
    ensures { IfOk result (λ findings. AreFound case.now.report.now.lines (sents_of case.now) findings) }
{
    let events = case.script.events.as_slice();
    let mut walk = Walk::of(alloc, case)?;
    let mut findings = Findings::of(alloc, outs);
    for (number, timed) in events.iter().enumerate() {
        findings.take(alloc, case, &mut walk, number, timed)?;
    }
    Ok(findings)
}
