//! A report whose markers fit, with its script and what is looked up of both.
ghost use Rattle.std.specs.Prelude.{◌≡◌, IfOk};
ghost use Rattle.audit_defs.specs.scenario_defs.Rules.{ScriptRules};
ghost use Rattle.audit_events.specs.Case.{IsCase};
ghost use Rattle.audit_events.specs.Marking.{ComesAfter, AreMarked};

use crate::fate::MarkedEvents;
use crate::fates::{Fates, closings, fates};
use crate::vpns::{Vpns, vpns};
use audit_defs::ReportLines;
use audit_defs::of_mv_base::{NoMemory, Seq};
use audit_defs::of_scenario_defs::Script;
use std::alloc::Global;

/// A report whose markers fit and that has no `halt` line, and its script.
#[derive(Drop)]
pub struct Case<'a> {
    pub script: &'a Script,
    pub report: &'a ReportLines,
    /// The events that have a marker.
    pub marked: MarkedEvents,
    /// By events: what became of each.
    pub fates: Fates,
    /// By events: whether a window that is open before it ends with it or later.
    pub closings: Seq<bool>,
    /// By VRFs: the VPN of each.
    pub vpns: Vpns,
}

impl<'a> Case<'a> {
    /// A report whose markers belong to these events.
    pub fn of(
        alloc: Global,
        script: &'a Script,
        report: &'a ReportLines,
        marked: MarkedEvents,
    ) -> Result<Case<'a>, NoMemory>
        requires rules { ScriptRules script.now }
        requires after { ComesAfter script.now report.now }
        requires fit { AreMarked script.now report.now marked }
        ensures is { IfOk result (λ case. IsCase case) }
        ensures script { IfOk result (λ case. case.script.now ≡ script.now) }
        ensures report { IfOk result (λ case. case.report.now ≡ report.now) }
    {
        let events = script.events.as_slice();
        let fates = fates(alloc, events, marked.as_slice())?;
        let closings = closings(alloc, events, fates.as_slice())?;
        let vpns = vpns(alloc, &script.scenario)?;
        Ok(Case {
            script,
            report,
            marked,
            fates,
            closings,
            vpns,
        })
    }
}
