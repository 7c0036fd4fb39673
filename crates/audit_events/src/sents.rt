//! The datagrams that were accepted, each with its receivers where it is of a window, one event after another.
ghost use Rattle.std.specs.Prelude.{◌≡◌, ◌+◌, ◌++◌, ◌&&◌, slice_get, Some, IfOk, OnOk};
ghost use Rattle.audit_defs.specs.mvpn_model.Packets.{source_in, group_in};
ghost use Rattle.audit_events.specs.Case.{IsCase, events_of};
ghost use Rattle.audit_events.specs.Joined.{kept_of};
ghost use Rattle.audit_events.specs.Receivers.{receivers_now};
ghost use Rattle.audit_events.specs.Sents.{flow_of, fate_in, closing_in, sent_now, sent_if_any, sents_before, listed, IsWalked};

use crate::case::Case;
use crate::fate::Fate;
use crate::fates::{is_refused, opens_after};
use crate::joined::Joined;
use crate::receivers::{Flow, receivers_now};
use audit_defs::of_mv_base::{Addr, NoMemory, SiteId};
use audit_defs::of_scenario_defs::{Event, IfaceList, Timed};
use label_forwarding::read_packet;
use std::alloc::Global;

/// A datagram that was accepted.
#[derive(Drop)]
pub struct Sent {
    /// The number of its event, counted from 0.
    pub event: usize,
    pub site: SiteId,
    /// Its receivers, where it is of a window.
    pub asked: Option<IfaceList>,
}

/// The address of octets that are no packet.
const UNSPECIFIED: Addr = Addr::V4([0, 0, 0, 0]);

/// Source and group of a packet.
fn flow_in(bytes: &[u8]) -> (Addr, Addr)
    ensures { result ≡ (source_in bytes.now, group_in bytes.now) }
{
    match read_packet(bytes) {
        Ok(packet) => (packet.source(), packet.group()),
        Err(_fault) => (UNSPECIFIED, UNSPECIFIED),
    }
}

/// The flow of the datagram that an event sends.
fn flow_of(event: &Event) -> Option<Flow>
    ensures { result ≡ flow_of event.now }
{
    match event {
        Event::Send {
            site,
            source,
            group,
            payload: _,
        } => Some(Flow {
            site: *site,
            source: *source,
            group: *group,
        }),
        Event::Packet { site, bytes } => {
            let (source, group) = flow_in(bytes.as_slice());
            Some(Flow {
                site: *site,
                source,
                group,
            })
        }
        _ => None,
    }
}

/// What became of the event of that number.
fn fate_in(case: &Case<'_>, number: usize) -> Fate
    ensures { result ≡ fate_in case.now.fates number }
{
    match case.fates.as_slice().get(number) {
        Some(fate) => *fate,
        None => Fate::Accepted,
    }
}

/// Whether a window that is open before the event of that number ends with it or later.
fn closing_in(case: &Case<'_>, number: usize) -> bool
    ensures { result ≡ closing_in case.now.closings number }
{
    match case.closings.as_slice().get(number) {
        Some(closing) => *closing,
        None => false,
    }
}

/// Whether an event is of a window, by whether one is open before it, and whether one would end with it or later.
fn is_windowed(before: bool, closing: bool) -> bool
    ensures { result ≡ (before && closing) }
{
    before && closing
}

/// What is known after the first events. No datagram is kept: each is handed out with its event.
#[derive(Drop)]
pub struct Walk {
    joined: Joined,
    /// Whether a window is open.
    is_open: bool,
}

impl Walk {
    /// No event was taken.
    pub fn of(alloc: Global, case: &Case<'_>) -> Result<Walk, NoMemory>
        ensures { IfOk result (λ walk. IsWalked case.now 0 walk) }
    {
        let nodes = case.script.scenario.nodes.len();
        Ok(Walk {
            joined: Joined::of(alloc, nodes)?,
            is_open: false,
        })
    }

    /// The datagram of the event of that number.
    fn sent(
        &self,
        alloc: Global,
        case: &Case<'_>,
        number: usize,
        flow: &Flow,
        windowed: bool,
    ) -> Result<Sent, NoMemory>
        ensures { IfOk result (λ sent. sent ≡ sent_now case.now (kept_of self.now.joined) windowed number flow.now) }
    {
        let asked = if windowed {
            let vpns = case.vpns.as_slice();
            Some(receivers_now(alloc, &self.joined, &case.script.scenario, vpns, flow)?)
        } else {
            None
        };
        Ok(Sent {
            event: number,
            site: flow.site,
            asked,
        })
    }

    /// The datagram of the event of that number, if it sends one.
    fn sent_if_any(
        &self,
        alloc: Global,
        case: &Case<'_>,
        number: usize,
        event: &Event,
    ) -> Result<Option<Sent>, NoMemory>
        ensures { IfOk result (λ sent. sent ≡ sent_if_any case.now self.now number event.now) }
    {
        match flow_of(event) {
            Some(flow) => {
                let windowed = is_windowed(self.is_open, closing_in(case, number));
                Ok(Some(self.sent(alloc, case, number, &flow, windowed)?))
            }
            None => Ok(None),
        }
    }

    /// Takes the event of that number. The datagram that it sends, if it was accepted and sends one.
    pub fn take(
        &mut self,
        alloc: Global,
        case: &Case<'_>,
        number: usize,
        timed: &Timed,
    ) -> Result<Option<Sent>, NoMemory>
        requires is { IsCase case.now }
        requires walked { IsWalked case.now number self.old }
        requires at { slice_get (events_of case.now) number ≡ Some timed.now }
        ensures walked { OnOk result (IsWalked case.now (number + 1) self.new) }
        ensures sent { IfOk result (λ sent. sents_before case.now (number + 1) ≡ sents_before case.now number ++ listed sent) }
    {
        let fate = fate_in(case, number);
        if is_refused(fate) {
            self.is_open = opens_after(self.is_open, timed, fate);
            return Ok(None);
        }
        let sent = self.sent_if_any(alloc, case, number, &timed.event)?;
        self.joined.step(&case.script.scenario, &timed.event)?;
        self.is_open = opens_after(self.is_open, timed, fate);
        Ok(sent)
    }
}
