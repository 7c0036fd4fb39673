//! What became of each event of a script, and where windows close.
ghost use Rattle.std.specs.Prelude.{◌≡◌, ◌||◌, ◌&&◌, is_some, length, IfOk};
ghost use Rattle.audit_defs.specs.mvpn_model.Packets.{packet_fault};
ghost use Rattle.audit_defs.specs.mvpn_model.Refused.{octets_refusal};
ghost use Rattle.audit_defs.specs.scenario_defs.declared.event.Event.TheVariants as events;
ghost use Rattle.audit_defs.specs.Cut.{is_malformed};
ghost use Rattle.audit_events.specs.Fates.{unmarked, fate_at, left_after, fates_from, is_refused, is_clear, is_calm};
ghost use Rattle.audit_events.specs.Fates.{is_of_window, is_drain, may_end, goes_on, closings, opens_after};

use crate::fate::{Fate, Marked};
use audit_defs::of_mv_base::{NoMemory, Seq};
use audit_defs::of_scenario_defs::{CustomerEvent, Event, Timed};
use label_forwarding::read_packet;
use pim_defs::of_pim_joinprune::{DecodeFault, decode};
use std::alloc::Global;

pub type Fates = Seq<Fate>;

/// Whether the octets are no Join/Prune message.
fn is_no_message(alloc: Global, bytes: &[u8]) -> Result<bool, NoMemory>
    ensures { IfOk result (λ answer. answer ≡ is_some (octets_refusal bytes.now)) }
{
    match decode(alloc, bytes) {
        Ok(_message) => Ok(false),
        Err(DecodeFault::Bad { place: _, fault: _ }) => Ok(true),
        Err(DecodeFault::NoMemory) => Err(NoMemory),
    }
}

/// Whether the octets are no packet.
fn is_no_packet(bytes: &[u8]) -> bool
    ensures { result ≡ is_some (packet_fault bytes.now) }
{
    match read_packet(bytes) {
        Ok(_packet) => false,
        Err(_fault) => true,
    }
}

/// Whether the event of a customer gives octets that are not in their grammar.
fn is_customer_malformed(alloc: Global, event: &CustomerEvent) -> Result<bool, NoMemory>
    ensures { IfOk result (λ answer. answer ≡ is_malformed (events.Customer event.now)) }
{
    match event {
        CustomerEvent::Pim { iface: _, bytes } => is_no_message(alloc, bytes.as_slice()),
        _ => Ok(false),
    }
}

/// Whether the event gives octets that are not in their grammar.
fn is_malformed(alloc: Global, event: &Event) -> Result<bool, NoMemory>
    ensures { IfOk result (λ answer. answer ≡ is_malformed event.now) }
{
    match event {
        Event::Customer(event) => is_customer_malformed(alloc, event),
        Event::Packet { site: _, bytes } => Ok(is_no_packet(bytes.as_slice())),
        _ => Ok(false),
    }
}

fn unmarked(alloc: Global, timed: &Timed) -> Result<Fate, NoMemory>
    ensures { IfOk result (λ fate. fate ≡ unmarked timed.now) }
{
    if is_malformed(alloc, &timed.event)? {
        Ok(Fate::Refused)
    } else {
        Ok(Fate::Accepted)
    }
}

/// What became of the event of that number, by the marked events from there on.
fn fate_at(alloc: Global, number: usize, timed: &Timed, marked: &[Marked]) -> Result<Fate, NoMemory>
    ensures { IfOk result (λ fate. fate ≡ fate_at number timed.now marked.now) }
{
    match marked {
        [mark, ..] if mark.place == number => Ok(mark.fate),
        _ => unmarked(alloc, timed),
    }
}

/// The marked events after the event of that number.
fn left_after(number: usize, marked: &[Marked]) -> &[Marked]
    ensures { result.now ≡ left_after number marked.now }
{
    match marked {
        [mark, rest @ ..] if mark.place == number => rest,
        _ => marked,
    }
}

/// What became of each event.
pub(crate) fn fates(alloc: Global, events: &[Timed], marked: &[Marked]) -> Result<Fates, NoMemory>
    ensures { IfOk result (λ all. all ≡ fates_from 0 events.now marked.now) }
{
    let mut all = Seq::new(alloc);
    let mut left = marked;
    for (number, timed) in events.iter().enumerate() {
        all.push(fate_at(alloc, number, timed, left)?)?;
        left = left_after(number, left);
    }
    Ok(all)
}

pub(crate) fn is_refused(fate: Fate) -> bool
    ensures { result ≡ is_refused fate }
{
    matches!(fate, Fate::Refused)
}

fn is_clear(fate: Fate) -> bool
    ensures { result ≡ is_clear fate }
{
    matches!(fate, Fate::Calm | Fate::Clear)
}

fn is_calm(fate: Fate) -> bool
    ensures { result ≡ is_calm fate }
{
    matches!(fate, Fate::Calm)
}

fn is_of_window(event: &Event) -> bool
    ensures { result ≡ is_of_window event.now }
{
    match event {
        Event::Send {
            site: _,
            source: _,
            group: _,
            payload: _,
        }
        | Event::Packet { site: _, bytes: _ }
        | Event::Hop {
            from: _,
            to: _,
            place: _,
        }
        | Event::Drain
        | Event::State => true,
        _ => false,
    }
}

fn is_drain(event: &Event) -> bool
    ensures { result ≡ is_drain event.now }
{
    matches!(event, Event::Drain)
}

/// Whether a window may end with the event.
fn may_end(timed: &Timed, fate: Fate) -> bool
    ensures { result ≡ may_end timed.now fate }
{
    is_drain(&timed.event) || is_clear(fate)
}

/// Whether a window goes on over the event.
fn goes_on(timed: &Timed, fate: Fate) -> bool
    ensures { result ≡ goes_on timed.now fate }
{
    is_refused(fate) || is_of_window(&timed.event)
}

/// Whether a window is open after the event, by whether one was before it.
pub(crate) fn opens_after(before: bool, timed: &Timed, fate: Fate) -> bool
    ensures { result ≡ opens_after before timed.now fate }
{
    is_calm(fate) || (before && goes_on(timed, fate))
}

/// Whether a window that is open before the event ends with it or later, by whether one that is open after it ends later.
fn closes(timed: &Timed, fate: Fate, after: bool) -> bool
    ensures { result ≡ (may_end timed.now fate || (goes_on timed.now fate && after)) }
{
    may_end(timed, fate) || (goes_on(timed, fate) && after)
}

/// By events: whether a window that is open before the event ends with it or later.
pub(crate) fn closings(
    alloc: Global,
    events: &[Timed],
    fates: &[Fate],
) -> Result<Seq<bool>, NoMemory>
    requires { length fates.now ≡ length events.now }
    ensures { IfOk result (λ all. all ≡ closings events.now fates.now) }
{
    let mut all = Vec::new(alloc);
    let mut after = false;
    let mut left = events.len();
    while left > 0 {
        left -= 1;
        after = closes(&events[left], fates[left], after);
        all.push(after)?;
    }
    all.reverse();
    Ok(Seq::from_vec(all))
}
