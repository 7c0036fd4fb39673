//! The values of an event.
ghost use Rattle.mv_base.specs.Octets.{IsOctets};
ghost use Rattle.std.specs.List.{All, AllByRecursion};
ghost use Rattle.scenario_defs.specs.declared.event.Event.TheVariants as events;
ghost use Rattle.run_laws.specs.Octets.{EventHasOctets, entry_octets, flow_octets, pattern_octets, word_octets};

use crate::script_values::scenarios::addr_has_octets;
use edge_routes::route_order::are_octets;
use mv_base::{Addr, Pattern};
use scenario_defs::{CustomerEvent, Event, JoinEntry, Timed};

/// Shows that source and group are of octets.
fn flow_has_octets(source: &Addr, group: &Addr)
    ensures { AllByRecursion IsOctets (flow_octets source.now group.now) }
{
    addr_has_octets(source);
    addr_has_octets(group);
}

/// Shows that the addresses of an entry are of octets.
fn entry_has_octets(entry: &JoinEntry)
    ensures { AllByRecursion IsOctets (entry_octets entry.now) }
{
    match entry {
        JoinEntry::Star { group } => addr_has_octets(group),
        JoinEntry::Source { source, group } => flow_has_octets(source, group),
        JoinEntry::Rpt { source, group } => flow_has_octets(source, group),
    }
}

/// Shows that an address, if there is one, is of octets.
fn word_has_octets(word: &Option<Addr>)
    ensures { AllByRecursion IsOctets (word_octets word.now) }
{
    if let Some(addr) = word {
        addr_has_octets(addr);
    }
}

/// Shows that the addresses of a pattern are of octets.
fn pattern_has_octets(pattern: &Pattern)
    ensures { AllByRecursion IsOctets (pattern_octets pattern.now) }
{
    word_has_octets(&pattern.source);
    word_has_octets(&pattern.group);
}

/// Shows that the flow and the payload of what is sent are of octets.
fn sent_has_octets(source: &Addr, group: &Addr, payload: &[u8])
    ensures flow { AllByRecursion IsOctets (flow_octets source.now group.now) }
    ensures payload { IsOctets payload.now }
{
    flow_has_octets(source, group);
    are_octets(payload);
}

/// Shows that the addresses and messages of an event of a customer are of octets.
fn customer_has_octets(event: &CustomerEvent)
    ensures { EventHasOctets (events.Customer event.now) }
{
    match event {
        CustomerEvent::Join { entry, .. } | CustomerEvent::Prune { entry, .. } => {
            entry_has_octets(entry)
        }
        CustomerEvent::Pim { bytes, .. } => are_octets(bytes.as_slice()),
        CustomerEvent::Active { source, group, .. } | CustomerEvent::Idle { source, group, .. } => {
            flow_has_octets(source, group)
        }
        CustomerEvent::Select { pattern, .. } | CustomerEvent::Unselect { pattern, .. } => {
            pattern_has_octets(pattern)
        }
    }
}

/// Shows that the addresses, messages, payloads and packets of an event are of octets.
pub fn event_has_octets(event: &Event)
    ensures { EventHasOctets event.now }
{
    match event {
        Event::Customer(event) => customer_has_octets(event),
        Event::Packet { bytes, .. } => are_octets(bytes.as_slice()),
        Event::Send {
            source,
            group,
            payload,
            ..
        } => sent_has_octets(source, group, payload.as_slice()),
        _ => (),
    }
}

/// Shows that what the events hold is octets.
pub fn events_have_octets(timeds: &[Timed])
    ensures { All (λ timed. EventHasOctets timed.event) timeds.now }
{
    for timed in timeds {
        event_has_octets(&timed.event);
    }
}
