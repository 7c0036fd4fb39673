//! Where an entry of an interface stands after events.
ghost use Rattle.std.specs.Prelude.{◌≡◌, ◌==◌, ◌+◌, ◌<◌, ◌^◌, None, IfOk};
ghost use Rattle.std.specs.List.{list_any, fold};
ghost use Rattle.mvpn_model.specs.Past.{is_accepted, ticks_of, ticks_in, is_of_edge, expiry_given, expiry_by, stands_after};

use crate::message::{Given, message_of};
use mv_base::{IfaceId, NoMemory, NodeId};
use pim_defs::{Expiry, counts, expiry_after, mention_of};
use scenario_defs::{Event, JoinEntry, Scenario, Timed, edge_of};
use std::alloc::Global;

/// The clock, and the expiry of an entry where it is there.
#[derive(Clone, Copy, PartialEq, Eq)]
pub struct Standing {
    pub clock: u64,
    pub expiry: Option<Expiry>,
}

fn has_line(lines: &[u32], line: u32) -> bool
    ensures { result ≡ list_any (λ other. other == line) lines.now }
{
    lines.iter().any(|other| *other == line)
}

/// Whether the event's line is none of the refused ones.
pub(crate) fn is_accepted(refused: &[u32], timed: &Timed) -> bool
    ensures { result ≡ is_accepted refused.now timed.now }
{
    !has_line(refused, timed.line)
}

/// The ticks by which an event moves the clock.
pub(crate) fn ticks_of(event: &Event) -> u64
    ensures { result ≡ ticks_of event.now }
{
    match event {
        Event::Tick { count } => *count,
        _ => 0,
    }
}

/// Whether the interface is one of the edge.
pub(crate) fn is_of_edge(scenario: &Scenario, node: NodeId, iface: IfaceId) -> bool
    ensures { result ≡ is_of_edge scenario.now node iface }
{
    match edge_of(scenario, iface) {
        Some(edge) => edge.0 == node.0,
        None => false,
    }
}

/// The entries of one interface that are followed through events.
#[derive(Clone, Copy)]
pub(crate) struct Followed<'a> {
    pub scenario: &'a Scenario,
    pub refused: &'a [u32],
    pub iface: IfaceId,
    pub entry: JoinEntry,
}

/// The expiry after a message that is taken at the clock.
fn expiry_given(
    followed: &Followed<'_>,
    clock: u64,
    old: Option<Expiry>,
    given: &Option<Given>,
) -> Option<Expiry>
    requires { clock < 2 ^ 63 }
    ensures { result ≡ expiry_given followed.now.iface followed.now.entry clock old given.now }
{
    match given {
        Some(given) if given.iface.0 == followed.iface.0 => {
            let mention = mention_of(&given.message, &followed.entry);
            expiry_after(&followed.entry, mention, clock, given.message.holdtime, old)
        }
        _ => old,
    }
}

/// The expiry after an accepted event at the clock.
fn expiry_by(
    alloc: Global,
    followed: &Followed<'_>,
    clock: u64,
    event: &Event,
    old: Option<Expiry>,
) -> Result<Option<Expiry>, NoMemory>
    requires { clock < 2 ^ 63 }
    ensures { IfOk result (λ expiry.
        expiry ≡ expiry_by followed.now.scenario.now followed.now.iface followed.now.entry clock event.now old) }
{
    match event {
        Event::Timers { node } => {
            let ended = is_of_edge(followed.scenario, *node, followed.iface) && !counts(clock, old);
            Ok(if ended { None } else { old })
        }
        Event::Settle => Ok(if counts(clock, old) { old } else { None }),
        Event::Restart { node } => {
            let ended = is_of_edge(followed.scenario, *node, followed.iface);
            Ok(if ended { None } else { old })
        }
        _ => {
            let given = message_of(alloc, followed.scenario, event)?;
            Ok(expiry_given(followed, clock, old, &given))
        }
    }
}

/// The clock and the expiry after an event, by those before it.
fn stands_after(
    alloc: Global,
    followed: &Followed<'_>,
    old: Standing,
    timed: &Timed,
) -> Result<Standing, NoMemory>
    requires { old.clock + ticks_of timed.now.event < 2 ^ 63 }
    ensures { IfOk result (λ standing. standing ≡
        stands_after followed.now.scenario.now followed.now.refused.now followed.now.iface followed.now.entry old timed.now) }
{
    if !is_accepted(followed.refused, timed) {
        return Ok(old);
    }
    let expiry = expiry_by(alloc, followed, old.clock, &timed.event, old.expiry)?;
    Ok(Standing {
        clock: old.clock + ticks_of(&timed.event),
        expiry,
    })
}

/// The clock and the expiry after all events. At first the clock is 0 and the entry is not there.
pub(crate) fn stand_after(
    alloc: Global,
    followed: &Followed<'_>,
    events: &[Timed],
) -> Result<Standing, NoMemory>
    requires { ticks_in events.now < 2 ^ 63 }
    ensures { IfOk result (λ standing. standing ≡ fold
        (stands_after followed.now.scenario.now followed.now.refused.now followed.now.iface followed.now.entry)
        (record { clock = 0; expiry = None }) events.now) }
{
    let mut standing = Standing {
        clock: 0,
        expiry: None,
    };
    for timed in events {
        standing = stands_after(alloc, followed, standing, timed)?;
    }
    Ok(standing)
}
