//! An event, by what it is.
ghost use Rattle.std.specs.Prelude.{◌+◌, ◌<◌, ◌^◌};
ghost use Rattle.mvpn_model.specs.Past.{ticks_of};
ghost use Rattle.network_acts.specs.Instant.{IsSome};
ghost use Rattle.scenario_defs.specs.declared.event.Event.TheVariants as events;
ghost use Rattle.network_events.specs.Meeting.{IsGiven, IsReady, Meets};

use crate::costs::cost;
use crate::customers::{ask, pim, take_written};
use crate::datagrams::{drop_copy, hop, send, send_packet, state};
use crate::draining::drain;
use crate::halt::EventAnswer;
use crate::nodes::{restart, tick, timers};
use crate::sessions::{heal, lose, move_octets, notice, raise};
use crate::settling::settle;
use mvpn_model::own_addr;
use network_acts::Network;
use network_defs::session_defs::Direction;
use pim_defs::{join_of, prune_of};
use scenario_defs::{CustomerEvent, Event, Lines};

/// The network meets an event of a customer, where none is under way. Messages that join or prune are for the interface's own address.
fn meet_customer(network: &mut Network, event: &CustomerEvent, lines: &mut Lines) -> EventAnswer
    requires network { IsSome IsReady network.old }
    requires event { IsGiven network.old.scenario (events.Customer event.now) }
    ensures { Meets (events.Customer event.now) network.old network.new lines.old lines.new result }
{
    match event {
        CustomerEvent::Join { iface, entry } => {
            let written = join_of(lines.alloc(), own_addr(network.scenario(), *iface), entry);
            take_written(network, *iface, written, lines)
        }
        CustomerEvent::Prune { iface, entry } => {
            let written = prune_of(lines.alloc(), own_addr(network.scenario(), *iface), entry);
            take_written(network, *iface, written, lines)
        }
        CustomerEvent::Pim { iface, bytes } => pim(network, *iface, bytes.as_slice(), lines),
        CustomerEvent::Active { .. }
        | CustomerEvent::Idle { .. }
        | CustomerEvent::Select { .. }
        | CustomerEvent::Unselect { .. } => ask(network, event, lines),
    }
}

/// The network meets an event, where none is under way.
pub(crate) fn meet(network: &mut Network, event: &Event, lines: &mut Lines) -> EventAnswer
    requires network { IsSome IsReady network.old }
    requires event { IsGiven network.old.scenario event.now }
    requires clock { network.old.plane.clock + ticks_of event.now < 2 ^ 63 }
    ensures { Meets event.now network.old network.new lines.old lines.new result }
{
    match event {
        Event::Tick { count } => tick(network, *count, lines),
        Event::Timers { node } => timers(network, *node, lines),
        Event::Restart { node } => restart(network, *node, lines),
        Event::Move {
            kind,
            from,
            to,
            count,
        } => {
            let over = Direction {
                kind: *kind,
                from: *from,
                to: *to,
            };
            move_octets(network, over, *count, lines)
        }
        Event::Lose { kind, a, b } => lose(network, *kind, *a, *b, lines),
        Event::Notice { kind, a, b } => notice(network, *kind, *a, *b, lines),
        Event::Raise { kind, a, b } => raise(network, *kind, *a, *b, lines),
        Event::Customer(event) => meet_customer(network, event, lines),
        Event::Send {
            site,
            source,
            group,
            payload,
        } => send(network, *site, *source, *group, payload.as_slice(), lines),
        Event::Packet { site, bytes } => send_packet(network, *site, bytes.as_slice(), lines),
        Event::Hop { from, to, place } => hop(network, *from, *to, *place, lines),
        Event::DropCopy { from, to, place } => drop_copy(network, *from, *to, *place, lines),
        Event::Cost { a, b, cost: new } => cost(network, *a, *b, *new, lines),
        Event::Heal => heal(network, lines),
        Event::Settle => settle(network, lines),
        Event::Drain => drain(network, lines),
        Event::State => state(network, lines),
    }
}
