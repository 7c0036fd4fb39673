//! A network settles: the timers of its nodes run, and then octets are moved until none is in transit, or the rounds are done.
ghost use Rattle.std.specs.Prelude.{◌≡◌, ◌≤◌, ◌^◌, length, map, [], ◌∷◌, IfOk};
ghost use Rattle.scenario_defs.specs.declared.event.Event.TheVariants as events;
ghost use Rattle.network_defs.specs.Acts as acts;
ghost use Rattle.network_defs.specs.Counts.{directions, node_ids};
ghost use Rattle.network_defs.specs.Events.{each, row, settled, times, turn};
ghost use Rattle.network_acts.specs.wire_laws.Edges.{IsWay};
ghost use Rattle.network_acts.specs.Instant.{IsSome};
ghost use Rattle.network_acts.specs.Words.{same_moment};
ghost use Rattle.network_events.specs.Doing.{Does};
ghost use Rattle.network_events.specs.Meeting.{IsGiven, IsReady, IsResting, Meets};

use crate::halt::{EventAnswer, Halt, answer_at, met};
use crate::nodes::timers_at;
use mv_base::{NoMemory, NodeId};
use network_acts::{Directions, Network, directions_of, sessions_of};
use network_defs::session_defs::Direction;
use scenario_defs::{Lines, Scenario};
use std::alloc::Global;

/// The directions of all sessions of a scenario, in order.
fn ways_of(alloc: Global, scenario: &Scenario) -> Result<Directions, NoMemory>
    requires { length scenario.now.nodes ≤ 2 ^ 16 }
    ensures { IfOk result (λ ways. ways ≡ directions scenario.now) }
{
    let sessions = sessions_of(alloc, scenario)?;
    directions_of(alloc, sessions.as_slice())
}

/// The timers of all nodes run, in order.
fn run_timers(network: &mut Network, nodes: usize, lines: &mut Lines) -> Result<(), Halt>
    requires network { IsSome IsResting network.old }
    requires nodes { nodes ≡ length network.old.scenario.nodes }
    requires few { nodes ≤ 2 ^ 16 }
    ensures { Does IsResting same_moment (row (map (λ n. acts.Timers n) (node_ids 0 nodes)))
        network.old network.new lines.old lines.new result }
{
    for number in 0..nodes {
        if let Err(halt) = timers_at(network, NodeId(number as u16), lines) {
            return Err(halt);
        }
    }
    Ok(())
}

/// All octets that are in transit over the direction are moved.
fn move_all(network: &mut Network, over: Direction, lines: &mut Lines) -> Result<(), Halt>
    requires network { IsSome IsResting network.old }
    requires way { IsWay network.old.scenario over }
    ensures { Does IsResting same_moment (turn over) network.old network.new lines.old lines.new result }
{
    let count = network.transit(over);
    if count == 0 {
        return Ok(());
    }
    answer_at(over.to, network.move_octets(over, count, lines))
}

/// Octets are moved over each of the directions in turn, which are those of the scenario.
fn run_round(network: &mut Network, ways: &[Direction], lines: &mut Lines) -> Result<(), Halt>
    requires network { IsSome IsResting network.old }
    requires ways { ways.now ≡ directions network.old.scenario }
    ensures { Does IsResting same_moment (each turn ways.now) network.old network.new lines.old lines.new result }
{
    for over in ways {
        if let Err(halt) = move_all(network, *over, lines) {
            return Err(halt);
        }
    }
    Ok(())
}

/// So many rounds over the directions, which are those of the scenario. Once nothing is in transit, the rounds that are left do nothing.
fn run_rounds(
    network: &mut Network,
    ways: &[Direction],
    rounds: usize,
    lines: &mut Lines,
) -> Result<(), Halt>
    requires network { IsSome IsResting network.old }
    requires ways { ways.now ≡ directions network.old.scenario }
    ensures { Does IsResting same_moment (times (each turn ways.now) rounds) network.old network.new lines.old lines.new result }
{
    for _round in 0..rounds {
        if network.total() == 0 {
            return Ok(());
        }
        if let Err(halt) = run_round(network, ways, lines) {
            return Err(halt);
        }
    }
    Ok(())
}

/// The timers of all nodes run, and then octets are moved in rounds.
fn settle_nodes(network: &mut Network, lines: &mut Lines) -> Result<(), Halt>
    requires network { IsSome IsResting network.old }
    ensures { Does IsResting same_moment settled network.old network.new lines.old lines.new result }
{
    let nodes = network.scenario().nodes.len();
    let Ok(ways) = ways_of(lines.alloc(), network.scenario()) else {
        return Err(Halt::NoMemory);
    };
    if let Err(halt) = run_timers(network, nodes, lines) {
        return Err(halt);
    }
    run_rounds(network, ways.as_slice(), nodes + 3, lines)
}

/// The timers of all nodes run, and then the octets in transit are moved, as often as the network has nodes and three times more.
pub(crate) fn settle(network: &mut Network, lines: &mut Lines) -> EventAnswer
    requires network { IsSome IsReady network.old }
    requires event { IsGiven network.old.scenario events.Settle }
    ensures { Meets events.Settle network.old network.new lines.old lines.new result }
{
    met(settle_nodes(network, lines))
}
