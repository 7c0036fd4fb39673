//! A link that gets another cost: each node then acts on it (RFC 6388 section 2.4.3).
ghost use Rattle.std.specs.Prelude.{◌≡◌, ◌≤◌, ◌^◌, length, map, [], ◌∷◌};
ghost use Rattle.scenario_defs.specs.declared.event.Event.TheVariants as events;
ghost use Rattle.network_defs.specs.Acts as acts;
ghost use Rattle.network_defs.specs.Counts.{node_ids};
ghost use Rattle.network_defs.specs.Events.{cost_acts, row};
ghost use Rattle.network_defs.specs.World.{scenario_of};
ghost use Rattle.network_acts.specs.Instant.{IsSome, OfPlane};
ghost use Rattle.network_acts.specs.Words.{IsWithin, at_rest, same_moment, with_current};
ghost use Rattle.network_events.specs.Doing.{Does};
ghost use Rattle.network_events.specs.Meeting.{IsGiven, IsReady, IsResting, Meets};
ghost use Rattle.network_events.specs.Parts.{IsRepriced};

use crate::halt::{EventAnswer, Halt, answer_at, met};
use mv_base::NodeId;
use network_acts::Network;
use scenario_defs::Lines;

/// Node n acts on the present costs.
fn reroute_at(network: &mut Network, n: NodeId, lines: &mut Lines) -> Result<(), Halt>
    requires network { IsSome (OfPlane (IsWithin n)) network.old }
    ensures { Does (OfPlane (IsWithin n)) (with_current n) (row (acts.Reroute n ∷ [])) network.old network.new lines.old lines.new result }
{
    answer_at(n, network.reroute(n, lines))
}

/// Each node in order acts on the present costs.
fn reroute_all(network: &mut Network, nodes: usize, lines: &mut Lines) -> Result<(), Halt>
    requires network { IsSome IsRepriced network.old }
    requires nodes { nodes ≡ length network.old.scenario.nodes }
    requires few { nodes ≤ 2 ^ 16 }
    ensures { Does IsRepriced (λ m. at_rest) (row (map (λ n. acts.Reroute n) (node_ids 0 nodes)))
        network.old network.new lines.old lines.new result }
{
    for number in 0..nodes {
        if let Err(halt) = reroute_at(network, NodeId(number as u16), lines) {
            return Err(halt);
        }
    }
    Ok(())
}

/// The link gets its cost for all nodes at once, and then each of them acts on it.
fn change_cost(
    network: &mut Network,
    a: NodeId,
    b: NodeId,
    cost: u32,
    lines: &mut Lines,
) -> Result<(), Halt>
    requires network { IsSome IsResting network.old }
    requires cost { (1 ≤ cost) × (cost ≤ 65535) }
    ensures { Does IsResting same_moment (λ world. row (cost_acts (scenario_of world) a b cost) world)
        network.old network.new lines.old lines.new result }
{
    match network.set_cost(a, b, cost) {
        Ok(()) => {
            let nodes = network.scenario().nodes.len();
            reroute_all(network, nodes, lines)
        }
        Err(_) => Err(Halt::NoMemory),
    }
}

/// The link between two nodes gets another cost.
pub(crate) fn cost(
    network: &mut Network,
    a: NodeId,
    b: NodeId,
    cost: u32,
    lines: &mut Lines,
) -> EventAnswer
    requires network { IsSome IsReady network.old }
    requires event { IsGiven network.old.scenario (events.Cost a b cost) }
    ensures { Meets (events.Cost a b cost) network.old network.new lines.old lines.new result }
{
    met(change_cost(network, a, b, cost, lines))
}
