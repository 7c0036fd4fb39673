//! Events of time and of nodes: ticks pass, timers run, a node begins anew.
ghost use Rattle.std.specs.Prelude.{◌+◌, ◌<◌, ◌^◌, length, [], ◌∷◌};
ghost use Rattle.scenario_defs.specs.declared.event.Event.TheVariants as events;
ghost use Rattle.network_defs.specs.Acts as acts;
ghost use Rattle.network_defs.specs.Events.{row};
ghost use Rattle.network_acts.specs.Instant.{IsSome};
ghost use Rattle.network_acts.specs.Words.{same_moment};
ghost use Rattle.network_events.specs.Doing.{Does};
ghost use Rattle.network_events.specs.Meeting.{IsGiven, IsReady, IsResting, Meets};

use crate::halt::{EventAnswer, Halt, answer_at, met};
use mv_base::NodeId;
use network_acts::Network;
use scenario_defs::Lines;

/// So many ticks pass.
pub(crate) fn tick(network: &mut Network, count: u64, lines: &mut Lines) -> EventAnswer
    requires network { IsSome IsReady network.old }
    requires event { IsGiven network.old.scenario (events.Tick count) }
    requires clock { network.old.plane.clock + count < 2 ^ 63 }
    ensures { Meets (events.Tick count) network.old network.new lines.old lines.new result }
{
    network.tick(count);
    Ok(None)
}

/// The timers of node n run.
pub(crate) fn timers_at(network: &mut Network, n: NodeId, lines: &mut Lines) -> Result<(), Halt>
    requires network { IsSome IsResting network.old }
    requires within { n.0 < length network.old.scenario.nodes }
    ensures { Does IsResting same_moment (row (acts.Timers n ∷ [])) network.old network.new lines.old lines.new result }
{
    answer_at(n, network.timers(n, lines))
}

/// The timers of a node run.
pub(crate) fn timers(network: &mut Network, node: NodeId, lines: &mut Lines) -> EventAnswer
    requires network { IsSome IsReady network.old }
    requires event { IsGiven network.old.scenario (events.Timers node) }
    ensures { Meets (events.Timers node) network.old network.new lines.old lines.new result }
{
    met(timers_at(network, node, lines))
}

/// A node begins anew.
pub(crate) fn restart(network: &mut Network, node: NodeId, lines: &mut Lines) -> EventAnswer
    requires network { IsSome IsReady network.old }
    requires event { IsGiven network.old.scenario (events.Restart node) }
    ensures { Meets (events.Restart node) network.old network.new lines.old lines.new result }
{
    match network.restart(node) {
        Ok(()) => Ok(None),
        Err(_) => Err(Halt::NoMemory),
    }
}
