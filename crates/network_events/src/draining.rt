//! All copies land, round by round, until none is on a link (RFC 6513 section 12, RFC 3032).
ghost use Rattle.std.specs.Prelude.{◌≡◌, ◌<◌, ◌++◌, [], ◌∷◌, length, IfOk, OnOk};
ghost use Rattle.std.specs.List.{AllByRecursion};
ghost use Rattle.scenario_defs.specs.declared.event.Event.TheVariants as events;
ghost use Rattle.network_defs.specs.Events.{drained};
ghost use Rattle.network_acts.specs.Instant.{Instant, IsSome, IsWorld};
ghost use Rattle.network_events.specs.Datagrams.{HasRound, Makes, MayDrain, lands, standing_ways, ways_of, ways_of_links};
ghost use Rattle.network_events.specs.Meeting.{IsReady, Meets};

use crate::datagrams::of_memory;
use crate::halt::{EventAnswer, met};
use mv_base::{Link, NoMemory, NodeId, Seq};
use network_acts::Network;
use scenario_defs::Lines;
use std::alloc::Global;

/// The TTL of a copy is at most 255 and falls at each landing, so after so many rounds no copy is on a link.
const ROUNDS: usize = 255;

/// Ways of links, each from one end to the other.
type Ways = Seq<(NodeId, NodeId)>;

/// Adds the way once for each copy that stands there.
fn add_way(ways: &mut Ways, network: &Network, from: NodeId, to: NodeId) -> Result<(), NoMemory>
    ensures { OnOk result ((at : Instant) → IsWorld at network.now → ways.new ≡ ways.old ++ ways_of at.world ((from, to) ∷ [])) }
{
    for _copy in 0..network.datagrams.count_on(from, to) {
        ways.push((from, to))?;
    }
    Ok(())
}

/// Adds both ways of the link.
fn add_link(ways: &mut Ways, network: &Network, link: Link) -> Result<(), NoMemory>
    ensures { OnOk result ((at : Instant) → IsWorld at network.now → ways.new ≡ ways.old ++ ways_of at.world (ways_of_links (link ∷ []))) }
{
    add_way(ways, network, link.a, link.b)?;
    add_way(ways, network, link.b, link.a)
}

/// A way for each copy that stands on a link now, in the order in which they land.
fn standing(alloc: Global, network: &Network) -> Result<Ways, NoMemory>
    ensures { IfOk result (λ ways. (at : Instant) → IsWorld at network.now → ways ≡ standing_ways at.world) }
{
    let mut ways = Seq::new(alloc);
    for link in network.scenario().links.as_slice() {
        add_link(&mut ways, network, *link)?;
    }
    Ok(ways)
}

/// The first copy of the way lands.
fn land(network: &mut Network, way: (NodeId, NodeId), lines: &mut Lines) -> Result<(), NoMemory>
    requires network { IsSome MayDrain network.old }
    requires way { way.1.0 < length network.old.scenario.nodes }
    ensures { Makes MayDrain (lands (way ∷ [])) network.old network.new lines.old lines.new result }
{
    network.hop(way.0, way.1, 1, lines)
}

/// The first copy of each of the ways lands, one after another.
fn land_each(
    network: &mut Network,
    ways: &[(NodeId, NodeId)],
    lines: &mut Lines,
) -> Result<(), NoMemory>
    requires network { IsSome MayDrain network.old }
    requires ways { AllByRecursion (λ way. way.1.0 < length network.old.scenario.nodes) ways.now }
    ensures { Makes MayDrain (lands ways.now) network.old network.new lines.old lines.new result }
{
    for way in ways {
        land(network, *way, lines)?;
    }
    Ok(())
}

/// The copies that are on links now land, in order. Answers whether there were some.
fn round(network: &mut Network, lines: &mut Lines) -> Result<bool, NoMemory>
    requires network { IsSome MayDrain network.old }
    ensures { IfOk result (λ some. HasRound some network.old network.new lines.old lines.new) }
{
    let ways = standing(lines.alloc(), network)?;
    land_each(network, ways.as_slice(), lines)?;
    Ok(!ways.is_empty())
}

/// Rounds go on while there are copies. A round without any does nothing.
fn rounds(network: &mut Network, lines: &mut Lines) -> Result<(), NoMemory>
    requires network { IsSome MayDrain network.old }
    ensures { Makes MayDrain drained network.old network.new lines.old lines.new result }
{
    for _round in 0..ROUNDS {
        if !round(network, lines)? {
            return Ok(());
        }
    }
    Ok(())
}

/// All copies land, and those that they put.
pub(crate) fn drain(network: &mut Network, lines: &mut Lines) -> EventAnswer
    requires network { IsSome IsReady network.old }
    ensures { Meets events.Drain network.old network.new lines.old lines.new result }
{
    met(of_memory(rounds(network, lines)))
}
