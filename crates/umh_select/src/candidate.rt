//! The better one of two routes to a source.
ghost use Rattle.std.specs.Prelude.{◌≡◌, ◌<◌, ℕ};
ghost use Rattle.mv_base.specs.declared.ids.NodeId.{NodeId};
ghost use Rattle.choice_defs.specs.Choice.{cost_unless};
ghost use Rattle.umh_select.specs.Routes.{AreCosts, better, candidate_cmp, choice_of, measure, peer_of, rd_of};

use crate::key::{Place, RouteKey, compare_addrs, compare_distinguishers};
use crate::route::{Choice, Held};
use core_paths::Core;
use mv_base::{NodeId, Rd, Rule};
use std::cmp::Ordering;

/// A learned route, with what the rule compares first.
#[derive(Clone, Copy)]
pub(crate) struct Candidate {
    pub(crate) key: RouteKey,
    pub(crate) held: Held,
    pub(crate) measure: u64,
}

/// The peer of a learned route.
pub(crate) fn peer_of(place: Place) -> NodeId
    ensures { result ≡ peer_of place }
{
    match place {
        Place::From { peer, rd: _ } => peer,
        _ => NodeId(0),
    }
}

/// The route distinguisher of a learned route.
fn rd_of(place: Place) -> Rd
    ensures { result ≡ rd_of place }
{
    match place {
        Place::From { peer: _, rd } => rd,
        _ => Rd([0; 8]),
    }
}

/// Nothing for the edge that is named, and 1 for each other one.
fn cost_unless(named: Option<NodeId>, peer: NodeId) -> u64
    ensures { result ≡ cost_unless named peer }
{
    match named {
        Some(named) if named.0 == peer.0 => 0,
        _ => 1,
    }
}

/// What the rule compares before addresses.
pub(crate) fn measure(
    rule: Rule,
    named: Option<NodeId>,
    peer: NodeId,
    me: NodeId,
    core: &Core,
) -> u64
    requires me { me.0 < core.now.nodes }
    requires peer { peer.0 < core.now.nodes }
    ensures { (cost : NodeId → ℕ) → AreCosts core.now me cost → result ≡ measure rule cost named peer }
{
    match rule {
        Rule::Highest => 0,
        Rule::Nearest => core.cost(me, peer),
        Rule::Hash => cost_unless(named, peer),
    }
}

/// The order of two candidates, the better first.
fn compare(one: &Candidate, other: &Candidate) -> Ordering
    ensures { result ≡ candidate_cmp one.now other.now }
{
    one.measure
        .cmp(&other.measure)
        .then(compare_addrs(other.held.import.0, one.held.import.0))
        .then(compare_distinguishers(rd_of(one.key.place), rd_of(other.key.place)))
}

/// The better one, and of two that are alike the first.
pub(crate) fn better(best: Option<Candidate>, next: Candidate) -> Candidate
    ensures { result ≡ better best next }
{
    match best {
        Some(best) if !compare(&next, &best).is_lt() => best,
        _ => next,
    }
}

/// The choice that the best one is.
pub(crate) fn choice_of(best: Option<Candidate>) -> Choice
    ensures { result ≡ choice_of best }
{
    match best {
        None => Choice::None,
        Some(best) => Choice::Remote {
            edge: peer_of(best.key.place),
            rd: rd_of(best.key.place),
            import: best.held.import,
            source_as: best.held.source_as,
        },
    }
}
