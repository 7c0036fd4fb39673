//! The directions of sessions, and those that lead away from each node.
ghost use Rattle.std.specs.Prelude.{◌≡◌, ◌≤◌, ◌^◌, ◌++◌, map, flat_map, IfOk, OnOk};
ghost use Rattle.network_defs.specs.Counts.{direction, directions_of, node_ids};
ghost use Rattle.net_sessions.specs.session_ways.Ways.{ways_from};

use mv_base::{NoMemory, NodeId, Seq};
use mvpn_model::Session;
use network_defs::session_defs::Direction;
use scenario_defs::Kind;
use std::alloc::Global;

/// Directions of sessions, in order.
pub type Directions = Seq<Direction>;

/// For each node, in order of nodes, the directions that lead away from it.
pub type Ways = Seq<Directions>;

fn direction(kind: Kind, from: NodeId, to: NodeId) -> Direction
    ensures { result ≡ direction kind from to }
{
    Direction { kind, from, to }
}

/// Adds both directions of the session, that from its first end first.
fn add_both(all: &mut Directions, session: Session) -> Result<(), NoMemory>
    ensures { OnOk result (all.new ≡ all.old ++ directions_of session) }
{
    all.push(direction(session.kind, session.a, session.b))?;
    all.push(direction(session.kind, session.b, session.a))?;
    Ok(())
}

/// Both directions of each of the sessions, in order of sessions, that from a session's first end first.
pub fn directions_of(alloc: Global, sessions: &[Session]) -> Result<Directions, NoMemory>
    ensures { IfOk result (λ found. found ≡ flat_map directions_of sessions.now) }
{
    let mut found = Seq::new(alloc);
    for session in sessions {
        add_both(&mut found, *session)?;
    }
    Ok(found)
}

/// Those of the directions that lead away from the node, in order.
fn ways_from(alloc: Global, directions: &[Direction], node: NodeId) -> Result<Directions, NoMemory>
    ensures { IfOk result (λ found. found ≡ ways_from node directions.now) }
{
    let mut found = Seq::new(alloc);
    for over in directions {
        if over.from.0 == node.0 {
            found.push(*over)?;
        }
    }
    Ok(found)
}

/// For each of the first so many nodes, in order of their numbers, those of the directions that lead away from it, in order.
#[tactic(auto, using(crate::proofs::session_ways::WayLemmas::made_of_more))]
pub fn ways_of(alloc: Global, directions: &[Direction], nodes: usize) -> Result<Ways, NoMemory>
    requires { nodes ≤ 2 ^ 16 }
    ensures { IfOk result (λ ways. ways ≡ map (λ n. ways_from n directions.now) (node_ids 0 nodes)) }
{
    let mut ways = Seq::new(alloc);
    for number in 0..nodes {
        ways.push(ways_from(alloc, directions, NodeId(number as u16))?)?;
    }
    Ok(ways)
}
