//! The sessions of a scenario.
ghost use Rattle.std.specs.Prelude.{◌≡◌, ◌≤◌, ◌^◌, ◌++◌, length, map, IfOk, OnOk};
ghost use Rattle.mvpn_model.specs.Sessions.{edges_from, bgp_session, bgp_sessions, ldp_session, sessions};

use mv_base::{Link, NoMemory, NodeId, Seq};
use mvpn_model::Session;
use scenario_defs::{Kind, Node, Scenario};
use std::alloc::Global;

/// Sessions, in order.
pub type Sessions = Seq<Session>;

/// The numbers of those of the nodes that are edges, in order.
fn edges_of(alloc: Global, nodes: &[Node]) -> Result<Seq<NodeId>, NoMemory>
    requires { length nodes.now ≤ 2 ^ 16 }
    ensures { IfOk result (λ found. found ≡ edges_from 0 nodes.now) }
{
    let mut found = Seq::new(alloc);
    for (number, node) in nodes.iter().enumerate() {
        if node.edge {
            found.push(NodeId(number as u16))?;
        }
    }
    Ok(found)
}

/// Adds the session over BGP of an edge with each of the later edges.
fn add_bgp_of(all: &mut Sessions, a: NodeId, later: &[NodeId]) -> Result<(), NoMemory>
    ensures { OnOk result (all.new ≡ all.old ++ map (bgp_session a) later.now) }
{
    let kind = Kind::Bgp;
    for b in later {
        all.push(Session { kind, a, b: *b })?;
    }
    Ok(())
}

/// Adds the session over BGP of each two of the edges.
fn add_bgp(all: &mut Sessions, edges: &[NodeId]) -> Result<(), NoMemory>
    ensures { OnOk result (all.new ≡ all.old ++ bgp_sessions edges.now) }
{
    for place in 0..edges.len() {
        add_bgp_of(all, edges[place], &edges[place + 1..])?;
    }
    Ok(())
}

/// Adds the session over LDP of each of the links.
fn add_ldp(all: &mut Sessions, links: &[Link]) -> Result<(), NoMemory>
    ensures { OnOk result (all.new ≡ all.old ++ map ldp_session links.now) }
{
    let kind = Kind::Ldp;
    for link in links {
        all.push(Session {
            kind,
            a: link.a,
            b: link.b,
        })?;
    }
    Ok(())
}

/// The sessions of a scenario: first one over BGP for each two of the edges (RFC 4364 section 4.3.2), by the first and then by
/// the second, and then one over LDP for each link (RFC 5036 section 2.2.3).
pub fn sessions_of(alloc: Global, scenario: &Scenario) -> Result<Sessions, NoMemory>
    requires { length scenario.now.nodes ≤ 2 ^ 16 }
    ensures { IfOk result (λ found. found ≡ sessions scenario.now) }
{
    let edges = edges_of(alloc, scenario.nodes.as_slice())?;
    let mut found = Seq::new(alloc);
    add_bgp(&mut found, edges.as_slice())?;
    add_ldp(&mut found, scenario.links.as_slice())?;
    Ok(found)
}
