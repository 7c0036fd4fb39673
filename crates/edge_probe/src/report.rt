//! The probe.
ghost use Rattle.std.specs.Prelude.{◌≡◌, length, None, IfOk};
ghost use Rattle.edge_core.specs.State.{IsIn, home_of};
ghost use Rattle.edge_probe.specs.Behind.{IsFresh};
ghost use Rattle.edge_routes.specs.edge_home.Home as homes;
ghost use Rattle.edge_routes.specs.edge_home.Home.{IsHome};
ghost use Rattle.network_defs.specs.node_defs.EdgeState.{fresh_state};
ghost use Rattle.probe_defs.specs.Lines.{IsProbe};
ghost use Rattle.probe_defs.specs.Probed.{Probed};
ghost use Rattle.scenario_defs.specs.Rules.{Rules};

use crate::given::{give_all, raise};
use crate::told::imports_of;
use core_paths::{Core, CoreFault};
use edge_core::Edge;
use edge_routes::edge_home::shared_copy;
use mv_base::{NoMemory, NodeId};
use network_laws::core_laws::each_scenario_has_cores;
use probe_defs::{ProbeLines, ProbeReport, lines_make_a_probe};
use scenario_defs::Scenario;
use std::alloc::Global;

/// The core of the scenario, in which each node is reached.
fn first_core(alloc: Global, scenario: &Scenario) -> Result<Core, NoMemory>
    requires { Rules scenario.now }
    ensures { IfOk result (λ core. core ≡ record { nodes = length scenario.now.nodes; links = scenario.now.links }) }
{
    let nodes = scenario.nodes.len() as u16;
    match Core::of(alloc, nodes, scenario.links.as_slice()) {
        Ok(core) => Ok(core),
        Err(CoreFault::NoMemory) => Err(NoMemory),
        Err(CoreFault::Disconnected(_)) => unreachable!(),
    }
}

/// The edge of that number, before anything has happened.
fn first_edge(alloc: Global, scenario: &Scenario, me: NodeId) -> Result<Edge, NoMemory>
    requires { IsHome scenario.now me }
    ensures home { IfOk result (λ edge. home_of edge ≡ homes.home_of scenario.now me) }
    ensures unspent { IfOk result (λ edge. edge.spent ≡ None) }
    ensures is { IfOk result (IsIn (fresh_state scenario.now.labels)) }
{
    let shared = shared_copy(alloc, scenario)?;
    Edge::of(alloc, &shared, me)
}

/// What is reported of an edge in which nothing has happened: its session with the peer comes up, it is given the lines, and is asked.
fn tell(
    own: &mut Edge,
    alloc: Global,
    scenario: &Scenario,
    edge: NodeId,
    peer: NodeId,
    lines: &ProbeLines,
    core: &Core,
) -> Result<ProbeReport, NoMemory>
    requires asked { IsProbe scenario.now edge peer lines.now }
    requires home { home_of own.old ≡ homes.home_of scenario.now edge }
    requires fresh { IsFresh core.now own.old }
    ensures { IfOk result (Probed scenario.now edge peer lines.now) }
{
    lines_make_a_probe();
    raise(own, peer, core)?;
    let fault = give_all(own, alloc, scenario, peer, lines, core)?;
    let imports = imports_of(own, alloc, scenario, edge)?;
    let wants = own.wants(alloc)?;
    Ok(ProbeReport {
        imports,
        wants,
        fault,
    })
}

/// What an edge makes of the octets of a peer and of the joins of customers, line by line, at clock 0.
pub fn probe(
    alloc: Global,
    scenario: &Scenario,
    edge: NodeId,
    peer: NodeId,
    lines: &ProbeLines,
) -> Result<ProbeReport, NoMemory>
    requires { IsProbe scenario.now edge peer lines.now }
    ensures { IfOk result (Probed scenario.now edge peer lines.now) }
{
    each_scenario_has_cores();
    let core = first_core(alloc, scenario)?;
    let mut own = first_edge(alloc, scenario, edge)?;
    let told = tell(&mut own, alloc, scenario, edge, peer, lines, &core);
    own.close();
    told
}
