//! A control plane before anything has happened, and one that is given up.
ghost use Rattle.std.specs.Prelude.{◌≡◌, ◌<◌, ◌++◌, ◌∷◌, [], length, map, IfOk};
ghost use Rattle.scenario_defs.specs.Rules.{Rules};
ghost use Rattle.net_sessions.specs.session_ways.Ways.{ways_from};
ghost use Rattle.network_defs.specs.Costs.{AreCoresOf, Cores};
ghost use Rattle.network_defs.specs.Counts.{all_nodes, directions};
ghost use Rattle.network_defs.specs.World.{start};
ghost use Rattle.network_nodes.specs.declared.node.NetworkNode.{NetworkNode as NodeValue};
ghost use Rattle.network_acts.specs.control_plane.Plane.{ArePlaced, IsPlane, at_rest};
ghost use Rattle.network_acts.specs.control_plane.Starting.{AreFirst, IsFirst};

use crate::control_plane::plane::ControlPlane;
use core_paths::{Core, CoreFault};
use mv_base::{NoMemory, NodeId};
use net_sessions::session_transit::Transit;
use net_sessions::session_ways::{Ways, directions_of, sessions_of, ways_of};
use network_nodes::NetworkNode;
use run_laws::of_edge_routes::edge_home::SharedScenario;
use run_laws::script_values::scenario_has_octets;
use scenario_defs::Scenario;
use std::alloc::Global;

/// Closes all the nodes.
fn close_all(mut nodes: Vec<NetworkNode>) {
    while let Some(node) = nodes.pop() {
        node.close();
    }
    nodes.destroy_empty();
}

/// The nodes with one more after them. On want of memory all are closed.
fn with_more(mut nodes: Vec<NetworkNode>, node: NetworkNode) -> Result<Vec<NetworkNode>, NoMemory>
    ensures { IfOk result (λ new. new.items ≡ nodes.items ++ node ∷ []) }
{
    match nodes.push(node) {
        Ok(()) => Ok(nodes),
        Err(refused) => {
            refused.value.close();
            close_all(nodes);
            Err(NoMemory)
        }
    }
}

/// The nodes with the one of that number of the scenario after them. On want of memory all are closed.
fn with_first(
    nodes: Vec<NetworkNode>,
    scenario: &SharedScenario,
    n: NodeId,
) -> Result<Vec<NetworkNode>, NoMemory>
    requires rules { Rules scenario.now }
    requires within { n.0 < length scenario.now.nodes }
    ensures { IfOk result (λ new. (node : NodeValue) × (new.items ≡ nodes.items ++ node ∷ []) × IsFirst scenario.now n node) }
{
    match NetworkNode::of(*nodes.allocator(), scenario, n) {
        Ok(node) => with_more(nodes, node),
        Err(NoMemory) => {
            close_all(nodes);
            Err(NoMemory)
        }
    }
}

/// The nodes of the scenario, in order.
fn first_nodes(alloc: Global, scenario: &SharedScenario) -> Result<Vec<NetworkNode>, NoMemory>
    requires { Rules scenario.now }
    ensures { IfOk result (λ nodes. AreFirst scenario.now (length scenario.now.nodes) nodes.items) }
{
    let mut nodes = Vec::new(alloc);
    for number in 0..scenario.lent().nodes.len() {
        nodes = with_first(nodes, scenario, NodeId(number as u16))?;
    }
    Ok(nodes)
}

/// For each node of the scenario, the directions of its sessions that lead away from it.
fn first_ways(alloc: Global, scenario: &Scenario) -> Result<Ways, NoMemory>
    requires { Rules scenario.now }
    ensures { IfOk result (λ ways. ways ≡ map (λ n. ways_from n (directions scenario.now)) (all_nodes scenario.now)) }
{
    let sessions = sessions_of(alloc, scenario)?;
    let directions = directions_of(alloc, sessions.as_slice())?;
    ways_of(alloc, directions.as_slice(), scenario.nodes.len())
}

/// The core of the scenario, in which each node is reached.
fn first_core(alloc: Global, scenario: &Scenario) -> Result<Core, NoMemory>
    requires { Rules scenario.now }
    ensures { IfOk result (λ core. core ≡ record { nodes = length scenario.now.nodes; links = scenario.now.links }) }
{
    let nodes = scenario.nodes.len() as u16;
    match Core::of(alloc, nodes, scenario.links.as_slice()) {
        Ok(core) => Ok(core),
        Err(CoreFault::NoMemory) => Err(NoMemory),
        Err(CoreFault::Disconnected(_)) => unreachable!(),
    }
}

impl ControlPlane {
    /// The control plane of a scenario that meets its rules, before anything has happened.
    pub fn of(alloc: Global, scenario: &SharedScenario) -> Result<ControlPlane, NoMemory>
        requires { Rules scenario.now }
        ensures begins { IfOk result (λ plane. (cores : Cores) → AreCoresOf scenario.now cores →
            IsPlane scenario.now cores at_rest (start scenario.now cores).network plane) }
        ensures placed { IfOk result (λ plane. ArePlaced scenario.now plane.nodes) }
    {
        let known = scenario.lent();
        scenario_has_octets(known);
        let ways = first_ways(alloc, known)?;
        let core = first_core(alloc, known)?;
        let nodes = first_nodes(alloc, scenario)?;
        Ok(ControlPlane {
            nodes,
            ways,
            transit: Transit::of(alloc),
            core,
            clock: 0,
        })
    }

    /// Frees all that it has, and spends the label bindings of its nodes.
    pub fn close(self) {
        let ControlPlane {
            nodes,
            ways: _,
            transit: _,
            core: _,
            clock: _,
        } = self;
        close_all(nodes);
    }
}
