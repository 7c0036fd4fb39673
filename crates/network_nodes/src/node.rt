//! A node, as its callers have it.
ghost use Rattle.std.specs.Prelude.{◌≡◌, ◌<◌, length, IfOk, None};
ghost use Rattle.std.specs.FinMap as maps;
ghost use Rattle.scenario_defs.specs.Rules.{Rules};
ghost use Rattle.network_nodes.specs.core_node.View.{state_of};
ghost use Rattle.edge_core.specs.node_laws.Places.{node_place};
ghost use Rattle.network_defs.specs.Nodes.{is_edge};
ghost use Rattle.wire_laws.specs.CoreNodes.{fresh_core};
ghost use Rattle.network_nodes.specs.Answers.{told_as};
ghost use Rattle.network_nodes.specs.NodeView.{IsNode, IsPlacedAt, first_node, labels_in, spent_in};

use crate::core_node::{CoreAnswer, CoreFault, CoreNode};
use edge_core::{Edge, EdgeAnswer, EdgeFault, addrs_of};
use mv_base::{NoMemory, NodeId};
use scenario_defs::Scenario;
use std::alloc::Global;
use wire_laws::of_edge_routes::edge_home::SharedScenario;

/// A node of a scenario. It must be closed.
///
/// Where a call answered `NoLabel` or `NoMemory` the node is spent: each later call that may change it answers the same, and nothing is
/// handed out.
pub enum NetworkNode {
    /// A provider edge.
    Edge(Edge),
    /// A core node.
    CoreNode(CoreNode),
}

/// What a node answers where its core node answers so.
pub(crate) fn told(answer: CoreAnswer) -> EdgeAnswer
    ensures { result ≡ told_as answer }
{
    match answer {
        Ok(()) => Ok(()),
        Err(
            CoreFault::Session {
                peer,
                place,
                reason,
            },
        ) => Err(EdgeFault::Session {
            peer,
            place,
            reason,
        }),
        Err(CoreFault::NoLabel) => Err(EdgeFault::NoLabel),
        Err(CoreFault::NoMemory) => Err(EdgeFault::NoMemory),
    }
}

/// Whether the node of that number is an edge.
fn is_edge(scenario: &Scenario, n: NodeId) -> bool
    requires { n.0 < length scenario.now.nodes }
    ensures { result ≡ is_edge scenario.now n }
{
    scenario.nodes.as_slice()[usize::from(n.0)].edge
}

/// The core node of that number.
fn first_core(alloc: Global, scenario: &Scenario, n: NodeId) -> Result<CoreNode, NoMemory>
    requires rules { Rules scenario.now }
    requires within { n.0 < length scenario.now.nodes }
    ensures placed { IfOk result (λ core. core.labels.place ≡ node_place scenario.now n) }
    ensures fresh { IfOk result (λ core. state_of core ≡ fresh_core scenario.now.labels) }
    ensures waits { IfOk result (λ core. core.labels.awaited ≡ maps.empty) }
{
    let addrs = addrs_of(alloc, scenario.nodes.as_slice())?;
    CoreNode::of(alloc, n, &addrs, scenario.labels, scenario.life)
}

impl NetworkNode {
    /// The node of that number of the scenario, before anything has happened. An edge shares the scenario.
    pub fn of(alloc: Global, scenario: &SharedScenario, n: NodeId) -> Result<NetworkNode, NoMemory>
        requires rules { Rules scenario.now }
        requires within { n.0 < length scenario.now.nodes }
        ensures placed { IfOk result (IsPlacedAt scenario.now n) }
        ensures unspent { IfOk result (λ node. spent_in node ≡ None) }
        ensures is { IfOk result (IsNode (first_node scenario.now n)) }
        ensures waits { IfOk result (λ node. (labels_in node).awaited ≡ maps.empty) }
    {
        if is_edge(scenario.lent(), n) {
            Ok(NetworkNode::Edge(Edge::of(alloc, scenario, n)?))
        } else {
            Ok(NetworkNode::CoreNode(first_core(alloc, scenario.lent(), n)?))
        }
    }

    /// Frees all that it has, and spends its label bindings.
    pub fn close(self) {
        match self {
            NetworkNode::Edge(edge) => edge.close(),
            NetworkNode::CoreNode(core_node) => core_node.close(),
        }
    }
}
