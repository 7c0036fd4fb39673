//! An edge, as its callers have it.
ghost use Rattle.std.specs.Prelude.{◌≡◌, ◌<◌, ◌≤◌, length, map, true, option_map, None, IfOk};
ghost use Rattle.std.specs.FinMap as maps;
ghost use Rattle.label_defs.specs.Node.{fresh_node};
ghost use Rattle.mldp_node.specs.NodeData.{cause};
ghost use Rattle.edge_defs.specs.Edge.{no_control};
ghost use Rattle.edge_routes.specs.edge_home.Home as homes;
ghost use Rattle.edge_routes.specs.edge_home.Home.{IsHome};
ghost use Rattle.edge_routing.specs.control_laws.Control.{control_of};
ghost use Rattle.edge_routing.specs.edge_control.Places.{IsTreeAt, is_own_vrf};
ghost use Rattle.edge_routing.specs.Routing.{IsInStep};
ghost use Rattle.network_defs.specs.node_defs.EdgeState.{fresh_state};
ghost use Rattle.node_laws.specs.Places.{node_place};
ghost use Rattle.edge_routing.specs.declared.routing.EdgeRouting.{EdgeRouting as Routings};
ghost use Rattle.edge_core.specs.Called.{spent_after};
ghost use Rattle.edge_core.specs.State.{IsIn, IsLive, IsTreeIn, home_of};

use crate::clocks::RaiseClocks;
use crate::fault::{EdgeAnswer, EdgeFault};
use crate::parts::Parts;
use edge_routes::edge_home::SharedScenario;
use edge_routing::EdgeRouting;
use edge_routing::of_edge_labels::EdgeLabels;
use edge_routing::of_edge_streams::EdgeStreams;
use edge_routing::of_vrf_trees::VrfTree;
use mldp_node::{Addrs, LdpNode, NodeFault};
use mv_base::{NoMemory, NodeId, Seq, VrfId};
use scenario_defs::{Node, Scenario};
use std::alloc::Global;
use std::marker::Model;

/// A provider edge of a scenario. Contracts see it as an `EdgeView`. It must be closed.
///
/// Where a call answered `NoLabel` or `NoMemory` it is spent: each later call that may change it answers the same, and nothing is handed
/// out.
pub struct Edge {
    pub(crate) parts: Parts,
    pub(crate) spent: Option<NodeFault>,
}

impl Model for Edge {
    ghost use Rattle.std.specs.Prelude.{◌≡◌, None};
    ghost use Rattle.edge_core.specs.Called.{seen};
    ghost use Rattle.edge_core.specs.State.{IsLive};
    ghost use Rattle.edge_core.specs.View.{EdgeView, view_code};

    ghost Value = { EdgeView };

    ghost coded = { view_code };

    ghost view = { λ e. seen e.parts e.spent };

    ghost invariant = { λ e. e.spent ≡ None → IsLive e.parts.routing e.parts.labels e.parts.streams };
}

/// Why an edge is spent after the answer, if it is.
pub(crate) fn spent_by(answer: &EdgeAnswer) -> Option<NodeFault>
    ensures { option_map cause result ≡ spent_after answer.now }
{
    match answer {
        Err(EdgeFault::NoLabel) => Some(NodeFault::NoLabel),
        Err(EdgeFault::NoMemory) => Some(NodeFault::NoMemory),
        _ => None,
    }
}

/// The addresses of the nodes, by number.
pub fn addrs_of(alloc: Global, nodes: &[Node]) -> Result<Addrs, NoMemory>
    ensures { IfOk result (λ addrs. addrs ≡ map (λ node. node.addr) nodes.now) }
{
    let mut addrs = Vec::new(alloc);
    for node in nodes {
        addrs.push(node.addr)?;
    }
    Ok(Seq::from_vec(addrs))
}

/// The label part of the edge of that number.
fn first_labels(alloc: Global, scenario: &Scenario, me: NodeId) -> Result<EdgeLabels, NoMemory>
    requires { IsHome scenario.now me }
    ensures live { IfOk result (λ labels. (routing : Routings) → IsInStep routing → routing.control.home ≡ homes.home_of scenario.now me →
        control_of routing.control ≡ no_control → IsLive routing labels maps.empty) }
    ensures fresh { IfOk result (λ labels. labels.node ≡ fresh_node scenario.now.labels) }
    ensures waits { IfOk result (λ labels. labels.awaited ≡ maps.empty) }
{
    let addrs = addrs_of(alloc, scenario.nodes.as_slice())?;
    EdgeLabels::of(alloc, me, &addrs, scenario.labels, scenario.life)
}

impl Edge {
    /// The node of that number, which is an edge of the scenario, before anything has happened. It shares the scenario.
    pub fn of(alloc: Global, scenario: &SharedScenario, me: NodeId) -> Result<Edge, NoMemory>
        requires { IsHome scenario.now me }
        ensures home { IfOk result (λ edge. home_of edge ≡ homes.home_of scenario.now me) }
        ensures unspent { IfOk result (λ edge. edge.spent ≡ None) }
        ensures is { IfOk result (IsIn (fresh_state scenario.now.labels)) }
        ensures waits { IfOk result (λ edge. edge.labels.awaited ≡ maps.empty) }
    {
        let routing = EdgeRouting::of(alloc, scenario, me)?;
        let streams = EdgeStreams::of(alloc);
        let labels = first_labels(alloc, scenario.lent(), me)?;
        Ok(Edge {
            parts: Parts {
                alloc,
                routing,
                labels,
                streams,
                raised: RaiseClocks::of(alloc),
            },
            spent: None,
        })
    }

    /// The label part. It takes no memory.
    pub fn label_node(&self) -> &LdpNode
        ensures { result.now ≡ self.now.labels }
    {
        self.parts.labels.node()
    }

    /// What the VRF keeps: its entries, notes, selections and flows, each flow with its choice, are those of this VRF in the edge's data.
    /// It takes no memory. Of a spent edge no more is said than that the tree is the one that stands for the VRF.
    pub fn tree(&self, vrf: VrfId) -> &VrfTree
        requires own { is_own_vrf (home_of self.now) vrf ≡ true }
        ensures at { IsTreeAt self.now.routing.control vrf result.now }
        ensures keeps { self.now.spent ≡ None → IsTreeIn self.now vrf result.now }
    {
        self.parts.routing.control.tree(vrf)
    }

    /// Frees all that it has, and spends its label bindings.
    pub fn close(self) {
        let Edge { parts, spent: _ } = self;
        parts.close();
    }
}
