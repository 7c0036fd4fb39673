//! Datagrams that a site sends into a VRF, and copies that arrive under a label (RFC 6513 sections 9.1.1 and 12; RFC 3032). Nothing
//! changes.
ghost use Rattle.std.specs.Prelude.{◌≡◌, IfOk, None};
ghost use Rattle.mv_base.specs.Lists.{Among};
ghost use Rattle.mv_base.specs.declared.ids.NodeId.{NodeId};
ghost use Rattle.edge_core.specs.State.{IsFate};
ghost use Rattle.edge_defs.specs.Datagrams.{entering_fate};
ghost use Rattle.edge_defs.specs.Edge.{EdgeData};
ghost use Rattle.edge_defs.specs.Place.{OwnVrf, own_vrfs};
ghost use Rattle.network_defs.specs.Nodes.{Edge, Nodes, place_of};
ghost use Rattle.network_nodes.specs.Answers.{Stands};
ghost use Rattle.network_nodes.specs.Network.{core_fate, landing_fate};
ghost use Rattle.network_nodes.specs.NodeView.{HasVrf, count_around, data_in, spent_in};

use crate::core_node::CoreNode;
use crate::node::NetworkNode;
use core_paths::Core;
use edge_core::{Fate, branches_along};
use label_forwarding::Datagram;
use mv_base::{NoMemory, NodeId, Seq, SiteId, VrfId};
use std::alloc::Global;

/// Where a copy goes at a core node that came from the neighbour under the label: on the branches of its tree (RFC 6388 section 2.4.1).
fn landing(core_node: &CoreNode, alloc: Global, from: NodeId, label: u32) -> Result<Fate, NoMemory>
    ensures { core_node.now.labels.node.spent ≡ None → IfOk result (IsFate (core_fate core_node.now.labels.node.part from label)) }
{
    let outs = Seq::new(alloc);
    match core_node.label_node().fib().lookup(from, label) {
        None => Ok(Fate {
            outs,
            branches: Seq::new(alloc),
        }),
        Some(entry) => Ok(Fate {
            outs,
            branches: branches_along(alloc, &entry.fec, entry.branches())?,
        }),
    }
}

impl NetworkNode {
    /// Where a datagram goes that the site sends into the VRF, which is one of the edge, in the core as the edge knows it.
    pub fn enter(
        &self,
        alloc: Global,
        vrf: VrfId,
        site: SiteId,
        datagram: &Datagram<'_>,
        now: u64,
        core: &Core,
    ) -> Result<Fate, NoMemory>
        requires own { HasVrf self.now vrf }
        requires core { core.now.nodes ≡ count_around self.now }
        ensures { (network : Nodes) (n : NodeId) → Stands network n core.now now self.now → (own : OwnVrf) →
            Among own (own_vrfs (place_of network n)) → own.id ≡ vrf → (edge : EdgeData) → data_in self.now ≡ Edge edge →
            IfOk result (IsFate (entering_fate (place_of network n) network.clock edge own site datagram.now.source datagram.now.group)) }
    {
        match self {
            NetworkNode::Edge(edge) => edge.enter(alloc, vrf, site, datagram, now, core),
            NetworkNode::CoreNode(_) => unreachable!(),
        }
    }

    /// Where a copy goes that came from the neighbour under the label, in the core as the node knows it. Of a spent node nothing is said.
    pub fn arrive(
        &self,
        alloc: Global,
        from: NodeId,
        label: u32,
        datagram: &Datagram<'_>,
        now: u64,
        core: &Core,
    ) -> Result<Fate, NoMemory>
        requires core { core.now.nodes ≡ count_around self.now }
        ensures { spent_in self.now ≡ None → (network : Nodes) (n : NodeId) → Stands network n core.now now self.now →
            IfOk result (IsFate (landing_fate network n (data_in self.now) from label datagram.now.source datagram.now.group)) }
    {
        match self {
            NetworkNode::Edge(edge) => edge.arrive(alloc, from, label, datagram, now, core),
            NetworkNode::CoreNode(core_node) => landing(core_node, alloc, from, label),
        }
    }
}
