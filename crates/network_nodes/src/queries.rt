//! What is asked of a node. Nothing changes, and no memory is taken.
ghost use Rattle.std.specs.Prelude.{◌≡◌, min, not, false, None, Some};
ghost use Rattle.std.specs.FinMap as maps;
ghost use Rattle.label_defs.specs.LabelData as labels;
ghost use Rattle.mv_base.specs.declared.ids.NodeId.{NodeId};
ghost use Rattle.network_defs.specs.Counts.{is_end_up, node_due};
ghost use Rattle.network_defs.specs.Nodes.{Nodes, part_of};
ghost use Rattle.network_defs.specs.Refusals.{control_of};
ghost use Rattle.network_nodes.specs.NodeView.{HasVrf, IsPlacedAt, data_in, spent_in};

use crate::node::NetworkNode;
use mv_base::{NodeId, Pattern, VrfId};
use scenario_defs::Kind;

impl NetworkNode {
    /// Whether the end of the session is up.
    pub fn is_up(&self, kind: Kind, peer: NodeId) -> bool
        ensures { result ≡ is_end_up kind (data_in self.now) peer }
    {
        match self {
            NetworkNode::Edge(edge) => edge.is_up(kind, peer),
            NetworkNode::CoreNode(core_node) => match kind {
                Kind::Bgp => false,
                Kind::Ldp => core_node.is_up(peer),
            },
        }
    }

    /// Whether the end of the LDP session with the neighbour is up and its hold was not run.
    fn holding(&self, peer: NodeId) -> bool
        ensures { result ≡ elim (maps.get (part_of (data_in self.now)).ends peer) [ None ↦ false | Some end ↦ not end.held ] }
    {
        match self {
            NetworkNode::Edge(edge) => edge.holding(peer),
            NetworkNode::CoreNode(core_node) => core_node.holding(peer),
        }
    }

    /// Whether the end of the LDP session with the neighbour is up and its hold was run.
    pub fn is_ready(&self, peer: NodeId) -> bool
        ensures { result ≡ labels.is_ready (part_of (data_in self.now)) peer }
    {
        self.is_up(Kind::Ldp, peer) && !self.holding(peer)
    }

    /// How many timers are due at the clock, or the greatest number of 64 bits where there are more. Of a spent node nothing is said.
    pub fn due(&self, now: u64) -> u64
        ensures { spent_in self.now ≡ None → (network : Nodes) (n : NodeId) → IsPlacedAt network.scenario n self.now →
            network.node n ≡ data_in self.now → network.clock ≡ now → result ≡ min (node_due network n) 18446744073709551615 }
    {
        match self {
            NetworkNode::Edge(edge) => edge.due(now),
            NetworkNode::CoreNode(core_node) => core_node.due(now),
        }
    }

    /// Whether the pattern is selected in the VRF, which is one of the edge.
    pub fn is_selected(&self, vrf: VrfId, pattern: Pattern) -> bool
        requires own { HasVrf self.now vrf }
        ensures { result ≡ maps.contains_key (control_of (data_in self.now)).selections (record { vrf = vrf; pattern = pattern }) }
    {
        match self {
            NetworkNode::Edge(edge) => edge.is_selected(vrf, pattern),
            NetworkNode::CoreNode(_) => unreachable!(),
        }
    }
}
