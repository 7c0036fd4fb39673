//! Octets that a node hands out to its sessions.
ghost use Rattle.std.specs.Prelude.{◌≡◌, [], None, Some};
ghost use Rattle.mv_base.specs.declared.ids.NodeId.{NodeId};
ghost use Rattle.label_defs.specs.Node.{Spent};
ghost use Rattle.scenario_defs.specs.declared.event.Kind.{Kind};
ghost use Rattle.scenario_defs.specs.declared.scenario.Scenario.{Scenario};
ghost use Rattle.wire_laws.specs.AnyNodes.{AnyNode};
ghost use Rattle.mv_base.specs.core_walks.Core.{Core};
ghost use Rattle.mldp_node.specs.NodeData.{IsWaitingTowardRoots};
ghost use Rattle.network_nodes.specs.NodeView.{IsNode, IsPlacedAt, MayBePeer, handed_by, labels_in, spent_in, waiting_in};

use crate::node::NetworkNode;
use mv_base::{Bytes, NodeId};
use scenario_defs::Kind;

impl NetworkNode {
    /// All octets that wait for the session are handed out. It takes no memory. A node that is spent hands out none.
    pub fn take_out(&mut self, kind: Kind, peer: NodeId) -> Bytes
        requires peer { MayBePeer self.old kind peer }
        ensures octets { spent_in self.old ≡ None → (state : AnyNode) → IsNode state self.old → result ≡ waiting_in state kind peer }
        ensures rest { spent_in self.old ≡ None → (state : AnyNode) → IsNode state self.old → IsNode (handed_by state kind peer) self.new }
        ensures spent { (spent : Spent) → spent_in self.old ≡ Some spent → result ≡ [] }
        ensures stays { spent_in self.new ≡ spent_in self.old }
        ensures peers { (other : Kind) (whom : NodeId) → MayBePeer self.old other whom → MayBePeer self.new other whom }
        ensures placed { (scenario : Scenario) (n : NodeId) → IsPlacedAt scenario n self.old → IsPlacedAt scenario n self.new }
        ensures waits { (own : Core) → IsWaitingTowardRoots own (labels_in self.old) → IsWaitingTowardRoots own (labels_in self.new) }
    {
        match self {
            NetworkNode::Edge(edge) => edge.take_out(kind, peer),
            NetworkNode::CoreNode(core_node) => core_node.take_out(peer),
        }
    }
}
