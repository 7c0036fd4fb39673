//! What is asked of the control plane. Nothing changes.
ghost use Rattle.std.specs.Prelude.{◌≡◌, ◌<◌, ◌≤◌, count_by, length, min, not, slice_get, sum_by, true, false, IfSome, None, Some};
ghost use Rattle.scenario_defs.specs.declared.scenario.Scenario.{Scenario};
ghost use Rattle.network_defs.specs.Counts as counts;
ghost use Rattle.network_defs.specs.Counts.{all_nodes, node_due};
ghost use Rattle.network_defs.specs.Nodes.{is_edge};
ghost use Rattle.network_acts.specs.control_plane.Acted.{IsIn, IsSome, IsWithin, Standing};
ghost use Rattle.network_acts.specs.control_plane.Plane.{ArePlaced};
ghost use Rattle.network_acts.specs.control_plane.Queries.{HasEnds, HaveEnds, IsCoreThere, IsEdgeThere, IsNodeThere, without_copies};

use crate::control_plane::plane::ControlPlane;
use mldp_node::LdpNode;
use mv_base::NodeId;
use mvpn_model::Session;
use network_nodes::{Edge, NetworkNode};
use scenario_defs::Kind;

impl ControlPlane {
    /// Node n.
    pub(crate) fn node(&self, n: NodeId) -> &NetworkNode
        requires { IsSome (IsWithin n) self.now }
        ensures { (at : Standing) → IsWithin n at → IsIn at self.now → IsNodeThere at n result.now }
    {
        &self.nodes[usize::from(n.0)]
    }

    /// The node that stands at that number.
    fn found(&self, n: NodeId) -> Option<&NetworkNode>
        ensures is { IfSome result (λ node. (at : Standing) → IsIn at self.now → IsNodeThere at n node.now) }
        ensures at { IfSome result (λ node. slice_get self.now.nodes n.0 ≡ Some node.now) }
        ensures none { result ≡ None → length self.now.nodes ≤ n.0 }
    {
        self.nodes.as_slice().get(usize::from(n.0))
    }

    /// The node of that number, where it is an edge.
    pub fn edge(&self, n: NodeId) -> Option<&Edge>
        ensures is { IfSome result (λ edge. (at : Standing) → IsIn at self.now → IsEdgeThere at n edge.now) }
        ensures none { result ≡ None → (scenario : Scenario) → ArePlaced scenario self.now.nodes → is_edge scenario n ≡ false }
    {
        match self.found(n) {
            Some(NetworkNode::Edge(edge)) => Some(edge),
            Some(NetworkNode::CoreNode(_)) => None,
            None => None,
        }
    }

    /// The label part of the node of that number, where it is a core node.
    pub fn core_node(&self, n: NodeId) -> Option<&LdpNode>
        ensures is { IfSome result (λ labels. (at : Standing) → IsIn at self.now → IsCoreThere at n labels.now) }
        ensures none { result ≡ None → (scenario : Scenario) → ArePlaced scenario self.now.nodes →
            n.0 < length scenario.nodes → is_edge scenario n ≡ true }
    {
        match self.found(n) {
            Some(NetworkNode::CoreNode(core)) => Some(core.label_node()),
            Some(NetworkNode::Edge(_)) => None,
            None => None,
        }
    }

    /// How many timers are due, or the greatest number of 64 bits where there are more.
    pub fn due(&self) -> u64
        ensures { (at : Standing) → IsIn at self.now →
            result ≡ min (sum_by (node_due at.network.state) (all_nodes at.scenario)) 18446744073709551615 }
    {
        let mut count: u64 = 0;
        for node in self.nodes.as_slice() {
            count = count.saturating_add(node.due(self.clock));
        }
        count
    }

    /// Whether the hold of both ends of an LDP session was run.
    fn are_held(&self, session: Session) -> bool
        requires plane { IsSome (HasEnds session) self.now }
        ensures { (at : Standing) → HasEnds session at → IsIn at self.now → result ≡ counts.are_held (without_copies at.network) session }
    {
        self.node(session.a).is_ready(session.b) && self.node(session.b).is_ready(session.a)
    }

    /// Whether the session is ready: it is joined, and the holds of an LDP session were run.
    fn is_session_ready(&self, session: Session) -> bool
        requires plane { IsSome (HasEnds session) self.now }
        ensures { (at : Standing) → HasEnds session at → IsIn at self.now → result ≡ counts.is_ready (without_copies at.network) session }
    {
        let is_joined = self.transit.is_joined(session.kind, session.a, session.b);
        match session.kind {
            Kind::Bgp => is_joined,
            Kind::Ldp => is_joined && self.are_held(session),
        }
    }

    /// How many of the sessions are not ready, or the greatest number of 64 bits where there are more.
    pub fn unready(&self, sessions: &[Session]) -> u64
        requires plane { IsSome (HaveEnds sessions.now) self.now }
        ensures { (at : Standing) → HaveEnds sessions.now at → IsIn at self.now →
            result ≡ min (count_by (λ session. not (counts.is_ready (without_copies at.network) session)) sessions.now)
            18446744073709551615 }
    {
        let mut count: u64 = 0;
        for session in sessions {
            if !self.is_session_ready(*session) {
                count = count.saturating_add(1);
            }
        }
        count
    }
}
