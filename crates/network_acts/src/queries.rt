//! What is asked of a network. Nothing changes.
ghost use Rattle.std.specs.Prelude.{◌≡◌, ◌<◌, length, true, false};
ghost use Rattle.std.specs.FinMap as maps;
ghost use Rattle.network_defs.specs.Counts.{direction, is_end_up, octets_in_transit};
ghost use Rattle.network_defs.specs.Nodes.{is_edge};
ghost use Rattle.network_acts.specs.control_plane.Acted.{IsWithin};
ghost use Rattle.network_acts.specs.control_plane.Customers.{IsVrfEdge, control_at};
ghost use Rattle.network_acts.specs.control_plane.Queries.{IsCoreThere, IsEdgeThere};
ghost use Rattle.network_acts.specs.Instant.{Instant, IsSome, IsWorld, OfPlane, standing_of};

use crate::control_plane::Edge;
use crate::network::Network;
use mldp_node::LdpNode;
use mv_base::{NodeId, Pattern, VrfId};
use network_defs::session_defs::Direction;
use scenario_defs::Kind;

impl Network {
    /// The clock, in ticks.
    pub fn clock(&self) -> u64
        ensures own { result ≡ self.now.plane.clock }
        ensures is { (at : Instant) → IsWorld at self.now → result ≡ at.world.network.state.clock }
    {
        self.plane.clock
    }

    /// How many octets are in transit over the direction.
    pub fn transit(&self, over: Direction) -> usize
        ensures { (at : Instant) → IsWorld at self.now → result ≡ length (at.world.network.transit over) }
    {
        let plane = &self.plane;
        plane.transit.waiting(over)
    }

    /// How many octets are in transit over all sessions of the network together.
    pub fn total(&self) -> u64
        ensures { (at : Instant) → IsWorld at self.now → result ≡ octets_in_transit at.world }
    {
        let plane = &self.plane;
        plane.transit.total()
    }

    /// Whether the session is joined, as the direction from the first node says it.
    pub fn is_joined(&self, kind: Kind, a: NodeId, b: NodeId) -> bool
        ensures { (at : Instant) → IsWorld at self.now → result ≡ at.world.network.joined (direction kind a b) }
    {
        let plane = &self.plane;
        plane.transit.is_joined(kind, a, b)
    }

    /// Whether node n's end of the session with the peer is up.
    pub fn is_up(&self, kind: Kind, n: NodeId, peer: NodeId) -> bool
        requires network { IsSome (OfPlane (IsWithin n)) self.now }
        ensures { (at : Instant) → IsWithin n (standing_of at) → IsWorld at self.now →
            result ≡ is_end_up kind (at.world.network.state.node n) peer }
    {
        self.plane.node(n).is_up(kind, peer)
    }

    /// Whether the VRF, whose edge is node n, has selected the pattern.
    pub fn is_selected(&self, n: NodeId, vrf: VrfId, pattern: Pattern) -> bool
        requires network { IsSome (OfPlane (IsVrfEdge n vrf)) self.now }
        ensures { (at : Instant) → IsVrfEdge n vrf (standing_of at) → IsWorld at self.now →
            result ≡ maps.contains_key (control_at n (standing_of at)).selections (record { vrf = vrf; pattern = pattern }) }
    {
        self.plane.node(n).is_selected(vrf, pattern)
    }

    /// The node of that number, which is an edge.
    pub fn edge(&self, n: NodeId) -> &Edge
        requires edge { is_edge self.now.scenario n ≡ true }
        ensures { (at : Instant) → IsWorld at self.now → IsEdgeThere (standing_of at) n result.now }
    {
        match self.plane.edge(n) {
            Some(edge) => edge,
            None => unreachable!(),
        }
    }

    /// The label part of the node of that number, which is a core node.
    pub fn core_node(&self, n: NodeId) -> &LdpNode
        requires within { n.0 < length self.now.scenario.nodes }
        requires core { is_edge self.now.scenario n ≡ false }
        ensures { (at : Instant) → IsWorld at self.now → IsCoreThere (standing_of at) n result.now }
    {
        match self.plane.core_node(n) {
            Some(labels) => labels,
            None => unreachable!(),
        }
    }
}
