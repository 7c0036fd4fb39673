//! The calls of sessions, of timers and of costs.
ghost use Rattle.std.specs.Prelude.{◌≡◌, ◌<◌, ◌^◌, [], true, false, length, None, OnOk};
ghost use Rattle.edge_defs.specs.Steps.{Noticed, Raised, Rerouted, Timers};
ghost use Rattle.edge_streams.specs.Kept.{session};
ghost use Rattle.edge_core.specs.Answers.{IsOneOf};
ghost use Rattle.edge_core.specs.State.{home_of, is_up};
ghost use Rattle.edge_core.specs.Taking.{AnswersOctets as EdgeOctets};
ghost use Rattle.network_defs.specs.Counts.{is_end_up};
ghost use Rattle.network_nodes.specs.Answers.{Answers, AnswersOctets, after};
ghost use Rattle.mldp_node.specs.NodeData.{WaitsTowardRootsOf};
ghost use Rattle.network_nodes.specs.NodeView.{MayBePeer, count_around, data_in, labels_in, spent_in};

use crate::node::{NetworkNode, told};
use core_paths::Core;
use edge_core::{Edge, EdgeAnswer, EdgeCall};
use mv_base::NodeId;
use scenario_defs::Kind;

/// An edge takes octets of the session with the peer.
fn take_at_edge(
    edge: &mut Edge,
    kind: Kind,
    peer: NodeId,
    bytes: &[u8],
    now: u64,
    core: &Core,
) -> EdgeAnswer
    requires nodes { core.now.nodes ≡ length (home_of edge.old).scenario.nodes }
    requires now { now < 2 ^ 63 }
    requires up { edge.old.spent ≡ None → is_up edge.old kind peer ≡ true }
    ensures { EdgeOctets core.now now (session kind peer) bytes.now edge.old edge.new result }
{
    match kind {
        Kind::Bgp => edge.take_bgp(peer, bytes, now, core),
        Kind::Ldp => edge.take_ldp(peer, bytes, now, core),
    }
}

impl NetworkNode {
    /// Octets come over the session, whose end is up (RFC 4271 section 4, RFC 5036 section 3.1): the messages that are whole with them are
    /// taken, those before the first fault of the stream too.
    pub fn take(
        &mut self,
        kind: Kind,
        from: NodeId,
        bytes: &[u8],
        now: u64,
        core: &Core,
    ) -> EdgeAnswer
        requires nodes { core.now.nodes ≡ count_around self.old }
        requires now { now < 2 ^ 63 }
        requires peer { MayBePeer self.old kind from }
        requires up { spent_in self.old ≡ None → is_end_up kind (data_in self.old) from ≡ true }
        ensures { AnswersOctets core.now now kind from bytes.now self.old self.new result }
    {
        match self {
            NetworkNode::Edge(edge) => take_at_edge(edge, kind, from, bytes, now, core),
            NetworkNode::CoreNode(core_node) => told(core_node.take_ldp(from, bytes, now, core)),
        }
    }

    /// The end of the session comes up, and has a fresh stream. Over BGP the peer is sent all that the edge holds for it.
    pub fn raised(&mut self, kind: Kind, peer: NodeId, now: u64, core: &Core) -> EdgeAnswer
        requires nodes { core.now.nodes ≡ count_around self.old }
        requires now { now < 2 ^ 63 }
        requires peer { MayBePeer self.old kind peer }
        requires down { spent_in self.old ≡ None → is_end_up kind (data_in self.old) peer ≡ false }
        ensures answers { Answers core.now now (after (Raised kind peer)) self.old self.new result }
        ensures only { IsOneOf [] result }
    {
        match self {
            NetworkNode::Edge(edge) => edge.call(EdgeCall::Raised { kind, peer }, now, core),
            NetworkNode::CoreNode(core_node) => told(core_node.raised(peer, now, core)),
        }
    }

    /// The end of the session notices its loss: all that came over it is forgotten, and what waits for it is dropped.
    pub fn noticed(&mut self, kind: Kind, peer: NodeId, now: u64, core: &Core) -> EdgeAnswer
        requires nodes { core.now.nodes ≡ count_around self.old }
        requires now { now < 2 ^ 63 }
        requires peer { MayBePeer self.old kind peer }
        ensures answers { Answers core.now now (after (Noticed kind peer)) self.old self.new result }
        ensures only { IsOneOf [] result }
    {
        match self {
            NetworkNode::Edge(edge) => edge.call(EdgeCall::Noticed { kind, peer }, now, core),
            NetworkNode::CoreNode(core_node) => told(core_node.noticed(peer, now, core)),
        }
    }

    /// The timers that are due at the clock run.
    pub fn timers(&mut self, now: u64, core: &Core) -> EdgeAnswer
        requires nodes { core.now.nodes ≡ count_around self.old }
        requires now { now < 2 ^ 63 }
        ensures answers { Answers core.now now (after Timers) self.old self.new result }
        ensures only { IsOneOf [] result }
    {
        match self {
            NetworkNode::Edge(edge) => edge.call(EdgeCall::Timers, now, core),
            NetworkNode::CoreNode(core_node) => told(core_node.timers(now, core)),
        }
    }

    /// Costs of links changed: the node knows the core by them from now on, and each tree that waits for a label does so by them.
    pub fn rerouted(&mut self, now: u64, core: &Core) -> EdgeAnswer
        requires nodes { core.now.nodes ≡ count_around self.old }
        requires now { now < 2 ^ 63 }
        ensures answers { Answers core.now now (after Rerouted) self.old self.new result }
        ensures toward { OnOk result (WaitsTowardRootsOf core.now (labels_in self.new)) }
        ensures only { IsOneOf [] result }
    {
        match self {
            NetworkNode::Edge(edge) => edge.call(EdgeCall::Rerouted, now, core),
            NetworkNode::CoreNode(core_node) => told(core_node.rerouted(now, core)),
        }
    }
}
