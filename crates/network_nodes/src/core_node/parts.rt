//! The parts of a core node that goes on, and the calls of sessions, of timers and of costs.
ghost use Rattle.std.specs.Prelude.{◌≡◌, false, length, OnOk};
ghost use Rattle.label_defs.specs.Steps.{Noticed, Raised, Rerouted, Timers};
ghost use Rattle.mldp_node.specs.NodeData.{WaitsTowardRootsOf};
ghost use Rattle.network_nodes.specs.core_node.Answers.{IsSpending};
ghost use Rattle.network_nodes.specs.core_node.Called.{SettlesCall, going, told_as};
ghost use Rattle.network_nodes.specs.core_node.View.{IsLive, is_up};

use crate::core_node::fault::{CoreAnswer, CoreFault};
use core_paths::Core;
use edge_streams::EdgeStreams;
use mldp_node::{LdpNode, NodeFault};
use mv_base::NodeId;
use scenario_defs::Kind;
use std::alloc::Global;

/// What a core node has, apart from whether it is spent.
pub(crate) struct Parts {
    pub(crate) alloc: Global,
    pub(crate) node: LdpNode,
    pub(crate) streams: EdgeStreams,
}

/// What a core node answers where its label part answers so.
pub(crate) fn told(answer: Result<(), NodeFault>) -> CoreAnswer
    ensures value { result ≡ told_as answer }
    ensures only { IsSpending result }
{
    match answer {
        Ok(()) => Ok(()),
        Err(fault) => Err(CoreFault::from(fault)),
    }
}

impl Parts {
    /// The end of the session with the neighbour comes up.
    pub(crate) fn raise(&mut self, peer: NodeId, now: u64, core: &Core) -> CoreAnswer
        requires live { IsLive self.old.node self.old.streams }
        requires nodes { core.now.nodes ≡ length self.old.node.place.addrs }
        requires down { is_up (going self.old) peer ≡ false }
        ensures settles { SettlesCall core.now now (Raised peer) (going self.old) self.new result }
        ensures only { IsSpending result }
    {
        // It is known here that a core as nodes know it is there.
        let _ = core.nodes();
        self.streams.raise(Kind::Ldp, peer)?;
        told(self.node.raised(peer, now, core))
    }

    /// The end of the session with the neighbour notices its loss.
    pub(crate) fn lose(&mut self, peer: NodeId, now: u64, core: &Core) -> CoreAnswer
        requires live { IsLive self.old.node self.old.streams }
        requires nodes { core.now.nodes ≡ length self.old.node.place.addrs }
        ensures settles { SettlesCall core.now now (Noticed peer) (going self.old) self.new result }
        ensures only { IsSpending result }
    {
        let _ = core.nodes();
        self.streams.lose(Kind::Ldp, peer);
        told(self.node.noticed(peer, now, core))
    }

    /// The timers run.
    pub(crate) fn run_timers(&mut self, now: u64, core: &Core) -> CoreAnswer
        requires live { IsLive self.old.node self.old.streams }
        requires nodes { core.now.nodes ≡ length self.old.node.place.addrs }
        ensures settles { SettlesCall core.now now Timers (going self.old) self.new result }
        ensures only { IsSpending result }
    {
        let _ = core.nodes();
        told(self.node.timers(now, core))
    }

    /// Costs of links changed.
    pub(crate) fn reroute(&mut self, now: u64, core: &Core) -> CoreAnswer
        requires live { IsLive self.old.node self.old.streams }
        requires nodes { core.now.nodes ≡ length self.old.node.place.addrs }
        ensures settles { SettlesCall core.now now Rerouted (going self.old) self.new result }
        ensures toward { OnOk result (WaitsTowardRootsOf core.now self.new.node) }
        ensures only { IsSpending result }
    {
        let _ = core.nodes();
        told(self.node.rerouted(now, core))
    }

    /// Frees all that it has.
    pub(crate) fn close(self) {
        let Parts {
            alloc: _,
            node,
            streams: _,
        } = self;
        node.close();
    }
}
