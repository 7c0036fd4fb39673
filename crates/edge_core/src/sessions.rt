//! Sessions that come up or are lost, the timers, and other costs of links.
ghost use Rattle.std.specs.Prelude.{◌≡◌, [], false, OnOk};
ghost use Rattle.mv_base.specs.Lists.{Among};
ghost use Rattle.scenario_defs.specs.declared.event.Kind.TheVariants as kinds;
ghost use Rattle.edge_defs.specs.Steps.{Noticed, Raised, Rerouted, Timers};
ghost use Rattle.edge_routes.specs.edge_home.Home.{peers_of};
ghost use Rattle.mldp_node.specs.NodeData.{WaitsTowardRootsOf};
ghost use Rattle.edge_core.specs.Answers.{IsOneOf};
ghost use Rattle.edge_core.specs.Called.{IsReady, SettlesCall, going};
ghost use Rattle.edge_core.specs.State.{is_up};

use crate::fault::EdgeAnswer;
use crate::parts::Parts;
use core_paths::Core;
use edge_routing::of_edge_labels::OwnCall;
use mv_base::NodeId;
use scenario_defs::Kind;

impl Parts {
    /// The end of the BGP session with the peer comes up.
    pub(crate) fn raise_bgp(&mut self, peer: NodeId, now: u64, core: &Core) -> EdgeAnswer
        requires ready { IsReady core.now now self.old }
        requires peer { Among peer (peers_of self.old.routing.control.home) }
        requires down { is_up (going self.old) kinds.Bgp peer ≡ false }
        ensures settles { SettlesCall core.now now (Raised kinds.Bgp peer) (going self.old) self.new result }
        ensures only { IsOneOf [] result }
    {
        self.streams.raise(Kind::Bgp, peer)?;
        self.raised.raise(peer, now)?;
        let told = self.routing.raise(self.alloc, peer, now, core);
        self.settle(&OwnCall::None, told, now, core)
    }

    /// The end of the LDP session with the neighbour comes up.
    pub(crate) fn raise_ldp(&mut self, peer: NodeId, now: u64, core: &Core) -> EdgeAnswer
        requires ready { IsReady core.now now self.old }
        requires down { is_up (going self.old) kinds.Ldp peer ≡ false }
        ensures settles { SettlesCall core.now now (Raised kinds.Ldp peer) (going self.old) self.new result }
        ensures only { IsOneOf [] result }
    {
        self.streams.raise(Kind::Ldp, peer)?;
        let told = self.routing.step(self.alloc, now, core);
        self.settle(&OwnCall::Raise(peer), told, now, core)
    }

    /// The end of the BGP session with the peer notices its loss.
    pub(crate) fn lose_bgp(&mut self, peer: NodeId, now: u64, core: &Core) -> EdgeAnswer
        requires ready { IsReady core.now now self.old }
        ensures settles { SettlesCall core.now now (Noticed kinds.Bgp peer) (going self.old) self.new result }
        ensures only { IsOneOf [] result }
    {
        self.streams.lose(Kind::Bgp, peer);
        self.raised.lose(peer);
        let told = self.routing.lose(self.alloc, peer, now, core);
        self.settle(&OwnCall::None, told, now, core)
    }

    /// The end of the LDP session with the neighbour notices its loss.
    pub(crate) fn lose_ldp(&mut self, peer: NodeId, now: u64, core: &Core) -> EdgeAnswer
        requires ready { IsReady core.now now self.old }
        ensures settles { SettlesCall core.now now (Noticed kinds.Ldp peer) (going self.old) self.new result }
        ensures only { IsOneOf [] result }
    {
        self.streams.lose(Kind::Ldp, peer);
        let told = self.routing.step(self.alloc, now, core);
        self.settle(&OwnCall::Notice(peer), told, now, core)
    }

    /// The timers run.
    pub(crate) fn run_timers(&mut self, now: u64, core: &Core) -> EdgeAnswer
        requires ready { IsReady core.now now self.old }
        ensures settles { SettlesCall core.now now Timers (going self.old) self.new result }
        ensures only { IsOneOf [] result }
    {
        let told = self.routing.run_timers(self.alloc, now, core);
        self.settle(&OwnCall::Timers, told, now, core)
    }

    /// Costs of links changed.
    pub(crate) fn reroute(&mut self, now: u64, core: &Core) -> EdgeAnswer
        requires ready { IsReady core.now now self.old }
        ensures settles { SettlesCall core.now now Rerouted (going self.old) self.new result }
        ensures toward { OnOk result (WaitsTowardRootsOf core.now self.new.labels) }
        ensures only { IsOneOf [] result }
    {
        let told = self.routing.step(self.alloc, now, core);
        self.settle(&OwnCall::Reroute, told, now, core)
    }
}
