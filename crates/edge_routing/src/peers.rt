//! Sessions with peers, what comes over them, timers, and other costs of links.
ghost use Rattle.std.specs.Prelude.{◌≡◌, ◌<◌, ◌^◌, None, length, IfOk};
ghost use Rattle.std.specs.FinMap as maps;
ghost use Rattle.mv_base.specs.Lists.{Among};
ghost use Rattle.scenario_defs.specs.declared.event.Kind.TheVariants.{Bgp};
ghost use Rattle.edge_defs.specs.Steps.{Noticed, Raised, Rerouted, Timers, Update};
ghost use Rattle.edge_routes.specs.edge_home.Home.{peers_of};
ghost use Rattle.edge_streams.specs.Spelled.{SaysWritable};
ghost use Rattle.edge_routing.specs.Routing.{IsInStep, IsStepped};

use crate::edge_updates::{TunnelChanges, inclusive_from, take_update};
use crate::routing::{EdgeRouting, LeafCandidates};
use bgp_messages::bgp_attributes::Message;
use core_paths::Core;
use mv_base::{NoMemory, NodeId};
use std::alloc::Global;

impl EdgeRouting {
    /// Takes a message of the peer (RFC 4271 section 9).
    pub fn take_update(
        &mut self,
        alloc: Global,
        peer: NodeId,
        message: Message,
        now: u64,
        core: &Core,
    ) -> Result<LeafCandidates, NoMemory>
        requires step { IsInStep self.old }
        requires core { core.now.nodes ≡ length self.old.control.home.scenario.nodes }
        requires writable { SaysWritable message }
        ensures stepped { IfOk result (IsStepped core.now now (Update peer message) self.old self.new) }
        ensures home { self.new.control.home ≡ self.old.control.home }
    {
        let changed = take_update(&mut self.control, alloc, peer, message, now)?;
        let TunnelChanges { tunnels, near } = changed;
        self.finish(alloc, tunnels, near, now, core)
    }

    /// The end of the session with the peer comes up: it is sent all that the edge holds for it.
    pub fn raise(
        &mut self,
        alloc: Global,
        peer: NodeId,
        now: u64,
        core: &Core,
    ) -> Result<LeafCandidates, NoMemory>
        requires step { IsInStep self.old }
        requires core { core.now.nodes ≡ length self.old.control.home.scenario.nodes }
        requires peer { Among peer (peers_of self.old.control.home) }
        requires down { maps.get self.old.control.peers peer ≡ None }
        ensures stepped { IfOk result (IsStepped core.now now (Raised Bgp peer) self.old self.new) }
        ensures home { self.new.control.home ≡ self.old.control.home }
    {
        self.control.raise(peer)?;
        self.tables.raise(peer)?;
        self.finish(alloc, Vec::new(alloc), None, now, core)
    }

    /// The loss of the session with the peer is noticed: all that was taken from it is forgotten, and what waits for it is dropped.
    pub fn lose(
        &mut self,
        alloc: Global,
        peer: NodeId,
        now: u64,
        core: &Core,
    ) -> Result<LeafCandidates, NoMemory>
        requires step { IsInStep self.old }
        requires core { core.now.nodes ≡ length self.old.control.home.scenario.nodes }
        ensures stepped { IfOk result (IsStepped core.now now (Noticed Bgp peer) self.old self.new) }
        ensures home { self.new.control.home ≡ self.old.control.home }
    {
        let tunnels = inclusive_from(&self.control, alloc, peer)?;
        self.control.lose(peer);
        self.tables.down(peer);
        self.finish(alloc, tunnels, None, now, core)
    }

    /// Runs the timers that are due at the clock.
    pub fn run_timers(
        &mut self,
        alloc: Global,
        now: u64,
        core: &Core,
    ) -> Result<LeafCandidates, NoMemory>
        requires step { IsInStep self.old }
        requires core { core.now.nodes ≡ length self.old.control.home.scenario.nodes }
        ensures stepped { IfOk result (IsStepped core.now now Timers self.old self.new) }
        ensures home { self.new.control.home ≡ self.old.control.home }
    {
        self.control.run_timers(now)?;
        self.finish(alloc, Vec::new(alloc), None, now, core)
    }

    /// A step of each VRF without an effect of its own: a label message was taken, or an end of an LDP session came up or was lost, or
    /// costs of links changed.
    pub fn step(&mut self, alloc: Global, now: u64, core: &Core) -> Result<LeafCandidates, NoMemory>
        requires step { IsInStep self.old }
        requires core { core.now.nodes ≡ length self.old.control.home.scenario.nodes }
        ensures stepped { IfOk result (IsStepped core.now now Rerouted self.old self.new) }
        ensures home { self.new.control.home ≡ self.old.control.home }
    {
        self.finish(alloc, Vec::new(alloc), None, now, core)
    }
}
