//! Acts of time and of nodes: the clock, timers, costs and restarts.
ghost use Rattle.std.specs.Prelude.{◌+◌, ◌<◌, ◌≤◌, ◌^◌, length};
ghost use Rattle.network_defs.specs.Acts.{Reroute, Restart, SetCost, Tick, Timers};
ghost use Rattle.network_acts.specs.control_plane.Acted.{IsCurrent, IsWithin, same_moment, with_current};
ghost use Rattle.network_acts.specs.control_plane.Passing.{all_late};
ghost use Rattle.network_acts.specs.Acting.{ActsAs, Passes, PassesAs};
ghost use Rattle.network_acts.specs.Instant.{Any, Instant, IsSome, IsWorld, OfPlane};

use crate::control_plane::ActAnswer;
use crate::network::Network;
use mv_base::{NoMemory, NodeId};
use network_nodes::NetworkNode;
use scenario_defs::Lines;
use std::mem;

impl Network {
    /// So many ticks pass, and copies that have been on their link for longer than they may are dropped. It takes no memory.
    pub fn tick(&mut self, ticks: u64)
        requires small { self.old.plane.clock + ticks < 2 ^ 63 }
        ensures { (at : Instant) → IsWorld at self.old → Passes at at.moment (Tick ticks) self.new }
    {
        self.plane.elapse(ticks);
        let now = self.clock();
        self.datagrams.age(now, self.scenario.lent().life);
    }

    /// The timers of node n run.
    pub fn timers(&mut self, n: NodeId, lines: &mut Lines) -> ActAnswer
        requires network { IsSome (OfPlane (IsCurrent n)) self.old }
        ensures { ActsAs (OfPlane (IsCurrent n)) same_moment (Timers n) n self.old self.new lines.old lines.new result }
    {
        let plane = &mut self.plane;
        let answer = plane.nodes[usize::from(n.0)].timers(plane.clock, &plane.core);
        plane.settle(n, answer, lines)
    }

    /// The link between the two nodes costs so much from now on. Each node has yet to act on it.
    pub fn set_cost(&mut self, a: NodeId, b: NodeId, cost: u32) -> Result<(), NoMemory>
        requires cost { (1 ≤ cost) × (cost ≤ 65535) }
        ensures { PassesAs Any all_late (SetCost a b cost) self.old self.new result }
    {
        let plane = &mut self.plane;
        plane.core.set_cost(a, b, cost)
    }

    /// Node n acts on the present costs.
    pub fn reroute(&mut self, n: NodeId, lines: &mut Lines) -> ActAnswer
        requires network { IsSome (OfPlane (IsWithin n)) self.old }
        ensures { ActsAs (OfPlane (IsWithin n)) (with_current n) (Reroute n) n self.old self.new lines.old lines.new result }
    {
        let plane = &mut self.plane;
        let answer = plane.nodes[usize::from(n.0)].rerouted(plane.clock, &plane.core);
        plane.settle(n, answer, lines)
    }

    /// The node begins anew: its sessions are lost, and it has forgotten all that it knew but the costs of links.
    pub fn restart(&mut self, n: NodeId) -> Result<(), NoMemory>
        requires network { IsSome Any self.old }
        requires within { n.0 < length self.old.scenario.nodes }
        ensures { PassesAs Any same_moment (Restart n) self.old self.new result }
    {
        let plane = &mut self.plane;
        let node = NetworkNode::of(*plane.nodes.allocator(), &self.scenario, n)?;
        let old = mem::replace(&mut plane.nodes[usize::from(n.0)], node);
        old.close();
        plane.transit.lose_all(n);
        Ok(())
    }
}
