//! The calls of an edge by their names. Each is the call of its value (`calls.rt`); those for which no core is needed take none.
ghost use Rattle.std.specs.Prelude.{◌≡◌, ◌<◌, ◌^◌, ℕ, length};
ghost use Rattle.mv_base.specs.core_walks.Topology.{Topology};
ghost use Rattle.edge_defs.specs.Steps.{Customer, Active, Idle, Noticed, Raised, Rerouted, Select, Timers, Unselect};
ghost use Rattle.edge_core.specs.Calls.{AnswersCall, Fits};
ghost use Rattle.edge_core.specs.State.{home_of};

use crate::edge::{Edge, spent_by};
use crate::edge_call::{CustomerCall, EdgeCall};
use crate::fault::{EdgeAnswer, EdgeFault};
use core_paths::Core;
use mv_base::{Addr, IfaceId, NodeId, Pattern, VrfId};
use scenario_defs::Kind;

impl Edge {
    /// Notes at the interface that the source sends to the group (RFC 6514 section 14).
    pub fn active(
        &mut self,
        iface: IfaceId,
        source: Addr,
        group: Addr,
        now: u64,
        core: &Core,
    ) -> EdgeAnswer
        requires nodes { core.now.nodes ≡ length (home_of self.old).scenario.nodes }
        requires now { now < 2 ^ 63 }
        requires fits { Fits self.old (Customer (Active iface source group)) }
        ensures { AnswersCall core.now now (Customer (Active iface source group)) self.old self.new result }
    {
        let call = CustomerCall::Active {
            iface,
            source,
            group,
        };
        self.call(EdgeCall::Customer(call), now, core)
    }

    /// The note is there no more.
    pub fn idle(
        &mut self,
        iface: IfaceId,
        source: Addr,
        group: Addr,
        now: u64,
        core: &Core,
    ) -> EdgeAnswer
        requires nodes { core.now.nodes ≡ length (home_of self.old).scenario.nodes }
        requires now { now < 2 ^ 63 }
        requires fits { Fits self.old (Customer (Idle iface source group)) }
        ensures { AnswersCall core.now now (Customer (Idle iface source group)) self.old self.new result }
    {
        let call = CustomerCall::Idle {
            iface,
            source,
            group,
        };
        self.call(EdgeCall::Customer(call), now, core)
    }

    /// Selects the pattern in the VRF, where it is not selected (RFC 6514 section 12.1).
    pub fn select(&mut self, vrf: VrfId, pattern: Pattern, now: u64) -> EdgeAnswer
        requires now { now < 2 ^ 63 }
        requires fits { Fits self.old (Customer (Select vrf pattern)) }
        ensures { (core : Topology) → AnswersCall core now (Customer (Select vrf pattern)) self.old self.new result }
    {
        if let Some(fault) = self.spent {
            return Err(EdgeFault::from(fault));
        }
        let answer = self.parts.select(vrf, pattern, now);
        self.spent = spent_by(&answer);
        answer
    }

    /// The pattern is selected no more in the VRF.
    pub fn unselect(&mut self, vrf: VrfId, pattern: Pattern) -> EdgeAnswer
        requires fits { Fits self.old (Customer (Unselect vrf pattern)) }
        ensures { (core : Topology) (now : ℕ) → AnswersCall core now (Customer (Unselect vrf pattern)) self.old self.new result }
    {
        if let Some(fault) = self.spent {
            return Err(EdgeFault::from(fault));
        }
        let answer = self.parts.unselect(vrf, pattern);
        self.spent = spent_by(&answer);
        answer
    }

    /// The end of the session comes up, and has a fresh stream. Over BGP the peer is sent all that the edge holds for it.
    pub fn raised(&mut self, kind: Kind, peer: NodeId, now: u64, core: &Core) -> EdgeAnswer
        requires nodes { core.now.nodes ≡ length (home_of self.old).scenario.nodes }
        requires now { now < 2 ^ 63 }
        requires fits { Fits self.old (Raised kind peer) }
        ensures { AnswersCall core.now now (Raised kind peer) self.old self.new result }
    {
        self.call(EdgeCall::Raised { kind, peer }, now, core)
    }

    /// The end of the session notices its loss: all that came over it is forgotten, and what waits for it is dropped.
    pub fn noticed(&mut self, kind: Kind, peer: NodeId, now: u64, core: &Core) -> EdgeAnswer
        requires nodes { core.now.nodes ≡ length (home_of self.old).scenario.nodes }
        requires now { now < 2 ^ 63 }
        ensures { AnswersCall core.now now (Noticed kind peer) self.old self.new result }
    {
        self.call(EdgeCall::Noticed { kind, peer }, now, core)
    }

    /// The timers that are due at the clock run.
    pub fn timers(&mut self, now: u64, core: &Core) -> EdgeAnswer
        requires nodes { core.now.nodes ≡ length (home_of self.old).scenario.nodes }
        requires now { now < 2 ^ 63 }
        ensures { AnswersCall core.now now Timers self.old self.new result }
    {
        self.call(EdgeCall::Timers, now, core)
    }

    /// Costs of links changed: the edge knows the core by them from now on, and each tree that waits for a label does so by them.
    pub fn rerouted(&mut self, now: u64, core: &Core) -> EdgeAnswer
        requires nodes { core.now.nodes ≡ length (home_of self.old).scenario.nodes }
        requires now { now < 2 ^ 63 }
        ensures { AnswersCall core.now now Rerouted self.old self.new result }
    {
        self.call(EdgeCall::Rerouted, now, core)
    }
}
