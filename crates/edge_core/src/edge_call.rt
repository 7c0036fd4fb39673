//! The calls of an edge as values, as the layers above hand them on.
ghost use Rattle.edge_defs.specs.Steps.{Noticed, Raised};
ghost use Rattle.edge_core.specs.Called.{IsReady, going};
ghost use Rattle.edge_core.specs.Calls.{Fits, MakesCall, call_of};

use crate::fault::{EdgeAnswer, EdgeFault};
use crate::parts::Parts;
use core_paths::Core;
use edge_routing::of_edge_control::ControlFault;
use edge_routing::of_edge_labels::OwnCall;
use mv_base::{Addr, IfaceId, NodeId, Pattern, VrfId};
use pim_joinprune::JoinPrune;
use scenario_defs::Kind;

/// What a customer, or the operator for one, calls for at an edge.
#[derive(Clone, Copy)]
pub enum CustomerCall<'a> {
    /// A Join/Prune message for the interface comes there (RFC 7761 section 4.5).
    Pim {
        iface: IfaceId,
        message: &'a JoinPrune,
    },
    /// It is noted at the interface that the source sends to the group (RFC 6514 section 14).
    Active {
        iface: IfaceId,
        source: Addr,
        group: Addr,
    },
    /// That note is there no more.
    Idle {
        iface: IfaceId,
        source: Addr,
        group: Addr,
    },
    /// The pattern, which is not selected in the VRF, is selected there (RFC 6514 section 12.1).
    Select {
        vrf: VrfId,
        pattern: Pattern,
    },
    /// The pattern is selected no more in the VRF.
    Unselect {
        vrf: VrfId,
        pattern: Pattern,
    },
}

/// What makes a step of an edge, apart from octets of its sessions.
#[derive(Clone, Copy)]
pub enum EdgeCall<'a> {
    /// A call of a customer or of the operator.
    Customer(CustomerCall<'a>),
    /// The end of the session comes up, and has a fresh stream. Over BGP the peer is sent all that the edge holds for it.
    Raised { kind: Kind, peer: NodeId },
    /// The end of the session notices its loss: all that came over it is forgotten, and what waits for it is dropped.
    Noticed { kind: Kind, peer: NodeId },
    /// The timers that are due at the clock run.
    Timers,
    /// Costs of links changed: the edge knows the core by them from now on, and each tree that waits for a label does so by them.
    Rerouted,
}

impl Parts {
    /// The end of the session comes up.
    fn raise(&mut self, kind: Kind, peer: NodeId, now: u64, core: &Core) -> EdgeAnswer
        requires ready { IsReady core.now now self.old }
        requires fits { Fits (going self.old) (Raised kind peer) }
        ensures { MakesCall core.now now (Raised kind peer) self.old self.new result }
    {
        match kind {
            Kind::Bgp => self.raise_bgp(peer, now, core),
            Kind::Ldp => self.raise_ldp(peer, now, core),
        }
    }

    /// The end of the session notices its loss.
    fn lose(&mut self, kind: Kind, peer: NodeId, now: u64, core: &Core) -> EdgeAnswer
        requires ready { IsReady core.now now self.old }
        ensures { MakesCall core.now now (Noticed kind peer) self.old self.new result }
    {
        match kind {
            Kind::Bgp => self.lose_bgp(peer, now, core),
            Kind::Ldp => self.lose_ldp(peer, now, core),
        }
    }

    /// Makes the call.
    pub(crate) fn call(&mut self, call: EdgeCall<'_>, now: u64, core: &Core) -> EdgeAnswer
        requires ready { IsReady core.now now self.old }
        requires fits { Fits (going self.old) (call_of call) }
        ensures { MakesCall core.now now (call_of call.entry) self.old self.new result }
    {
        match call {
            EdgeCall::Customer(own) => match own {
                CustomerCall::Pim { iface, message } => {
                    match self.routing.take_pim(self.alloc, iface, message, now, core) {
                        Ok(told) => self.settle(&OwnCall::None, Ok(told), now, core),
                        Err(ControlFault::Full) => Err(EdgeFault::Full),
                        Err(ControlFault::NoMemory) => Err(EdgeFault::NoMemory),
                    }
                }
                CustomerCall::Active {
                    iface,
                    source,
                    group,
                } => self.note(iface, source, group, now, core),
                CustomerCall::Idle {
                    iface,
                    source,
                    group,
                } => self.unnote(iface, source, group, now, core),
                CustomerCall::Select { vrf, pattern } => self.select(vrf, pattern, now),
                CustomerCall::Unselect { vrf, pattern } => self.unselect(vrf, pattern),
            },
            EdgeCall::Raised { kind, peer } => self.raise(kind, peer, now, core),
            EdgeCall::Noticed { kind, peer } => self.lose(kind, peer, now, core),
            EdgeCall::Timers => self.run_timers(now, core),
            EdgeCall::Rerouted => self.reroute(now, core),
        }
    }
}
