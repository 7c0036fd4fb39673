//! The parts of an edge that goes on, and what each call ends with: the label steps.
ghost use Rattle.std.specs.Prelude.{◌≡◌, ◌<◌, ◌^◌, [], OnOk};
ghost use Rattle.std.specs.FinMap.{FinMap};
ghost use Rattle.edge_defs.specs.Steps.{Call};
ghost use Rattle.network_defs.specs.session_defs.Octets.{Stream};
ghost use Rattle.network_defs.specs.session_defs.PeerSession.{peer_cmp};
ghost use Rattle.mldp_node.specs.NodeData.{WaitsTowardRootsOf};
ghost use Rattle.edge_routing.specs.edge_labels.declared.own_call.OwnCall.TheVariants as owns;
ghost use Rattle.edge_core.specs.Answers.{IsOneOf};
ghost use Rattle.edge_core.specs.Called.{IsCalled, IsMidway, SettlesCall, with_streams};
ghost use Rattle.edge_core.specs.View.{EdgeView};

use crate::clocks::RaiseClocks;
use crate::fault::{EdgeAnswer, EdgeFault};
use core_paths::Core;
use edge_routing::of_edge_labels::{EdgeLabels, OwnCall};
use edge_routing::of_edge_streams::EdgeStreams;
use edge_routing::{EdgeRouting, LeafCandidates};
use mv_base::NoMemory;
use std::alloc::Global;

/// What an edge has, apart from whether it is spent.
pub(crate) struct Parts {
    pub(crate) alloc: Global,
    pub(crate) routing: EdgeRouting,
    pub(crate) labels: EdgeLabels,
    pub(crate) streams: EdgeStreams,
    pub(crate) raised: RaiseClocks,
}

impl Parts {
    /// The rest of a call, once what the edge keeps of customers and of peers is after it: the label step of the call itself, if it has
    /// one, and then one for each tree of which the edge becomes or stops being a leaf.
    pub(crate) fn settle(
        &mut self,
        own: &OwnCall,
        told: Result<LeafCandidates, NoMemory>,
        now: u64,
        core: &Core,
    ) -> EdgeAnswer
        requires called { IsCalled core.now now own.now told self.old }
        requires now { now < 2 ^ 63 }
        ensures answers { (call : Call) (old : EdgeView) → IsMidway core.now now own.now call old told self.old →
            SettlesCall core.now now call old self.new result }
        // It goes by no stream, and changes none.
        ensures beside { (streams : FinMap peer_cmp Stream) (call : Call) (old : EdgeView) →
            IsMidway core.now now own.now call old told (with_streams streams self.old) →
            SettlesCall core.now now call old (with_streams streams self.new) result }
        ensures same { self.new.streams ≡ self.old.streams }
        ensures toward { own.now ≡ owns.Reroute → OnOk result (WaitsTowardRootsOf core.now self.new.labels) }
        ensures only { IsOneOf [] result }
    {
        // It is known here that the scenario meets its rules, and that a core as nodes know it is there.
        let _ = self.routing.control.home();
        let _ = core.nodes();
        let LeafCandidates { candidates, leaves } = told?;
        let changes = self.labels.leaf_changes(candidates, &leaves)?;
        match self.labels.step(own, &changes, now, core) {
            Ok(()) => Ok(()),
            Err(fault) => Err(EdgeFault::from(fault)),
        }
    }

    /// Frees all that it has.
    pub(crate) fn close(self) {
        let Parts {
            alloc: _,
            routing: _,
            labels,
            streams: _,
            raised: _,
        } = self;
        labels.close();
    }
}
