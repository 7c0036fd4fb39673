//! The rest of a step of each VRF.
ghost use Rattle.std.specs.Prelude.{◌≡◌, ◌++◌, ℕ, true, length, IfOk, OnOk};
ghost use Rattle.edge_defs.specs.Steps.{Call, is_vrf_step};
ghost use Rattle.control_laws.specs.Control.{control_of};
ghost use Rattle.control_laws.specs.group_laws.Groups.{HaveGroups};
ghost use Rattle.edge_routing.specs.Routing.{HasRefreshed, IsInStep, IsOnWay, IsStepped};
ghost use Rattle.edge_routing.specs.declared.routing.EdgeRouting.{EdgeRouting as Routings};

use crate::edge_joins::hold_joins;
use crate::edge_leaves::wanted_of;
use crate::routing::{EdgeRouting, LeafCandidates};
use core_paths::Core;
use edge_control::{ControlChanges, EdgeControl};
use edge_routes::route_order::KeptKey;
use mldp::mldp_fec::Fec;
use mv_base::NoMemory;
use std::alloc::Global;

/// The tunnels of both lists.
fn joined(tunnels: Vec<Fec>, more: &[Fec]) -> Result<Vec<Fec>, NoMemory>
    ensures { IfOk result (λ all. all.items ≡ tunnels.items ++ more.now) }
{
    let mut all = tunnels;
    all.extend_from_slice(more)?;
    Ok(all)
}

impl EdgeRouting {
    /// Flows are refreshed, and each peer is to have the joins of the flows as they are.
    fn refresh(&mut self, now: u64, core: &Core) -> Result<ControlChanges, NoMemory>
        requires core { core.now.nodes ≡ length self.old.control.home.scenario.nodes }
        requires groups { HaveGroups (control_of self.old.control) }
        ensures refreshed { IfOk result (λ changes. HasRefreshed core.now now self.old self.new changes.tunnels.items) }
        ensures home { self.new.control.home ≡ self.old.control.home }
    {
        // It is known here that each node of the core is reached, and that what the edge keeps is sound.
        let _ = core.nodes();
        let _ = self.control.home();
        let changes = self.control.refresh(now, core)?;
        hold_joins(&mut self.tables, &self.control, &changes.joins)?;
        Ok(changes)
    }

    /// The rest of a step of each VRF, after the effect of the call itself: flows are refreshed; each peer is to have the joins of the
    /// flows as they are, and is sent what changed; and the trees of which the edge is to be a leaf are answered. Where one of the tunnels
    /// came, it most likely came by the route of that key.
    pub(crate) fn finish(
        &mut self,
        alloc: Global,
        tunnels: Vec<Fec>,
        near: Option<KeptKey>,
        now: u64,
        core: &Core,
    ) -> Result<LeafCandidates, NoMemory>
        requires core { core.now.nodes ≡ length self.old.control.home.scenario.nodes }
        requires groups { HaveGroups (control_of self.old.control) }
        ensures stepped { (call : Call) (old : Routings) → is_vrf_step call ≡ true → IsInStep old →
            IsOnWay call now old self.old tunnels.items → IfOk result (IsStepped core.now now call old self.new) }
        ensures home { self.new.control.home ≡ self.old.control.home }
    {
        let changes = self.refresh(now, core)?;
        self.tables.put()?;
        let candidates = joined(tunnels, &changes.tunnels)?;
        let leaves = wanted_of(&self.control, alloc, &candidates, near.as_ref())?;
        Ok(LeafCandidates { candidates, leaves })
    }
}
