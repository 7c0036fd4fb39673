//! Datagrams that a site sends into a VRF, and copies that arrive under a label (RFC 6513 sections 9.1.1 and 12; RFC 3032).
ghost use Rattle.std.specs.Prelude.{◌≡◌, true, length, map, IfOk};
ghost use Rattle.std.specs.FinSet as sets;
ghost use Rattle.mv_base.specs.Lists.{Among};
ghost use Rattle.mv_base.specs.core_walks.Core.{Core as Walks, IsCoreOf};
ghost use Rattle.label_defs.specs.LabelData.{branches_of};
ghost use Rattle.label_forwarding.specs.FibData.{branch_in};
ghost use Rattle.edge_defs.specs.Datagrams.{arriving_fate, entering_fate, outs_of};
ghost use Rattle.edge_defs.specs.Place.{OwnVrf};
ghost use Rattle.edge_routes.specs.edge_home.Home.{place_of};
ghost use Rattle.edge_routing.specs.edge_control.Places.{is_own_vrf, vrfs_of};
ghost use Rattle.edge_routing.specs.edge_datagrams.Datagrams.{branches_on};
ghost use Rattle.edge_core.specs.Called.{going};
ghost use Rattle.edge_core.specs.State.{IsFate, data_of, home_of};

use crate::edge::Edge;
use crate::fate::{Branches, Fate};
use crate::parts::Parts;
use core_paths::Core;
use edge_routing::edge_datagrams::{entering, leaving};
use edge_routing::of_edge_labels::EdgeLabels;
use label_defs::Branch;
use label_forwarding::{Branch as Hop, Datagram};
use mldp::mldp_fec::Fec;
use mv_base::{Addr, NoMemory, NodeId, Seq, SiteId, VrfId};
use scenario_defs::IfaceList;
use std::alloc::Global;

/// The branches of the tree to these neighbours under these labels (RFC 6388 section 2.4.1).
pub fn branches_along(alloc: Global, fec: &Fec, hops: &[Hop]) -> Result<Branches, NoMemory>
    ensures { IfOk result (λ branches. branches ≡ map (branch_in fec.now) hops.now) }
{
    let mut branches = Vec::new(alloc);
    for hop in hops {
        branches.push(Branch {
            fec: *fec,
            node: hop.node,
            label: hop.label,
        })?;
    }
    Ok(Seq::from_vec(branches))
}

/// The branches of the tree.
fn branches_of(labels: &EdgeLabels, alloc: Global, fec: &Fec) -> Result<Branches, NoMemory>
    ensures { IfOk result (λ branches. branches ≡ branches_of labels.now.node.part fec.now) }
{
    branches_along(alloc, fec, labels.node().fib().push(fec))
}

/// The branches of a tunnel, where there is one.
fn branches_on(
    labels: &EdgeLabels,
    alloc: Global,
    tunnel: Option<Fec>,
) -> Result<Branches, NoMemory>
    ensures { IfOk result (λ branches. branches ≡ branches_on labels.now.node.part tunnel) }
{
    match tunnel {
        None => Ok(Seq::new(alloc)),
        Some(fec) => branches_of(labels, alloc, &fec),
    }
}

impl Parts {
    /// The interfaces at which a copy on the tree leaves: none where the edge is no leaf of it.
    fn delivered(
        &self,
        alloc: Global,
        fec: &Fec,
        leaf: bool,
        source: Addr,
        group: Addr,
        now: u64,
        core: &Core,
    ) -> Result<IfaceList, NoMemory>
        requires leaf { leaf ≡ sets.contains self.now.labels.node.part.leaves fec.now }
        requires core { core.now.nodes ≡ length self.now.routing.control.home.scenario.nodes }
        ensures { (walks : Walks) → IsCoreOf core.now.nodes core.now.links walks →
            IfOk result (λ outs. outs
            ≡ outs_of (place_of self.now.routing.control.home walks) now (data_of (going self.now)) fec.now source group) }
    {
        if leaf {
            leaving(&self.routing.control, alloc, fec, source, group, now, core)
        } else {
            Ok(Seq::new(alloc))
        }
    }
}

impl Edge {
    /// Where a datagram goes that the site sends into the VRF at the clock, in the core as the edge knows it (RFC 6513 sections 9.1.1 and
    /// 12).
    pub fn enter(
        &self,
        alloc: Global,
        vrf: VrfId,
        site: SiteId,
        datagram: &Datagram<'_>,
        now: u64,
        core: &Core,
    ) -> Result<Fate, NoMemory>
        requires own { is_own_vrf (home_of self.now) vrf ≡ true }
        requires core { core.now.nodes ≡ length (home_of self.now).scenario.nodes }
        ensures { (walks : Walks) → IsCoreOf core.now.nodes core.now.links walks → (own : OwnVrf) →
            Among own (vrfs_of (home_of self.now)) → own.id ≡ vrf →
            IfOk result (IsFate
            (entering_fate (place_of (home_of self.now) walks) now (data_of self.now) own site datagram.now.source datagram.now.group)) }
    {
        let fate = entering(
            &self.parts.routing.control,
            alloc,
            vrf,
            site,
            datagram.source(),
            datagram.group(),
            now,
            core,
        )?;
        let branches = branches_on(&self.parts.labels, alloc, fate.tunnel)?;
        Ok(Fate {
            outs: fate.outs,
            branches,
        })
    }

    /// Where a copy goes that came from the neighbour under the label, in the core as the edge knows it (RFC 6513 section 9.1.1; RFC 3032).
    pub fn arrive(
        &self,
        alloc: Global,
        from: NodeId,
        label: u32,
        datagram: &Datagram<'_>,
        now: u64,
        core: &Core,
    ) -> Result<Fate, NoMemory>
        requires core { core.now.nodes ≡ length (home_of self.now).scenario.nodes }
        ensures { (walks : Walks) → IsCoreOf core.now.nodes core.now.links walks →
            IfOk result (IsFate
            (arriving_fate (place_of (home_of self.now) walks) now (data_of self.now) from label datagram.now.source datagram.now.group)) }
    {
        let (source, group) = (datagram.source(), datagram.group());
        match self.parts.labels.node().fib().lookup(from, label) {
            None => Ok(Fate {
                outs: Seq::new(alloc),
                branches: Seq::new(alloc),
            }),
            Some(entry) => Ok(Fate {
                outs: self
                    .parts
                    .delivered(alloc, &entry.fec, entry.leaf, source, group, now, core)?,
                branches: branches_along(alloc, &entry.fec, entry.branches())?,
            }),
        }
    }
}
