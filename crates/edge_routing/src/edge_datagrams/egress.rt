//! Where a copy of a datagram leaves that arrives on a tunnel (RFC 6513 section 9.1.1).
ghost use Rattle.std.specs.Prelude.{◌≡◌, ◌<◌, length, slice_get, Some, IfOk};
ghost use Rattle.std.specs.List.{flat_map};
ghost use Rattle.mv_base.specs.core_walks.Core.{Core as Walks, IsCoreOf};
ghost use Rattle.edge_defs.specs.Datagrams.{outs_at};
ghost use Rattle.edge_defs.specs.Place.{OwnVrf, addr_of, own_vrfs};
ghost use Rattle.edge_routes.specs.edge_home.Home.{as_own, place_of};
ghost use Rattle.control_laws.specs.Control.{control_of};
ghost use Rattle.edge_control.specs.Places.{vrfs_of};

use crate::edge_datagrams::imported::imports_to;
use crate::edge_datagrams::nodes::{are_of_octets, root_of};
use core_paths::Core;
use edge_control::EdgeControl;
use edge_routes::edge_home::{EdgeHome, OwnVrf as HomeVrf};
use mldp::mldp_fec::Fec;
use mv_base::{Addr, NoMemory, NodeId, Seq};
use scenario_defs::IfaceList;
use std::alloc::Global;
use vrf_words::tree_defs::{Flow, Origin};

/// The VRF at that place among those of the edge.
fn own_at(home: &EdgeHome, place: usize) -> &HomeVrf
    requires { place < length (vrfs_of home.now) }
    ensures { slice_get (vrfs_of home.now) place ≡ Some (as_own result.now) }
{
    &home.vrfs()[place]
}

/// The interfaces of the VRF at that place at which a copy leaves that arrives on the tunnel, whose root is that node.
fn outs_at(
    control: &EdgeControl,
    alloc: Global,
    place: usize,
    fec: &Fec,
    root: NodeId,
    flow: Flow,
    now: u64,
    core: &Core,
) -> Result<IfaceList, NoMemory>
    requires place { place < length (vrfs_of control.now.home) }
    requires core { core.now.nodes ≡ length control.now.home.scenario.nodes }
    requires root { root.0 < length control.now.home.scenario.nodes }
    requires rooted { addr_of control.now.home.scenario root ≡ fec.now.root }
    ensures { (walks : Walks) (own : OwnVrf) → IsCoreOf core.now.nodes core.now.links walks →
        slice_get (vrfs_of control.now.home) place ≡ Some own → IfOk result (λ outs. outs
        ≡ outs_at (place_of control.now.home walks) now (control_of control.now) fec.now flow.source flow.group own) }
{
    are_of_octets(control);
    let home = control.home();
    let own = own_at(home, place);
    let tree = &control.trees()[place];
    let from = Origin::Edge(root);
    let outs = tree.outgoing(alloc, flow.source, flow.group, from, now, home.me(), core)?;
    if outs.is_empty() || imports_to(control, own, tree, &flow, root, fec) {
        Ok(outs)
    } else {
        Ok(Seq::new(alloc))
    }
}

/// The same of all VRFs, in their order.
fn all_outs(
    control: &EdgeControl,
    alloc: Global,
    fec: &Fec,
    root: NodeId,
    flow: Flow,
    now: u64,
    core: &Core,
) -> Result<IfaceList, NoMemory>
    requires core { core.now.nodes ≡ length control.now.home.scenario.nodes }
    requires root { root.0 < length control.now.home.scenario.nodes }
    requires rooted { addr_of control.now.home.scenario root ≡ fec.now.root }
    ensures { (walks : Walks) → IsCoreOf core.now.nodes core.now.links walks → IfOk result (λ outs. outs
        ≡ flat_map (outs_at (place_of control.now.home walks) now (control_of control.now) fec.now flow.source flow.group)
        (vrfs_of control.now.home)) }
{
    let mut outs = Vec::new(alloc);
    for place in 0..control.home().vrfs().len() {
        let more = outs_at(control, alloc, place, fec, root, flow, now, core)?;
        outs.extend_from_slice(more.as_slice())?;
    }
    Ok(Seq::from_vec(outs))
}

/// The interfaces at which a copy leaves that arrives at a leaf of the tunnel at the clock, VRF by VRF, in the core as the edge knows it:
/// at each VRF that imports a route of the tunnel from the tunnel's root, and whose upstream for the flow is that root, those that ask for
/// the flow (RFC 6513 section 9.1.1). Whether the edge is a leaf of the tunnel is no part of this.
pub fn leaving(
    control: &EdgeControl,
    alloc: Global,
    fec: &Fec,
    source: Addr,
    group: Addr,
    now: u64,
    core: &Core,
) -> Result<IfaceList, NoMemory>
    requires core { core.now.nodes ≡ length control.now.home.scenario.nodes }
    ensures { (walks : Walks) → IsCoreOf core.now.nodes core.now.links walks → IfOk result (λ outs. outs
        ≡ flat_map (outs_at (place_of control.now.home walks) now (control_of control.now) fec.now source group)
        (own_vrfs (place_of control.now.home walks))) }
{
    match root_of(control.home().scenario(), fec) {
        None => Ok(Seq::new(alloc)),
        Some(root) => all_outs(control, alloc, fec, root, Flow { source, group }, now, core),
    }
}
