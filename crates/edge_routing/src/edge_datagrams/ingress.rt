//! Where a datagram goes that a site sends into a VRF.
ghost use Rattle.std.specs.Prelude.{◌≡◌, true, length, IfOk};
ghost use Rattle.mv_base.specs.Lists.{Among};
ghost use Rattle.mv_base.specs.core_walks.Core.{Core as Walks, IsCoreOf};
ghost use Rattle.label_defs.specs.LabelData.{LabelData};
ghost use Rattle.vrf_words.specs.umh_select.Routes.{AreOfCore};
ghost use Rattle.edge_control.specs.vrf_trees.vrf_flows.State.{flow_by_addrs};
ghost use Rattle.edge_defs.specs.Datagrams.{entering_fate};
ghost use Rattle.edge_defs.specs.Place.{OwnVrf, own_vrfs};
ghost use Rattle.edge_routes.specs.edge_home.Home.{IsHome, place_of};
ghost use Rattle.vrf_words.specs.tree_laws.Joined.{tunnel_for};
ghost use Rattle.edge_control.specs.Places.{is_own_vrf};
ghost use Rattle.edge_routing.specs.edge_datagrams.Datagrams.{branches_on, edge_with, tunnel_from};

use crate::edge_datagrams::fate::Entering;
use crate::edge_datagrams::nodes::are_of_octets;
use core_paths::Core;
use edge_control::EdgeControl;
use edge_control::of_vrf_trees::VrfTree;
use edge_routes::edge_home::EdgeHome;
use edge_routes::lsp;
use mldp::mldp_fec::Fec;
use mv_base::{Addr, NoMemory, SiteId, VrfId};
use std::alloc::Global;
use vrf_words::tree_defs::Origin;

/// The tunnel on which the VRF of the tree transmits the source and group.
fn tunnel_for(home: &EdgeHome, tree: &VrfTree, source: Addr, group: Addr) -> Fec
    requires { IsHome home.now.scenario home.now.me }
    ensures { (core : Walks) → result ≡ tunnel_for (place_of home.now core) tree.now (flow_by_addrs source group) }
{
    lsp(
        home.addr_of(home.me()),
        u64::from(tree.root_transmit(source, group)),
    )
}

/// The tunnel on which the VRF of the tree transmits a datagram that comes from there, where it chooses that origin and another edge has
/// joined the source and group.
fn tunnel_from(
    home: &EdgeHome,
    tree: &VrfTree,
    source: Addr,
    group: Addr,
    from: Origin,
    core: &Core,
) -> Option<Fec>
    requires home { IsHome home.now.scenario home.now.me }
    requires core { core.now.nodes ≡ length home.now.scenario.nodes }
    requires peers { AreOfCore core.now.nodes tree.now.vrf.routes.learned }
    ensures { (walks : Walks) → IsCoreOf core.now.nodes core.now.links walks →
        result ≡ tunnel_from (place_of home.now walks) tree.now from (flow_by_addrs source group) }
{
    if tree.accepts(source, group, from, home.me(), core) && tree.joined_in(source, group) {
        Some(tunnel_for(home, tree, source, group))
    } else {
        None
    }
}

/// Where a datagram goes that the site sends into the VRF at the clock, in the core as the edge knows it: it leaves at each interface of
/// the VRF outside the site that asks for its flow, and is transmitted on the VRF's tunnel for the flow where another edge has joined it.
/// Where the VRF's upstream for the flow is not the site, it goes nowhere (RFC 6513 sections 9.1.1 and 12).
pub fn entering(
    control: &EdgeControl,
    alloc: Global,
    vrf: VrfId,
    site: SiteId,
    source: Addr,
    group: Addr,
    now: u64,
    core: &Core,
) -> Result<Entering, NoMemory>
    requires own { is_own_vrf control.now.home vrf ≡ true }
    requires core { core.now.nodes ≡ length control.now.home.scenario.nodes }
    ensures outs { (walks : Walks) → IsCoreOf core.now.nodes core.now.links walks → (own : OwnVrf) →
        Among own (own_vrfs (place_of control.now.home walks)) → own.id ≡ vrf → (part : LabelData) → IfOk result (λ fate. fate.outs
        ≡ (entering_fate (place_of control.now.home walks) now (edge_with control.now part) own site source group).outs) }
    ensures tunnel { (walks : Walks) → IsCoreOf core.now.nodes core.now.links walks → (own : OwnVrf) →
        Among own (own_vrfs (place_of control.now.home walks)) → own.id ≡ vrf → (part : LabelData) →
        IfOk result (λ fate. branches_on part fate.tunnel
        ≡ (entering_fate (place_of control.now.home walks) now (edge_with control.now part) own site source group).branches) }
{
    are_of_octets(control);
    let home = control.home();
    let tree = control.tree(vrf);
    let from = Origin::Site(site);
    let outs = tree.outgoing(alloc, source, group, from, now, home.me(), core)?;
    let tunnel = tunnel_from(home, tree, source, group, from, core);
    Ok(Entering { outs, tunnel })
}
