//! What an edge lists: the routes that a VRF takes from the edge's peers, and the tunnels of which the edge is a leaf. Nothing changes.
ghost use Rattle.std.specs.Prelude.{◌≡◌, ◌++◌, None, true, IfOk, OnOk};
ghost use Rattle.std.specs.List.{filter};
ghost use Rattle.std.specs.FinMap as maps;
ghost use Rattle.std.specs.FinSet as sets;
ghost use Rattle.mv_base.specs.Lists.{Among};
ghost use Rattle.mv_base.specs.core_walks.Core.{Core as Walks};
ghost use Rattle.label_defs.specs.Members.{in_order};
ghost use Rattle.edge_defs.specs.Imported.{taken_from};
ghost use Rattle.edge_defs.specs.Place as places;
ghost use Rattle.edge_defs.specs.Tunnels.{leaves};
ghost use Rattle.edge_routes.specs.edge_home.Home.{place_of};
ghost use Rattle.edge_routing.specs.control_laws.Control.{control_of};
ghost use Rattle.edge_routing.specs.edge_control.Places.{is_own_vrf, vrfs_of};
ghost use Rattle.edge_core.specs.Listed.{admitted_from, admitted_keys};
ghost use Rattle.edge_core.specs.State.{data_of, home_of};

use crate::edge::Edge;
use edge_routes::is_admitted;
use edge_routes::route_order::KeptKey;
use edge_routing::of_edge_control::of_edge_tables::taken_tables::TableEntries;
use edge_routing::of_edge_control::{EdgeControl, own_of_vrf};
use label_forwarding::Fib;
use mldp::mldp_fec::Fec;
use mldp_node::of_label_trees::in_order;
use mv_base::{NoMemory, NodeId, Seq, VrfId};
use scenario_defs::Vrf;
use std::alloc::Global;

/// Trees, in their order.
pub type Fecs = Seq<Fec>;

/// Keys of routes, each in memory once, with the table that has the route.
pub type RouteKeys = Seq<KeptKey>;

/// Adds the keys of those of the routes that have a Route Target of the VRF.
fn add_admitted(keys: &mut RouteKeys, vrf: &Vrf, routes: TableEntries<'_>) -> Result<(), NoMemory>
    ensures { OnOk result (keys.new ≡ keys.old ++ admitted_keys vrf.now routes.entry) }
{
    for (key, entry) in routes {
        if is_admitted(vrf, entry.value().comms) {
            keys.push(key.share()?)?;
        }
    }
    Ok(())
}

/// Adds those of the routes that were taken from the peer.
fn add_taken(
    keys: &mut RouteKeys,
    control: &EdgeControl,
    vrf: &Vrf,
    peer: NodeId,
) -> Result<(), NoMemory>
    ensures { OnOk result (keys.new ≡ keys.old ++ admitted_keys vrf.now (maps.entries (taken_from (control_of control.now) peer))) }
{
    match control.taken().entries(peer) {
        None => Ok(()),
        Some(routes) => add_admitted(keys, vrf, routes),
    }
}

/// The keys of the routes that were taken from peers and have a Route Target of the VRF, peer after peer, in the order of keys.
fn keys_from(control: &EdgeControl, alloc: Global, vrf: &Vrf) -> Result<RouteKeys, NoMemory>
    ensures { IfOk result (λ keys. keys ≡ admitted_from control.now.home (control_of control.now) vrf.now) }
{
    let mut keys = RouteKeys::new(alloc);
    let peers = control.home().peers(alloc)?;
    for peer in peers.as_slice() {
        add_taken(&mut keys, control, vrf, *peer)?;
    }
    Ok(keys)
}

/// Keeps those of the trees of which the node is a leaf.
fn keep_leaves(trees: &mut Vec<Fec>, fib: &Fib)
    ensures { trees.new.items ≡ filter (sets.contains fib.now.leaves) trees.old.items }
{
    trees.retain(|fec| fib.is_leaf(fec));
}

/// The trees of which the node is a leaf, in their order.
fn leaf_trees(fib: &Fib, alloc: Global) -> Result<Vec<Fec>, NoMemory>
    ensures { IfOk result (λ fecs. fecs.items ≡ in_order fib.now.leaves) }
{
    let mut trees = fib.trees(alloc)?;
    keep_leaves(&mut trees, fib);
    in_order(trees)
}

impl Edge {
    /// The routes that were taken from peers and have a Route Target of the VRF (RFC 4364 section 4.3.1), by their keys: peer after peer, in
    /// the order of keys. Whether the VRF uses a route is not asked.
    pub fn imports(&self, alloc: Global, vrf: VrfId) -> Result<RouteKeys, NoMemory>
        requires own { is_own_vrf (home_of self.now) vrf ≡ true }
        ensures { (walks : Walks) (own : places.OwnVrf) → Among own (vrfs_of (home_of self.now)) → own.id ≡ vrf →
            IfOk result (λ keys. keys ≡ admitted_from (home_of self.now) (data_of self.now).control own.vrf) }
    {
        let control = &self.parts.routing.control;
        keys_from(control, alloc, own_of_vrf(control.home(), vrf).local.vrf())
    }

    /// The tunnels of which the edge is to be a leaf (RFC 6514 sections 9.1.2 and 12.3), each once, in the order of trees. Of a spent edge
    /// nothing is said.
    pub fn wants(&self, alloc: Global) -> Result<Fecs, NoMemory>
        ensures { self.now.spent ≡ None → (walks : Walks) →
            IfOk result (λ fecs. fecs ≡ in_order (leaves (place_of (home_of self.now) walks) (data_of self.now).control)) }
    {
        let leaves = leaf_trees(self.parts.labels.node().fib(), alloc)?;
        Ok(Seq::from_vec(leaves))
    }
}
