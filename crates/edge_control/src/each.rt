//! What the trees of all VRFs make of a route of a peer.
ghost use Rattle.std.specs.Prelude.{◌≡◌, ◌<◌, ℕ, length, slice_get, Option, Some, OnOk, OnErr};
ghost use Rattle.mv_base.specs.core_walks.Core.{Core};
ghost use Rattle.edge_defs.specs.Edge.{TakenRoute};
ghost use Rattle.edge_defs.specs.Place.{addr_of, vrfs_from};
ghost use Rattle.edge_routes.specs.edge_home.Home.{as_own, place_of};
ghost use Rattle.edge_routes.specs.Local.{IsAt};
ghost use Rattle.edge_control.specs.Taking.{Says, forgetting, learning, turned, turned_all};

use crate::peers::{forget_route, learn_route};
use bgp_messages::bgp_attributes::Key;
use edge_routes::TakenValue;
use edge_routes::edge_home::{EdgeHome, OwnVrf};
use mv_base::{Addr, NoMemory, NodeId};
use vrf_trees::VrfTree;

/// The VRF at that place among those of the edge.
pub(crate) fn own_at(home: &EdgeHome, place: usize) -> &OwnVrf
    requires { place < length (vrfs_from home.now.me 0 home.now.scenario.vrfs) }
    ensures own { slice_get (vrfs_from home.now.me 0 home.now.scenario.vrfs) place ≡ Some (as_own result.now) }
    ensures at { (core : Core) → IsAt (place_of home.now core) result.now.local }
{
    &home.vrfs()[place]
}

/// The route of the key is there no more: each tree forgets what it took of it. It takes no memory.
pub(crate) fn forget_in(
    home: &EdgeHome,
    trees: &mut Vec<VrfTree>,
    peer: NodeId,
    addr: Addr,
    key: &Key,
    old: Option<TakenValue>,
)
    requires each { length trees.old.items ≡ length (vrfs_from home.now.me 0 home.now.scenario.vrfs) }
    requires addr { addr_of home.now.scenario peer ≡ addr }
    ensures { (core : Core) (now : ℕ) (taken : Option TakenRoute) → Says old.entry taken → trees.new.items
        ≡ turned_all (forgetting home.now core peer now key.now taken) (vrfs_from home.now.me 0 home.now.scenario.vrfs) trees.old.items }
{
    for place in 0..trees.len() {
        let own = own_at(home, place);
        forget_route(&mut trees[place], own, peer, addr, key, old);
    }
}

/// A route of that value is at the key, where there was none: each tree takes what its VRF uses of it. Where memory runs out, the
/// first ones have taken it, and the others are as before.
pub(crate) fn learn_in(
    home: &EdgeHome,
    trees: &mut Vec<VrfTree>,
    peer: NodeId,
    addr: Addr,
    key: &Key,
    new: Option<TakenValue>,
    now: u64,
) -> Result<(), NoMemory>
    requires each { length trees.old.items ≡ length (vrfs_from home.now.me 0 home.now.scenario.vrfs) }
    requires addr { addr_of home.now.scenario peer ≡ addr }
    ensures learned { OnOk result ((core : Core) (taken : Option TakenRoute) → Says new.entry taken → trees.new.items
        ≡ turned_all (learning home.now core peer now key.now taken) (vrfs_from home.now.me 0 home.now.scenario.vrfs) trees.old.items) }
    ensures long { length trees.new.items ≡ length trees.old.items }
    ensures partly { OnErr result ((n : ℕ) × ((core : Core) (taken : Option TakenRoute) → Says new.entry taken → trees.new.items
        ≡ turned n (learning home.now core peer now key.now taken) (vrfs_from home.now.me 0 home.now.scenario.vrfs) trees.old.items)) }
{
    for place in 0..trees.len() {
        let own = own_at(home, place);
        learn_route(&mut trees[place], own, peer, addr, key, new, now)?;
    }
    Ok(())
}

/// The same, but that the trees forget the route again where memory runs out.
pub(crate) fn learn_or_forget(
    home: &EdgeHome,
    trees: &mut Vec<VrfTree>,
    peer: NodeId,
    addr: Addr,
    key: &Key,
    new: Option<TakenValue>,
    now: u64,
) -> Result<(), NoMemory>
    requires each { length trees.old.items ≡ length (vrfs_from home.now.me 0 home.now.scenario.vrfs) }
    requires addr { addr_of home.now.scenario peer ≡ addr }
    ensures learned { OnOk result ((core : Core) (taken : Option TakenRoute) → Says new.entry taken → trees.new.items
        ≡ turned_all (learning home.now core peer now key.now taken) (vrfs_from home.now.me 0 home.now.scenario.vrfs) trees.old.items) }
    ensures forgot { OnErr result ((core : Core) (at : ℕ) (taken : Option TakenRoute) → Says new.entry taken → trees.new.items
        ≡ turned_all (forgetting home.now core peer at key.now taken) (vrfs_from home.now.me 0 home.now.scenario.vrfs) trees.old.items) }
{
    match learn_in(home, trees, peer, addr, key, new, now) {
        Ok(()) => Ok(()),
        Err(fault) => {
            forget_in(home, trees, peer, addr, key, new);
            Err(fault)
        }
    }
}
