//! What the trees of all VRFs make of a peer that is lost: all that was taken from it is forgotten.
ghost use Rattle.std.specs.Prelude.{◌≡◌, ◌||◌, length, map, Option};
ghost use Rattle.std.specs.FinMap as maps;
ghost use Rattle.mv_base.specs.core_walks.Core.{Core};
ghost use Rattle.mv_base.specs.declared.addr.Addr.{Addr};
ghost use Rattle.edge_defs.specs.Edge.{TakenRoute};
ghost use Rattle.edge_defs.specs.Place.{EdgePlace, vrfs_from};
ghost use Rattle.edge_routes.specs.edge_home.Home.{as_own};
ghost use Rattle.edge_routes.specs.declared.route_order.route_type.RouteType.TheVariants as RouteType;
ghost use Rattle.edge_routes.specs.route_order.Kept.{is_of_type};
ghost use Rattle.edge_control.specs.Taking.{IsFrom, Says, losing, losing_row, losing_rows, table_of, tree_losing, turned_all, without_lists};

use crate::each::own_at;
use crate::peers::{leave, told_join};
use bgp_messages::bgp_attributes::Key;
use bgp_values::mvpn_nlri::Route;
use edge_routes::TakenValue;
use edge_routes::edge_home::{EdgeHome, OwnVrf};
use edge_routes::route_order::{KeptKey, RouteType};
use edge_tables::taken_tables::{TableEntries, TakenEntry, TakenTables};
use mv_base::NodeId;
use vrf_trees::VrfTree;

/// A route of the peer of that key is there no more: the tree forgets a Source Active route, and a Source Tree Join at its VRF.
fn forget_row(tree: &mut VrfTree, own: &OwnVrf, peer: NodeId, key: &Key, value: Option<TakenValue>)
    ensures { (place : EdgePlace) (addr : Addr) (taken : Option TakenRoute) → IsFrom place own.now peer addr → Says value.entry taken →
        tree.new ≡ tree_losing place (as_own own.now) peer key.now taken tree.old }
{
    match key {
        Key::Mcast(_, Route::Active { rd, source, group }) => {
            tree.forget_active(peer, *rd, *source, *group);
        }
        Key::Mcast(_, Route::SourceJoin { .. }) => leave(tree, peer, told_join(own, key, value)),
        _ => {}
    }
}

/// Whether a tree keeps routes of such a key one by one: those of Source Active routes and of Source Tree Joins, which it keeps by flow.
fn is_of_flow(key: &KeptKey) -> bool
    ensures { result ≡ (is_of_type RouteType.Active key.now || is_of_type RouteType.SourceJoin key.now) }
{
    key.is_of_type(RouteType::Active) || key.is_of_type(RouteType::SourceJoin)
}

/// The same of a route of the peer's table, in each tree. Of most routes no tree keeps anything one by one, and their keys are not read.
fn forget_entry(
    home: &EdgeHome,
    trees: &mut Vec<VrfTree>,
    peer: NodeId,
    key: &KeptKey,
    entry: &TakenEntry,
)
    requires { length trees.old.items ≡ length (vrfs_from home.now.me 0 home.now.scenario.vrfs) }
    ensures long { length trees.new.items ≡ length trees.old.items }
    ensures each { (core : Core) → trees.new.items
        ≡ turned_all (losing_row home.now core peer (key.now, entry.now)) (vrfs_from home.now.me 0 home.now.scenario.vrfs) trees.old.items }
{
    if !is_of_flow(key) {
        return;
    }
    let lost = key.key();
    for place in 0..trees.len() {
        let own = own_at(home, place);
        forget_row(&mut trees[place], own, peer, &lost, Some(entry.value()));
    }
}

/// The same of these routes of the peer, one after another.
fn forget_entries(
    home: &EdgeHome,
    trees: &mut Vec<VrfTree>,
    peer: NodeId,
    entries: TableEntries<'_>,
)
    requires { length trees.old.items ≡ length (vrfs_from home.now.me 0 home.now.scenario.vrfs) }
    ensures { (core : Core) → trees.new.items ≡ losing_rows home.now core peer trees.old.items entries.entry }
{
    for (key, entry) in entries {
        forget_entry(home, trees, peer, key, entry);
    }
}

/// The same of all routes of the peer's table.
fn forget_table(home: &EdgeHome, trees: &mut Vec<VrfTree>, taken: &TakenTables, peer: NodeId)
    requires { length trees.old.items ≡ length (vrfs_from home.now.me 0 home.now.scenario.vrfs) }
    ensures { (core : Core) → trees.new.items ≡ losing_rows home.now core peer trees.old.items (maps.entries (table_of taken.now peer)) }
{
    match taken.entries(peer) {
        None => {}
        Some(entries) => forget_entries(home, trees, peer, entries),
    }
}

/// The tree forgets the unicast and selective routes of the peer, which it lists by peer.
fn forget_lists(tree: &mut VrfTree, peer: NodeId)
    ensures { tree.new ≡ without_lists peer tree.old }
{
    tree.leaf_forget_peer(peer);
    tree.umh_forget_peer(peer);
}

/// Each tree does.
fn forget_all_lists(trees: &mut Vec<VrfTree>, peer: NodeId)
    ensures { trees.new.items ≡ map (without_lists peer) trees.old.items }
{
    for tree in trees.iter_mut() {
        forget_lists(tree, peer);
    }
}

/// Each tree forgets all that it took from the peer. It takes no memory.
pub(crate) fn lose_in(home: &EdgeHome, trees: &mut Vec<VrfTree>, taken: &TakenTables, peer: NodeId)
    requires { length trees.old.items ≡ length (vrfs_from home.now.me 0 home.now.scenario.vrfs) }
    ensures { (core : Core) → trees.new.items ≡ turned_all
        (losing home.now core peer (table_of taken.now peer))
        (vrfs_from home.now.me 0 home.now.scenario.vrfs) trees.old.items }
{
    forget_table(home, trees, taken, peer);
    forget_all_lists(trees, peer);
}
