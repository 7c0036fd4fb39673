//! What the tree of a VRF makes of a route of a peer (RFC 4364 section 4.3.1; RFC 6514 sections 11.3, 12.3 and 14.2).
ghost use Rattle.std.specs.Prelude.{◌≡◌, ℕ, None, option_map, Option, IfSome, OnOk, OnErr};
ghost use Rattle.edge_defs.specs.Edge.{TakenRoute};
ghost use Rattle.edge_defs.specs.Place.{EdgePlace};
ghost use Rattle.edge_routes.specs.edge_home.Home.{as_own};
ghost use Rattle.edge_routes.specs.Judged.{as_flow, as_selective};
ghost use Rattle.umh_select.specs.Routes.{held_of, key_from};
ghost use Rattle.control_laws.specs.Peers.{
  active_of,
  joined_with,
  left_with,
  selective_with,
  selective_without,
  told_active,
  told_join,
  told_selective,
  told_unicast,
  tree_with,
  with_actives,
  with_joined,
  with_learned,
  with_selective,
};
ghost use Rattle.edge_control.specs.Taking.{IsFrom, Says, more_actives, more_learned, tree_learning};

use bgp_messages::bgp_attributes::Key;
use bgp_values::mvpn_nlri::Route;
use edge_routes::edge_home::OwnVrf;
use edge_routes::{
    FlowRoute, ImportedSelective, TakenValue, imported_active, imported_join, imported_selective,
    is_admitted, join_by,
};
use mv_base::{Addr, NoMemory, NodeId, Prefix, Rd};
use umh_select::Learned;
use vrf_trees::VrfTree;

// ---- what a VRF takes of a route

/// The unicast route of that value, where the VRF imports and uses it.
fn told_unicast(
    own: &OwnVrf,
    addr: Addr,
    rd: Rd,
    prefix: Prefix,
    value: Option<TakenValue>,
) -> Option<Learned>
    ensures held { (place : EdgePlace) (peer : NodeId) (taken : Option TakenRoute) →
        IsFrom place own.now peer addr → Says value.entry taken →
        option_map held_of result ≡ told_unicast place (as_own own.now) peer taken }
    ensures key { IfSome result (λ route. (route.rd ≡ rd) × (route.prefix ≡ prefix)) }
{
    let value = value?;
    if !is_admitted(own.local.vrf(), value.comms) {
        return None;
    }
    let by = join_by(addr, &value)?;
    Some(Learned {
        rd,
        prefix,
        import: (Addr::V4(by.import.addr), by.import.number),
        source_as: by.source_as,
    })
}

/// The source and the group of the Source Active route of that value, where the VRF imports it.
fn told_active(own: &OwnVrf, key: &Key, value: Option<TakenValue>) -> Option<FlowRoute>
    ensures { (taken : Option TakenRoute) → Says value.entry taken →
        option_map as_flow result ≡ told_active (as_own own.now) key.now taken }
{
    match value {
        None => None,
        Some(value) => imported_active(own.local.vrf(), key, &value),
    }
}

/// The source and the group of the Source Tree Join of that value, where it is one at the VRF.
pub(crate) fn told_join(own: &OwnVrf, key: &Key, value: Option<TakenValue>) -> Option<FlowRoute>
    ensures { (place : EdgePlace) (peer : NodeId) (addr : Addr) (taken : Option TakenRoute) →
        IsFrom place own.now peer addr → Says value.entry taken →
        option_map as_flow result ≡ told_join place (as_own own.now) key.now taken }
{
    match value {
        None => None,
        Some(value) => imported_join(&own.local, key, &value),
    }
}

/// The selective route of that value, where the VRF imports it.
fn told_selective(
    own: &OwnVrf,
    addr: Addr,
    key: &Key,
    value: Option<TakenValue>,
) -> Option<ImportedSelective>
    ensures { (place : EdgePlace) (peer : NodeId) (taken : Option TakenRoute) → IsFrom place own.now peer addr → Says value.entry taken →
        option_map as_selective result ≡ told_selective place (as_own own.now) peer key.now taken }
{
    match value {
        None => None,
        Some(value) => imported_selective(own.local.vrf(), addr, key, &value),
    }
}

// ---- a route that is there no more

/// Leaves the join of the flow, where there is one. It takes no memory.
pub(crate) fn leave(tree: &mut VrfTree, peer: NodeId, told: Option<FlowRoute>)
    ensures { tree.new ≡ with_joined (left_with peer (option_map as_flow told) tree.old.joined) tree.old }
{
    match told {
        None => {}
        Some(flow) => tree.leave_in(peer, flow.source, flow.group),
    }
}

fn forget_selective(tree: &mut VrfTree, peer: NodeId, told: Option<ImportedSelective>)
    ensures { tree.new ≡ with_selective (selective_without peer (option_map as_selective told) tree.old.leaf.routes) tree.old }
{
    match told {
        None => {}
        Some(imported) => tree.leaf_forget(peer, imported.route.rd, imported.route.pattern),
    }
}

/// The route of the key is there no more: what the tree took of it is forgotten. It takes no memory.
pub(crate) fn forget_route(
    tree: &mut VrfTree,
    own: &OwnVrf,
    peer: NodeId,
    addr: Addr,
    key: &Key,
    old: Option<TakenValue>,
)
    ensures { (place : EdgePlace) (now : ℕ) (taken : Option TakenRoute) → IsFrom place own.now peer addr → Says old.entry taken →
        tree.new ≡ tree_with place (as_own own.now) peer now key.now taken None tree.old }
{
    match key {
        Key::Unicast { rd, prefix } => tree.umh_forget(peer, *rd, *prefix),
        Key::Mcast(_, Route::Active { rd, source, group }) => {
            tree.forget_active(peer, *rd, *source, *group);
        }
        Key::Mcast(_, Route::SourceJoin { .. }) => leave(tree, peer, told_join(own, key, old)),
        Key::Mcast(_, Route::Selective { .. }) => {
            forget_selective(tree, peer, told_selective(own, addr, key, old));
        }
        _ => {}
    }
}

// ---- a route that is there anew

fn learn_unicast(
    tree: &mut VrfTree,
    peer: NodeId,
    rd: Rd,
    prefix: Prefix,
    told: Option<Learned>,
) -> Result<(), NoMemory>
    requires { IfSome told (λ route. (route.rd ≡ rd) × (route.prefix ≡ prefix)) }
    ensures learned { OnOk result (tree.new
        ≡ with_learned (more_learned (key_from peer rd prefix) (option_map held_of told) tree.old.vrf.routes.learned) tree.old) }
    ensures unchanged { OnErr result (tree.new ≡ tree.old) }
{
    match told {
        None => Ok(()),
        Some(route) => tree.umh_learn(peer, route),
    }
}

fn learn_active(
    tree: &mut VrfTree,
    peer: NodeId,
    rd: Rd,
    source: Addr,
    group: Addr,
    told: Option<FlowRoute>,
) -> Result<(), NoMemory>
    ensures learned { OnOk result (tree.new
        ≡ with_actives (more_actives (active_of peer rd source group) (option_map as_flow told) tree.old.vrf.actives) tree.old) }
    ensures unchanged { OnErr result (tree.new ≡ tree.old) }
{
    match told {
        None => Ok(()),
        Some(_) => tree.learn_active(peer, rd, source, group),
    }
}

fn join(tree: &mut VrfTree, peer: NodeId, told: Option<FlowRoute>) -> Result<(), NoMemory>
    ensures joined { OnOk result (tree.new
        ≡ with_joined (joined_with peer (option_map as_flow told) tree.old.joined) tree.old) }
    ensures unchanged { OnErr result (tree.new ≡ tree.old) }
{
    match told {
        None => Ok(()),
        Some(flow) => tree.join_in(peer, flow.source, flow.group),
    }
}

fn learn_selective(
    tree: &mut VrfTree,
    peer: NodeId,
    told: Option<ImportedSelective>,
    now: u64,
) -> Result<(), NoMemory>
    ensures learned { OnOk result (tree.new
        ≡ with_selective (selective_with peer now (option_map as_selective told) tree.old.leaf.routes) tree.old) }
    ensures unchanged { OnErr result (tree.new ≡ tree.old) }
{
    match told {
        None => Ok(()),
        Some(imported) => tree.leaf_learn(
            peer,
            imported.route.rd,
            imported.route.pattern,
            imported.fec,
            now,
        ),
    }
}

/// A route of that value is at the key, where there was none: the tree takes what the VRF imports and uses of it.
pub(crate) fn learn_route(
    tree: &mut VrfTree,
    own: &OwnVrf,
    peer: NodeId,
    addr: Addr,
    key: &Key,
    new: Option<TakenValue>,
    now: u64,
) -> Result<(), NoMemory>
    ensures learned { (place : EdgePlace) (taken : Option TakenRoute) → IsFrom place own.now peer addr → Says new.entry taken →
        OnOk result (tree.new ≡ tree_learning place (as_own own.now) peer now key.now taken tree.old) }
    ensures unchanged { OnErr result (tree.new ≡ tree.old) }
{
    match key {
        Key::Unicast { rd, prefix } => {
            let told = told_unicast(own, addr, *rd, *prefix, new);
            learn_unicast(tree, peer, *rd, *prefix, told)
        }
        Key::Mcast(_, Route::Active { rd, source, group }) => {
            let told = told_active(own, key, new);
            learn_active(tree, peer, *rd, *source, *group, told)
        }
        Key::Mcast(_, Route::SourceJoin { .. }) => join(tree, peer, told_join(own, key, new)),
        Key::Mcast(_, Route::Selective { .. }) => {
            learn_selective(tree, peer, told_selective(own, addr, key, new), now)
        }
        _ => Ok(()),
    }
}
