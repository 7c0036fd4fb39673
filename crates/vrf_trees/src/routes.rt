//! The selective routes that an egress learned, with marks on the flows that a change of them may touch.
ghost use Rattle.std.specs.Prelude.{◌≡◌, [], ◌∷◌, OnOk, OnErr};
ghost use Rattle.std.specs.FinMap as maps;
ghost use Rattle.std.specs.FinMap.{FinMap};
ghost use Rattle.indexmap.specs.IndexMap.{get, IsUnique};
ghost use Rattle.selective.specs.Leaves.{key_of, learned_now, routes_run, without_peer};
ghost use Rattle.umh_select.specs.declared.route.Choice.{Choice};
ghost use Rattle.vrf_words.specs.declared.tree_defs.flow.Flow.{Flow};
ghost use Rattle.vrf_words.specs.tree_defs.Keys.{flow_cmp, same_flow};
ghost use Rattle.vrf_trees.specs.Wants.{IsSound, marked_waiting, tunnels_in};

use crate::table::WantTable;
use crate::wants::Cause;
use mldp::mldp_fec::Fec;
use mv_base::{NoMemory, NodeId, Pattern, Rd};
use selective::{LeafTunnels, Learned, RouteKey};

/// The route is learned now, in place of one of that peer, route distinguisher and pattern.
pub(crate) fn learn(
    leaf: &mut LeafTunnels,
    wants: &mut WantTable,
    peer: NodeId,
    rd: Rd,
    pattern: Pattern,
    fec: Fec,
    now: u64,
) -> Result<(), NoMemory>
    requires unique { IsUnique same_flow wants.old }
    ensures learned { OnOk result (leaf.new
        ≡ record leaf.old { routes = maps.insert leaf.old.routes (key_of peer rd pattern) (learned_now fec now) }) }
    ensures unchanged { OnErr result (leaf.new ≡ leaf.old) }
    ensures sound { (flows : FinMap flow_cmp Choice) → IsSound leaf.old flows wants.old → IsSound leaf.new flows wants.new }
    ensures tunnels { tunnels_in wants.new.entries ≡ tunnels_in wants.old.entries }
{
    let cause = Cause::Routes(peer, pattern);
    leaf.learn(peer, rd, pattern, fec, now)?;
    wants.mark(&cause);
    Ok(())
}

/// Forgets the route of that peer, route distinguisher and pattern.
pub(crate) fn forget(
    leaf: &mut LeafTunnels,
    wants: &mut WantTable,
    peer: NodeId,
    rd: Rd,
    pattern: Pattern,
)
    requires unique { IsUnique same_flow wants.old }
    ensures forgotten { leaf.new ≡ record leaf.old { routes = maps.remove leaf.old.routes (key_of peer rd pattern) } }
    ensures sound { (flows : FinMap flow_cmp Choice) → IsSound leaf.old flows wants.old → IsSound leaf.new flows wants.new }
    ensures tunnels { tunnels_in wants.new.entries ≡ tunnels_in wants.old.entries }
{
    leaf.forget(peer, rd, pattern);
    wants.mark(&Cause::Routes(peer, pattern));
}

/// Forgets all routes of the peer.
pub(crate) fn forget_peer(leaf: &mut LeafTunnels, wants: &mut WantTable, peer: NodeId)
    requires unique { IsUnique same_flow wants.old }
    ensures forgotten { leaf.new ≡ record leaf.old { routes = without_peer peer leaf.old.routes } }
    ensures sound { (flows : FinMap flow_cmp Choice) → IsSound leaf.old flows wants.old → IsSound leaf.new flows wants.new }
    ensures tunnels { tunnels_in wants.new.entries ≡ tunnels_in wants.old.entries }
{
    leaf.forget_peer(peer);
    wants.mark(&Cause::Peer(peer));
}

/// Marks the flows of the route's pattern, where its delay is due and was not run.
fn mark_route(
    wants: &mut WantTable,
    leaf: &LeafTunnels,
    key: &RouteKey,
    learned: &Learned,
    now: u64,
)
    requires unique { IsUnique same_flow wants.old }
    ensures each { (q : Flow) → get same_flow wants.new q
        ≡ marked_waiting leaf.now.delay now ((key.now, learned.now) ∷ []) q (get same_flow wants.old q) }
    ensures unique { IsUnique same_flow wants.new }
    ensures tunnels { tunnels_in wants.new.entries ≡ tunnels_in wants.old.entries }
{
    if leaf.is_waiting(learned, now) {
        wants.mark(&Cause::Routes(key.peer, key.pattern));
    }
}

/// Marks the flows of the patterns of all routes whose delay is due and was not run.
fn mark_waiting(wants: &mut WantTable, leaf: &LeafTunnels, now: u64)
    requires unique { IsUnique same_flow wants.old }
    ensures each { (q : Flow) → get same_flow wants.new q
        ≡ marked_waiting leaf.now.delay now (maps.entries leaf.now.routes) q (get same_flow wants.old q) }
    ensures unique { IsUnique same_flow wants.new }
    ensures tunnels { tunnels_in wants.new.entries ≡ tunnels_in wants.old.entries }
{
    for (key, learned) in leaf.routes().iter() {
        mark_route(wants, leaf, key, learned, now);
    }
}

/// Runs the delay of each route that is due. The flows that are looked at are those of the patterns of such routes. Where none can be due,
/// no route is looked at.
pub(crate) fn run_routes(leaf: &mut LeafTunnels, wants: &mut WantTable, now: u64)
    requires unique { IsUnique same_flow wants.old }
    ensures run { leaf.new ≡ record leaf.old { routes = routes_run leaf.old.delay now leaf.old.routes } }
    ensures sound { (flows : FinMap flow_cmp Choice) → IsSound leaf.old flows wants.old → IsSound leaf.new flows wants.new }
    ensures tunnels { tunnels_in wants.new.entries ≡ tunnels_in wants.old.entries }
{
    if !leaf.is_any_due(now) {
        return;
    }
    mark_waiting(wants, leaf, now);
    leaf.timers(now);
}
