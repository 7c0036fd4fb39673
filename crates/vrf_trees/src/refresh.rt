//! A refresh of the flows and of what they want.
ghost use Rattle.std.specs.Prelude.{◌≡◌, ◌<◌, ℕ, IfOk, OnOk};
ghost use Rattle.std.specs.FinMap as maps;
ghost use Rattle.std.specs.FinSet as sets;
ghost use Rattle.mv_base.specs.declared.ids.NodeId.{NodeId};
ghost use Rattle.umh_select.specs.Routes.{AreCosts, AreOfCore};
ghost use Rattle.label_defs.specs.Keys.{fec_cmp};
ghost use Rattle.vrf_words.specs.declared.tree_defs.flow.Flow.{Flow};
ghost use Rattle.vrf_words.specs.tree_defs.Flows.{flow_of, gained, lost, upstream_of};
ghost use Rattle.vrf_words.specs.tree_defs.Trees.{wanted_by};
ghost use Rattle.vrf_trees.specs.Changes.{AreJoins, AreNew};
ghost use Rattle.vrf_trees.specs.Wants.{IsSound, tunnels_in};

use crate::changes::{TreeChanges, joins_of};
use crate::exchange::exchange;
use crate::plan::plan;
use crate::table::WantTable;
use core_paths::Core;
use mv_base::{NoMemory, NodeId};
use selective::LeafTunnels;
use std::alloc::Global;
use vrf_flows::VrfFlows;

/// Brings the flows and what they want up to date. Where nothing is stale that is seen at once. After want of memory nothing is known
/// of these; all else is as it was.
pub(crate) fn refresh(
    alloc: Global,
    flows: &mut VrfFlows,
    leaf: &LeafTunnels,
    wants: &mut WantTable,
    now: u64,
    me: NodeId,
    core: &Core,
) -> Result<TreeChanges, NoMemory>
    requires me { me.0 < core.now.nodes }
    requires peers { AreOfCore core.now.nodes flows.old.routes.learned }
    requires sound { IsSound leaf.now flows.old.flows wants.old }
    ensures sound { OnOk result (IsSound leaf.now flows.new.flows wants.new) }
    ensures flows { (cost : NodeId → ℕ) → AreCosts core.now me cost → (q : Flow) →
        OnOk result (maps.get flows.new.flows q ≡ flow_of flows.old cost now q) }
    ensures rest { flows.new ≡ record flows.old { flows = flows.new.flows } }
    ensures wants { OnOk result (sets.from_list {R = fec_cmp} (tunnels_in wants.new.entries)
        ≡ sets.from_list (wanted_by leaf.now flows.new.flows)) }
    ensures joins { (cost : NodeId → ℕ) → AreCosts core.now me cost → IfOk result (λ changes. AreJoins changes.joins
        (λ q. gained (upstream_of (maps.get flows.old.flows q)) (upstream_of (flow_of flows.old cost now q)))) }
    ensures leaves { (cost : NodeId → ℕ) → AreCosts core.now me cost → IfOk result (λ changes. AreJoins changes.leaves
        (λ q. lost (upstream_of (maps.get flows.old.flows q)) (upstream_of (flow_of flows.old cost now q)))) }
    ensures wanted { IfOk result (λ changes. AreNew changes.wants
        (sets.from_list (tunnels_in wants.old.entries)) (sets.from_list (tunnels_in wants.new.entries))) }
    ensures unwanted { IfOk result (λ changes. AreNew changes.unwants
        (sets.from_list (tunnels_in wants.new.entries)) (sets.from_list (tunnels_in wants.old.entries))) }
{
    // The core is asked, so that it is known here that each node is reached.
    let _ = core.nodes();
    if flows.is_fresh(now) && wants.all_fresh() {
        return Ok(TreeChanges::none(alloc));
    }
    let changes = flows.refresh(now, me, core)?;
    let plan = plan(alloc, leaf, wants, &changes.joins, &changes.leaves)?;
    let told = exchange(alloc, wants, plan)?;
    let joins = joins_of(alloc, &changes.joins)?;
    let leaves = joins_of(alloc, &changes.leaves)?;
    Ok(TreeChanges {
        joins,
        leaves,
        wants: told.wants,
        unwants: told.unwants,
    })
}
