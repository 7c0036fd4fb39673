//! What flows want anew.
ghost use Rattle.std.specs.Prelude.{◌≡◌, None, Some, IfOk, OnOk};
ghost use Rattle.indexmap.specs.IndexMap.{get, IsUnique};
ghost use Rattle.vrf_words.specs.declared.tree_defs.flow.Flow.{Flow};
ghost use Rattle.vrf_words.specs.tree_defs.Keys.{same_flow};
ghost use Rattle.vrf_flows.specs.Plan.{put_at};
ghost use Rattle.vrf_flows.specs.Stale.{AreAmong};
ghost use Rattle.vrf_trees.specs.Wants.{is_stale_in, wants_of};
ghost use Rattle.vrf_trees.specs.Plan.{planned, renewal, with_joins, with_leaves};

use crate::table::WantTable;
use crate::wants::{FlowWants, Wants, wants_of};
use indexmap::IndexMap;
use mv_base::NoMemory;
use selective::LeafTunnels;
use std::alloc::Global;
use vrf_flows::{Joins, put};
use vrf_words::tree_defs::{Flow, Upstream};

/// Flows, each with what it wants from now on; `None` where its upstream is no other edge any more.
pub(crate) type Plan = IndexMap<Flow, Option<Wants>>;

/// What a flow wants, where it is stale.
fn renewal(
    alloc: Global,
    leaf: &LeafTunnels,
    flow: Flow,
    held: &Wants,
) -> Result<Option<Option<Wants>>, NoMemory>
    ensures { IfOk result (λ next. next ≡ renewal leaf.now flow held.now) }
{
    if held.stale {
        Ok(Some(Some(wants_of(alloc, leaf, held.edge, flow)?)))
    } else {
        Ok(None)
    }
}

/// Plans a flow, where it is stale.
fn plan_held(
    alloc: Global,
    leaf: &LeafTunnels,
    plan: &mut Plan,
    flow: Flow,
    held: &Wants,
) -> Result<(), NoMemory>
    requires unique { IsUnique same_flow plan.old }
    ensures each { (q : Flow) → OnOk result (get same_flow plan.new q
        ≡ put_at (same_flow flow q) (renewal leaf.now flow held.now) (get same_flow plan.old q)) }
    ensures unique { IsUnique same_flow plan.new }
{
    let next = renewal(alloc, leaf, flow, held)?;
    put(plan, flow, next)
}

/// Plans a flow that joins its upstream.
fn plan_join(
    alloc: Global,
    leaf: &LeafTunnels,
    plan: &mut Plan,
    flow: Flow,
    up: &Upstream,
) -> Result<(), NoMemory>
    requires unique { IsUnique same_flow plan.old }
    ensures each { (q : Flow) → OnOk result (get same_flow plan.new q
        ≡ put_at (same_flow flow q) (Some (Some (wants_of leaf.now up.now.edge flow))) (get same_flow plan.old q)) }
    ensures unique { IsUnique same_flow plan.new }
{
    let next = wants_of(alloc, leaf, up.edge, flow)?;
    put(plan, flow, Some(Some(next)))
}

/// The flows that are stale. It looks at each flow.
fn plan_all(alloc: Global, leaf: &LeafTunnels, wants: &FlowWants) -> Result<Plan, NoMemory>
    requires unique { IsUnique same_flow wants.now }
    ensures each { (q : Flow) → IfOk result (λ plan. get same_flow plan q ≡ planned leaf.now q (get same_flow wants.now q)) }
    ensures unique { IfOk result (λ plan. IsUnique same_flow plan) }
{
    let mut plan = IndexMap::new(alloc);
    for (flow, held) in wants.iter() {
        plan_held(alloc, leaf, &mut plan, *flow, held)?;
    }
    Ok(plan)
}

/// Plans a flow, where it is there and stale.
fn plan_one(
    alloc: Global,
    leaf: &LeafTunnels,
    wants: &FlowWants,
    plan: &mut Plan,
    flow: Flow,
) -> Result<(), NoMemory>
    requires unique { IsUnique same_flow plan.old }
    ensures each { (q : Flow) → OnOk result (get same_flow plan.new q
        ≡ put_at (same_flow flow q) (planned leaf.now flow (get same_flow wants.now flow)) (get same_flow plan.old q)) }
    ensures unique { IsUnique same_flow plan.new }
{
    match wants.get(&flow) {
        Some(held) => plan_held(alloc, leaf, plan, flow, held),
        None => Ok(()),
    }
}

/// The flows that are stale, where these are among the listed ones. It looks at those alone.
fn plan_listed(
    alloc: Global,
    leaf: &LeafTunnels,
    wants: &FlowWants,
    listed: &[Flow],
) -> Result<Plan, NoMemory>
    requires among { AreAmong (is_stale_in wants.now) listed.now }
    ensures each { (q : Flow) → IfOk result (λ plan. get same_flow plan q ≡ planned leaf.now q (get same_flow wants.now q)) }
    ensures unique { IfOk result (λ plan. IsUnique same_flow plan) }
{
    let mut plan = IndexMap::new(alloc);
    for flow in listed {
        plan_one(alloc, leaf, wants, &mut plan, *flow)?;
    }
    Ok(plan)
}

/// The flows that are stale.
fn plan_stale(alloc: Global, leaf: &LeafTunnels, wants: &WantTable) -> Result<Plan, NoMemory>
    requires unique { IsUnique same_flow wants.now }
    ensures each { (q : Flow) → IfOk result (λ plan. get same_flow plan q ≡ planned leaf.now q (get same_flow wants.now q)) }
    ensures unique { IfOk result (λ plan. IsUnique same_flow plan) }
{
    let held = wants.held();
    match wants.stale() {
        Some(listed) => plan_listed(alloc, leaf, held, listed),
        None => plan_all(alloc, leaf, held),
    }
}

/// Plans the flows that leave their upstream.
fn plan_leaves(plan: &mut Plan, leaves: &Joins) -> Result<(), NoMemory>
    requires unique { IsUnique same_flow plan.old }
    requires leaves { IsUnique same_flow leaves.now }
    ensures each { (q : Flow) →
        OnOk result (get same_flow plan.new q ≡ with_leaves (get same_flow leaves.now q) (get same_flow plan.old q)) }
    ensures unique { IsUnique same_flow plan.new }
{
    for (flow, _) in leaves.iter() {
        put(plan, *flow, Some(None))?;
    }
    Ok(())
}

/// Plans the flows that join their upstream.
fn plan_joins(
    alloc: Global,
    leaf: &LeafTunnels,
    plan: &mut Plan,
    joins: &Joins,
) -> Result<(), NoMemory>
    requires unique { IsUnique same_flow plan.old }
    requires joins { IsUnique same_flow joins.now }
    ensures each { (q : Flow) →
        OnOk result (get same_flow plan.new q ≡ with_joins leaf.now q (get same_flow joins.now q) (get same_flow plan.old q)) }
    ensures unique { IsUnique same_flow plan.new }
{
    for (flow, up) in joins.iter() {
        plan_join(alloc, leaf, plan, *flow, up)?;
    }
    Ok(())
}

/// What flows want anew: those that are stale, and those whose upstream changed.
pub(crate) fn plan(
    alloc: Global,
    leaf: &LeafTunnels,
    wants: &WantTable,
    joins: &Joins,
    leaves: &Joins,
) -> Result<Plan, NoMemory>
    requires unique { IsUnique same_flow wants.now }
    requires joins { IsUnique same_flow joins.now }
    requires leaves { IsUnique same_flow leaves.now }
    ensures each { (q : Flow) → IfOk result (λ plan. get same_flow plan q
        ≡ with_joins leaf.now q (get same_flow joins.now q)
        (with_leaves (get same_flow leaves.now q) (planned leaf.now q (get same_flow wants.now q)))) }
    ensures unique { IfOk result (λ plan. IsUnique same_flow plan) }
{
    let mut plan = plan_stale(alloc, leaf, wants)?;
    plan_leaves(&mut plan, leaves)?;
    plan_joins(alloc, leaf, &mut plan, joins)?;
    Ok(plan)
}
