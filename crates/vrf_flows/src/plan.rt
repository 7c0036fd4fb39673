//! Which flows are computed anew, and what changes by it.
ghost use Rattle.std.specs.Prelude.{◌≡◌, ◌<◌, ℕ, is_some, true, None, IfOk, OnOk, OnErr, if◌then◌else◌};
ghost use Rattle.indexmap.specs.IndexMap.{get, IsUnique};
ghost use Rattle.mv_base.specs.declared.ids.NodeId.{NodeId};
ghost use Rattle.umh_select.specs.Routes.{AreCosts, AreOfCore};
ghost use Rattle.vrf_words.specs.declared.tree_defs.flow.Flow.{Flow};
ghost use Rattle.vrf_words.specs.tree_defs.Keys.{same_flow};
ghost use Rattle.vrf_words.specs.tree_defs.Flows.{gained, same_upstream, upstream_of};
ghost use Rattle.vrf_flows.specs.Held.{is_stale_in, kept_of};
ghost use Rattle.vrf_flows.specs.Stale.{AreAmong};
ghost use Rattle.vrf_flows.specs.Sight.{seen, needs};
ghost use Rattle.vrf_flows.specs.Plan.{choice_in, joined_by, replan, put_at, planned, gain, loss, settled, settled_by};

use crate::held::{Held, HeldFlows, Kept};
use crate::sight::{Sight, flow_at, is_needed};
use crate::table::FlowTable;
use indexmap::IndexMap;
use mv_base::NoMemory;
use std::alloc::Global;
use umh_select::Choice;
use vrf_words::tree_defs::{Flow, Upstream};

/// Flows that are computed anew, each with what it is then.
pub(crate) type Plan = IndexMap<Flow, Option<Kept>>;

/// Flows, each with the edge that is joined for it, or left.
pub type Joins = IndexMap<Flow, Upstream>;

/// What a flow that is held is now, where it is stale.
fn replan(
    alloc: Global,
    sight: &Sight<'_>,
    flow: Flow,
    held: &Held,
) -> Result<Option<Option<Kept>>, NoMemory>
    requires me { sight.now.me.0 < sight.now.core.now.nodes }
    requires peers { AreOfCore sight.now.core.now.nodes sight.now.routes.now.learned }
    ensures { (cost : NodeId → ℕ) → AreCosts sight.now.core.now sight.now.me cost →
        IfOk result (λ next. next ≡ replan held.now (seen sight.now cost flow)) }
{
    if held.stale {
        Ok(Some(flow_at(alloc, sight, flow)?))
    } else {
        Ok(None)
    }
}

/// Puts at the flow what there is to put, if anything.
pub fn put<T: Drop>(
    map: &mut IndexMap<Flow, T>,
    flow: Flow,
    next: Option<T>,
) -> Result<(), NoMemory>
    requires unique { IsUnique same_flow map.old }
    ensures each { (q : Flow) → OnOk result (get same_flow map.new q ≡ put_at (same_flow flow q) next (get same_flow map.old q)) }
    ensures unique { IsUnique same_flow map.new }
{
    match next {
        Some(next) => {
            map.insert(flow, next)?;
            Ok(())
        }
        None => Ok(()),
    }
}

/// Plans a flow that is held, where it is stale.
fn plan_flow(
    alloc: Global,
    sight: &Sight<'_>,
    plan: &mut Plan,
    flow: Flow,
    held: &Held,
) -> Result<(), NoMemory>
    requires me { sight.now.me.0 < sight.now.core.now.nodes }
    requires peers { AreOfCore sight.now.core.now.nodes sight.now.routes.now.learned }
    requires unique { IsUnique same_flow plan.old }
    ensures each { (cost : NodeId → ℕ) → AreCosts sight.now.core.now sight.now.me cost → (q : Flow) →
        OnOk result (get same_flow plan.new q
        ≡ put_at (same_flow flow q) (replan held.now (seen sight.now cost flow)) (get same_flow plan.old q)) }
    ensures unique { IsUnique same_flow plan.new }
{
    let next = replan(alloc, sight, flow, held)?;
    put(plan, flow, next)
}

/// The flows that are stale, each with what it is now. It looks at each flow that is held.
fn plan_all(alloc: Global, flows: &HeldFlows, sight: &Sight<'_>) -> Result<Plan, NoMemory>
    requires me { sight.now.me.0 < sight.now.core.now.nodes }
    requires peers { AreOfCore sight.now.core.now.nodes sight.now.routes.now.learned }
    requires unique { IsUnique same_flow flows.now }
    ensures each { (cost : NodeId → ℕ) → AreCosts sight.now.core.now sight.now.me cost → (q : Flow) →
        IfOk result (λ plan. get same_flow plan q ≡ planned (get same_flow flows.now q) (seen sight.now cost q)) }
    ensures unique { IfOk result (λ plan. IsUnique same_flow plan) }
{
    let mut plan = IndexMap::new(alloc);
    for (flow, held) in flows.iter() {
        plan_flow(alloc, sight, &mut plan, *flow, held)?;
    }
    Ok(plan)
}

/// Plans a flow, where it is held and stale.
fn plan_one(
    alloc: Global,
    flows: &HeldFlows,
    sight: &Sight<'_>,
    plan: &mut Plan,
    flow: Flow,
) -> Result<(), NoMemory>
    requires me { sight.now.me.0 < sight.now.core.now.nodes }
    requires peers { AreOfCore sight.now.core.now.nodes sight.now.routes.now.learned }
    requires unique { IsUnique same_flow plan.old }
    ensures each { (cost : NodeId → ℕ) → AreCosts sight.now.core.now sight.now.me cost → (q : Flow) →
        OnOk result (get same_flow plan.new q
        ≡ put_at (same_flow flow q) (planned (get same_flow flows.now flow) (seen sight.now cost flow)) (get same_flow plan.old q)) }
    ensures unique { IsUnique same_flow plan.new }
{
    match flows.get(&flow) {
        Some(held) => plan_flow(alloc, sight, plan, flow, held),
        None => Ok(()),
    }
}

/// The flows that are stale, each with what it is now, where these are among the listed ones. It looks at those alone.
fn plan_listed(
    alloc: Global,
    flows: &HeldFlows,
    listed: &[Flow],
    sight: &Sight<'_>,
) -> Result<Plan, NoMemory>
    requires me { sight.now.me.0 < sight.now.core.now.nodes }
    requires peers { AreOfCore sight.now.core.now.nodes sight.now.routes.now.learned }
    requires among { AreAmong (is_stale_in flows.now) listed.now }
    ensures each { (cost : NodeId → ℕ) → AreCosts sight.now.core.now sight.now.me cost → (q : Flow) →
        IfOk result (λ plan. get same_flow plan q ≡ planned (get same_flow flows.now q) (seen sight.now cost q)) }
    ensures unique { IfOk result (λ plan. IsUnique same_flow plan) }
{
    let mut plan = IndexMap::new(alloc);
    for flow in listed {
        plan_one(alloc, flows, sight, &mut plan, *flow)?;
    }
    Ok(plan)
}

/// The flows that are stale, each with what it is now.
pub(crate) fn plan(alloc: Global, flows: &FlowTable, sight: &Sight<'_>) -> Result<Plan, NoMemory>
    requires me { sight.now.me.0 < sight.now.core.now.nodes }
    requires peers { AreOfCore sight.now.core.now.nodes sight.now.routes.now.learned }
    requires unique { IsUnique same_flow flows.now }
    ensures each { (cost : NodeId → ℕ) → AreCosts sight.now.core.now sight.now.me cost → (q : Flow) →
        IfOk result (λ plan. get same_flow plan q ≡ planned (get same_flow flows.now q) (seen sight.now cost q)) }
    ensures unique { IfOk result (λ plan. IsUnique same_flow plan) }
{
    let held = flows.held();
    match flows.stale() {
        Some(listed) => plan_listed(alloc, held, listed, sight),
        None => plan_all(alloc, held, sight),
    }
}

/// The edge of a choice, where it is another one.
fn upstream_of(choice: Choice) -> Option<Upstream>
    ensures { result ≡ upstream_of (Some choice) }
{
    match choice {
        Choice::Remote {
            edge,
            rd,
            import,
            source_as,
        } => Some(Upstream {
            edge,
            rd,
            import,
            source_as,
        }),
        _ => None,
    }
}

/// The edge that is joined for a flow.
fn joined_by(now: &Option<Kept>) -> Option<Upstream>
    ensures { result ≡ joined_by now.now }
{
    match now {
        Some(kept) => upstream_of(kept.choice),
        None => None,
    }
}

fn same_upstream(own: Option<Upstream>, other: Option<Upstream>) -> bool
    ensures { result ≡ same_upstream own other }
{
    match (own, other) {
        (None, None) => true,
        (Some(own), Some(other)) => own == other,
        _ => false,
    }
}

/// The edge that is joined where the first is left for the second.
fn gained(before: Option<Upstream>, after: Option<Upstream>) -> Option<Upstream>
    ensures { result ≡ gained before after }
{
    if same_upstream(before, after) {
        None
    } else {
        after
    }
}

/// The edge that was joined for a flow that is held.
pub(crate) fn joined_before(flows: &FlowTable, flow: &Flow) -> Option<Upstream>
    ensures { result ≡ joined_by (kept_of (get same_flow flows.now flow.now)) }
{
    match flows.held().get(flow) {
        Some(held) => joined_by(&held.kept),
        None => None,
    }
}

/// The edges that are joined.
pub(crate) fn joins_of(alloc: Global, flows: &FlowTable, plan: &Plan) -> Result<Joins, NoMemory>
    requires unique { IsUnique same_flow plan.now }
    ensures each { (q : Flow) → IfOk result (λ joins. get same_flow joins q ≡ gain (get same_flow flows.now q) (get same_flow plan.now q)) }
    ensures unique { IfOk result (λ joins. IsUnique same_flow joins) }
{
    let mut joins = IndexMap::new(alloc);
    for (flow, now) in plan.iter() {
        let before = joined_before(flows, flow);
        put(&mut joins, *flow, gained(before, joined_by(now)))?;
    }
    Ok(joins)
}

/// The edges that are left.
pub(crate) fn leaves_of(alloc: Global, flows: &FlowTable, plan: &Plan) -> Result<Joins, NoMemory>
    requires unique { IsUnique same_flow plan.now }
    ensures each { (q : Flow) →
        IfOk result (λ leaves. get same_flow leaves q ≡ loss (get same_flow flows.now q) (get same_flow plan.now q)) }
    ensures unique { IfOk result (λ leaves. IsUnique same_flow leaves) }
{
    let mut leaves = IndexMap::new(alloc);
    for (flow, now) in plan.iter() {
        let before = joined_before(flows, flow);
        put(&mut leaves, *flow, gained(joined_by(now), before))?;
    }
    Ok(leaves)
}

/// Holds what a flow is, or lets it go, where it is none and is not needed.
fn settle_flow(
    flows: &mut FlowTable,
    flow: Flow,
    kept: Option<Kept>,
    sight: &Sight<'_>,
) -> Result<(), NoMemory>
    requires held { IsUnique same_flow flows.old }
    ensures each { (q : Flow) →
        OnOk result (get same_flow flows.new q
        ≡ (if same_flow flow q then settled_by (needs sight.now flow) kept else get same_flow flows.old q)) }
    ensures unchanged { (q : Flow) → OnErr result (get same_flow flows.new q ≡ get same_flow flows.old q) }
    ensures unique { IsUnique same_flow flows.new }
{
    match kept {
        Some(kept) => flows.settle(flow, Some(kept)),
        None => settle_none(flows, flow, is_needed(sight, flow)),
    }
}

/// Holds that a flow is none of the VRF, where it is needed.
fn settle_none(flows: &mut FlowTable, flow: Flow, needed: bool) -> Result<(), NoMemory>
    requires held { IsUnique same_flow flows.old }
    ensures each { (q : Flow) →
        OnOk result (get same_flow flows.new q ≡ (if same_flow flow q then settled_by needed None else get same_flow flows.old q)) }
    ensures unchanged { (q : Flow) → OnErr result (get same_flow flows.new q ≡ get same_flow flows.old q) }
    ensures unique { IsUnique same_flow flows.new }
{
    if needed {
        flows.settle(flow, None)
    } else {
        flows.let_go(&flow);
        Ok(())
    }
}

/// Holds what the plan says. A flow that is needed stays held, also after want of memory.
fn settle_each(flows: &mut FlowTable, plan: Plan, sight: &Sight<'_>) -> Result<(), NoMemory>
    requires unique { IsUnique same_flow plan }
    requires held { IsUnique same_flow flows.old }
    ensures each { (q : Flow) →
        OnOk result (get same_flow flows.new q ≡ settled (needs sight.now q) (get same_flow plan q) (get same_flow flows.old q)) }
    ensures held { (q : Flow) → needs sight.now q ≡ true → is_some (get same_flow flows.old q) ≡ true →
        is_some (get same_flow flows.new q) ≡ true }
    ensures unique { IsUnique same_flow flows.new }
{
    for (flow, kept) in plan {
        settle_flow(flows, flow, kept, sight)?;
    }
    Ok(())
}

/// Holds what the plan says, which has each flow that is stale, so that none is then. A flow that is needed stays held, also
/// after want of memory.
pub(crate) fn settle(flows: &mut FlowTable, plan: Plan, sight: &Sight<'_>) -> Result<(), NoMemory>
    requires unique { IsUnique same_flow plan }
    requires held { IsUnique same_flow flows.old }
    requires planned { (q : Flow) → is_stale_in flows.old q ≡ true → is_some (get same_flow plan q) ≡ true }
    ensures each { (q : Flow) →
        OnOk result (get same_flow flows.new q ≡ settled (needs sight.now q) (get same_flow plan q) (get same_flow flows.old q)) }
    ensures held { (q : Flow) → needs sight.now q ≡ true → is_some (get same_flow flows.old q) ≡ true →
        is_some (get same_flow flows.new q) ≡ true }
    ensures unique { IsUnique same_flow flows.new }
{
    settle_each(flows, plan, sight)?;
    flows.none_stale();
    Ok(())
}
