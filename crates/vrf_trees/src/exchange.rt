//! What flows want from now on in the place of what they wanted, and which tunnels come and go by it.
ghost use Rattle.std.specs.Prelude.{◌≡◌, ◌||◌, not, filter, false, if◌then◌else◌, IfOk, OnOk};
ghost use Rattle.std.specs.FinSet as sets;
ghost use Rattle.std.specs.List.{IsDistinct};
ghost use Rattle.indexmap.specs.IndexMap.{get, IsUnique};
ghost use Rattle.mldp.specs.declared.mldp_fec.fec.Fec.{Fec};
ghost use Rattle.vrf_words.specs.declared.tree_defs.flow.Flow.{Flow};
ghost use Rattle.vrf_words.specs.tree_defs.Keys.{same_flow};
ghost use Rattle.vrf_trees.specs.Changes.{AreNew};
ghost use Rattle.vrf_trees.specs.Plan.{carried, comes, fecs_in, goes};
ghost use Rattle.vrf_trees.specs.Wants.{is_fec, is_in, is_stale, tunnels_in};

use crate::plan::Plan;
use crate::table::WantTable;
use crate::wants::{Wants, is_wanted};
use indexmap::IndexSet;
use mldp::mldp_fec::Fec;
use mv_base::{NoMemory, Seq};
use selective::Fecs;
use std::alloc::Global;
use vrf_words::tree_defs::Flow;

/// Tunnels, each once.
type FecSet = IndexSet<Fec>;

/// The tunnels that are wanted from now on, and those that are wanted no more.
#[derive(Drop)]
pub(crate) struct Told {
    pub wants: Fecs,
    pub unwants: Fecs,
}

/// Puts the tunnels to the others.
fn put_all(set: &mut FecSet, fecs: &[Fec]) -> Result<(), NoMemory>
    requires once { IsDistinct is_fec set.old.keys }
    ensures each { (fec : Fec) → OnOk result (is_in fec set.new.keys ≡ (is_in fec fecs.now || is_in fec set.old.keys)) }
    ensures once { IsDistinct is_fec set.new.keys }
{
    for fec in fecs {
        set.insert(*fec)?;
    }
    Ok(())
}

/// The tunnels of a flow, where it is there.
fn fecs_in(wants: &Option<Wants>) -> &[Fec]
    ensures { result.now ≡ fecs_in wants.now }
{
    match wants {
        Some(own) => own.fecs.as_slice(),
        None => &[],
    }
}

/// The tunnels of a flow.
fn fecs_at<'a>(wants: &'a WantTable, flow: &Flow) -> &'a [Fec]
    ensures { result.now ≡ fecs_in (get same_flow wants.now flow.now) }
{
    match wants.held().get(flow) {
        Some(own) => own.fecs.as_slice(),
        None => &[],
    }
}

/// The tunnels that flows of the plan want.
fn coming(alloc: Global, plan: &Plan) -> Result<FecSet, NoMemory>
    ensures each { (fec : Fec) → IfOk result (λ set. is_in fec set.keys ≡ comes plan.now.entries fec) }
    ensures once { IfOk result (λ set. IsDistinct is_fec set.keys) }
{
    let mut set = IndexSet::new(alloc);
    for (_, next) in plan.iter() {
        put_all(&mut set, fecs_in(next))?;
    }
    Ok(set)
}

/// The tunnels that flows of the plan wanted.
fn going(alloc: Global, plan: &Plan, wants: &WantTable) -> Result<FecSet, NoMemory>
    ensures each { (fec : Fec) → IfOk result (λ set. is_in fec set.keys ≡ goes (get same_flow wants.now) plan.now.entries fec) }
    ensures once { IfOk result (λ set. IsDistinct is_fec set.keys) }
{
    let mut set = IndexSet::new(alloc);
    for (flow, _) in plan.iter() {
        put_all(&mut set, fecs_at(wants, flow))?;
    }
    Ok(set)
}

/// Those of the tunnels that no flow wants.
fn unwanted(alloc: Global, fecs: &[Fec], wants: &WantTable) -> Result<Fecs, NoMemory>
    ensures { IfOk result (λ left. left ≡ filter (λ fec. not (is_in fec (tunnels_in wants.now.entries))) fecs.now) }
{
    let mut left = Seq::new(alloc);
    for fec in fecs {
        if !is_wanted(wants, fec) {
            left.push(*fec)?;
        }
    }
    Ok(left)
}

/// Holds what a flow wants from now on; nothing, where its upstream is no other edge.
fn carry_flow(wants: &mut WantTable, flow: Flow, next: Option<Wants>) -> Result<(), NoMemory>
    requires held { IsUnique same_flow wants.old }
    ensures each { (q : Flow) → OnOk result (get same_flow wants.new q ≡ (if same_flow flow q then next else get same_flow wants.old q)) }
    ensures unique { IsUnique same_flow wants.new }
{
    match next {
        Some(own) => wants.put(flow, own),
        None => {
            wants.let_go(&flow);
            Ok(())
        }
    }
}

/// Carries the plan out.
fn carry(wants: &mut WantTable, plan: Plan) -> Result<(), NoMemory>
    requires unique { IsUnique same_flow plan }
    requires held { IsUnique same_flow wants.old }
    ensures each { (q : Flow) → OnOk result (get same_flow wants.new q ≡ carried (get same_flow plan q) (get same_flow wants.old q)) }
    ensures unique { IsUnique same_flow wants.new }
{
    for (flow, next) in plan {
        carry_flow(wants, flow, next)?;
    }
    Ok(())
}

/// Carries the plan out, after which no flow is stale.
fn carry_out(wants: &mut WantTable, plan: Plan) -> Result<(), NoMemory>
    requires unique { IsUnique same_flow plan }
    requires held { IsUnique same_flow wants.old }
    requires fresh { (q : Flow) → is_stale (carried (get same_flow plan q) (get same_flow wants.old q)) ≡ false }
    ensures each { (q : Flow) → OnOk result (get same_flow wants.new q ≡ carried (get same_flow plan q) (get same_flow wants.old q)) }
    ensures unique { IsUnique same_flow wants.new }
{
    carry(wants, plan)?;
    wants.none_stale();
    Ok(())
}

/// Carries the plan out, and tells which tunnels come and go by it. It looks only at tunnels of flows of the plan.
pub(crate) fn exchange(alloc: Global, wants: &mut WantTable, plan: Plan) -> Result<Told, NoMemory>
    requires unique { IsUnique same_flow plan }
    requires held { IsUnique same_flow wants.old }
    requires fresh { (q : Flow) → is_stale (carried (get same_flow plan q) (get same_flow wants.old q)) ≡ false }
    ensures each { (q : Flow) → OnOk result (get same_flow wants.new q ≡ carried (get same_flow plan q) (get same_flow wants.old q)) }
    ensures unique { IsUnique same_flow wants.new }
    ensures wanted { IfOk result (λ told. AreNew told.wants
        (sets.from_list (tunnels_in wants.old.entries)) (sets.from_list (tunnels_in wants.new.entries))) }
    ensures unwanted { IfOk result (λ told. AreNew told.unwants
        (sets.from_list (tunnels_in wants.new.entries)) (sets.from_list (tunnels_in wants.old.entries))) }
{
    let come = coming(alloc, &plan)?;
    let gone = going(alloc, &plan, wants)?;
    let more = unwanted(alloc, come.as_slice(), wants)?;
    carry_out(wants, plan)?;
    let less = unwanted(alloc, gone.as_slice(), wants)?;
    Ok(Told {
        wants: more,
        unwants: less,
    })
}
