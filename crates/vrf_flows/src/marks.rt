//! Marks on the flows that a change may change.
ghost use Rattle.std.specs.Prelude.{◌≡◌, ◌&&◌, true};
ghost use Rattle.std.specs.List.{list_any};
ghost use Rattle.indexmap.specs.IndexMap.{get, IsUnique};
ghost use Rattle.vrf_words.specs.declared.tree_defs.flow.Flow.{Flow};
ghost use Rattle.vrf_words.specs.tree_defs.Keys.{same_flow};
ghost use Rattle.mv_base.specs.Prefix.{covers};
ghost use Rattle.umh_select.specs.Routes.{is_from};
ghost use Rattle.vrf_flows.specs.Held.{concerns, covers_from, mark, marked, forgotten, unknown, names, names_in, lapses, ends, lapsed, ended};
ghost use Rattle.vrf_flows.specs.Held.{differ, is_fresh, is_news};
ghost use Rattle.vrf_flows.specs.Stale.{is_listed, passes};

use crate::held::{Cause, Held, HeldFlows, cause_of};
use crate::stale::StaleFlows;
use crate::table::FlowTable;
use indexmap::IndexMap;
use mv_base::{Addr, NodeId};
use pim_defs::{Expiry, entry_of};
use pim_joinprune::{Group, JpSource};
use scenario_defs::IfaceEntry;
use umh_select::{LearnedRoutes, RouteKey};
use vrf_words::tree_defs::Flow;

/// Marks the flow, where it is held, and answers whether it was held and not stale.
pub(crate) fn mark_held(flows: &mut HeldFlows, flow: Flow) -> bool
    requires unique { IsUnique same_flow flows.old }
    ensures news { result ≡ is_fresh (get same_flow flows.old flow) }
    ensures each { (q : Flow) → get same_flow flows.new q ≡ marked (same_flow flow q) (get same_flow flows.old q) }
    ensures unique { IsUnique same_flow flows.new }
{
    match flows.get_mut(&flow) {
        None => false,
        Some(held) => {
            let news = !held.stale;
            held.stale = true;
            news
        }
    }
}

/// Lists the flows that the cause touches and that are not stale yet. It looks at each flow that is held.
pub(crate) fn list_where(stale: &mut StaleFlows, held: &HeldFlows, cause: &Cause)
    ensures listed { (q : Flow) → passes (is_news cause.now) q (get same_flow held.now q) ≡ true → is_listed stale.new q ≡ true }
    ensures kept { (q : Flow) → is_listed stale.old q ≡ true → is_listed stale.new q ≡ true }
{
    for (flow, own) in held.iter() {
        stale.add_if(*flow, !own.stale && cause.concerns(flow));
    }
}

/// Marks the flows that the cause touches. It looks at each flow that is held.
pub(crate) fn mark_where(flows: &mut HeldFlows, cause: &Cause)
    requires unique { IsUnique same_flow flows.old }
    ensures each { (q : Flow) → get same_flow flows.new q ≡ marked (concerns cause.now q) (get same_flow flows.old q) }
    ensures unique { IsUnique same_flow flows.new }
{
    flows.retain(
        |flow: &Flow, held: &mut Held| -> bool
            ensures { (result ≡ true) × (held.new ≡ mark (concerns cause.entry.now flow.now) held.old) }
        {
            held.stale = held.stale || cause.concerns(flow);
            true
        },
    );
}

/// Marks the flows that the cause touches.
pub(crate) fn mark(flows: &mut FlowTable, cause: &Cause)
    requires unique { IsUnique same_flow flows.old }
    ensures each { (q : Flow) → get same_flow flows.new q ≡ marked (concerns cause.now q) (get same_flow flows.old q) }
    ensures unique { IsUnique same_flow flows.new }
{
    match cause {
        Cause::Flow(flow) => flows.mark(*flow),
        _ => flows.mark_where(cause),
    }
}

/// Marks the flows whose sources the route of the key covers, where it is from the peer.
fn mark_route(flows: &mut FlowTable, key: &RouteKey, peer: NodeId)
    requires unique { IsUnique same_flow flows.old }
    ensures each { (q : Flow) → get same_flow flows.new q
        ≡ marked (is_from peer key.now.place && covers key.now.prefix q.source) (get same_flow flows.old q) }
    ensures unique { IsUnique same_flow flows.new }
{
    if key.is_from(peer) {
        mark(flows, &Cause::Prefix(key.prefix));
    }
}

/// Marks the flows whose sources a route from the peer covers.
pub(crate) fn mark_peer(flows: &mut FlowTable, learned: &LearnedRoutes, peer: NodeId)
    requires unique { IsUnique same_flow flows.old }
    ensures each { (q : Flow) → get same_flow flows.new q
        ≡ marked (list_any (covers_from peer q) learned.now.entries) (get same_flow flows.old q) }
    ensures unique { IsUnique same_flow flows.new }
{
    for (key, _route) in learned.iter() {
        mark_route(flows, key, peer);
    }
}

/// Marks the flows that the sources of a group name.
fn mark_sources(flows: &mut FlowTable, group: Addr, sources: &[JpSource])
    requires unique { IsUnique same_flow flows.old }
    ensures each { (q : Flow) → get same_flow flows.new q ≡ marked (names group sources.now q) (get same_flow flows.old q) }
    ensures unique { IsUnique same_flow flows.new }
{
    for source in sources {
        mark(flows, &cause_of(&entry_of(group, source)));
    }
}

/// Marks the flows that a group of a message names.
fn mark_group(flows: &mut FlowTable, group: &Group)
    requires unique { IsUnique same_flow flows.old }
    ensures each { (q : Flow) → get same_flow flows.new q ≡ marked (names_in group.now q) (get same_flow flows.old q) }
    ensures unique { IsUnique same_flow flows.new }
{
    mark_sources(flows, group.group, group.joins.as_slice());
    mark_sources(flows, group.group, group.prunes.as_slice());
}

/// Marks the flows that a message names.
pub(crate) fn mark_message(flows: &mut FlowTable, groups: &[Group])
    requires unique { IsUnique same_flow flows.old }
    ensures each { (q : Flow) → get same_flow flows.new q
        ≡ marked (list_any (λ group. names_in group q) groups.now) (get same_flow flows.old q) }
    ensures unique { IsUnique same_flow flows.new }
{
    for group in groups {
        mark_group(flows, group);
    }
}

fn differ(own: bool, other: bool) -> bool
    ensures { result ≡ differ own other }
{
    if own { !other } else { other }
}

/// Marks the flows of an entry, where it counts at one of the clocks and not at the other.
fn mark_lapse(flows: &mut FlowTable, at: &IfaceEntry, expiry: Expiry, from: u64, to: u64)
    requires unique { IsUnique same_flow flows.old }
    ensures each { (q : Flow) → get same_flow flows.new q ≡ marked (lapses from to at.now expiry q) (get same_flow flows.old q) }
    ensures unique { IsUnique same_flow flows.new }
{
    if differ(expiry.is_after(from), expiry.is_after(to)) {
        mark(flows, &cause_of(&at.entry));
    }
}

/// Marks the flows of the entries that count at one of the clocks and not at the other.
fn mark_lapsed(flows: &mut FlowTable, entries: &IndexMap<IfaceEntry, Expiry>, from: u64, to: u64)
    requires unique { IsUnique same_flow flows.old }
    ensures each { (q : Flow) → get same_flow flows.new q
        ≡ marked (list_any (lapsed from to q) entries.now.entries) (get same_flow flows.old q) }
    ensures unique { IsUnique same_flow flows.new }
{
    for (at, expiry) in entries.iter() {
        mark_lapse(flows, at, *expiry, from, to);
    }
}

/// The same, which looks at no entry where both clocks are one.
pub(crate) fn mark_between(
    flows: &mut FlowTable,
    entries: &IndexMap<IfaceEntry, Expiry>,
    from: u64,
    to: u64,
)
    requires unique { IsUnique same_flow flows.old }
    ensures each { (q : Flow) → get same_flow flows.new q
        ≡ marked (list_any (lapsed from to q) entries.now.entries) (get same_flow flows.old q) }
    ensures unique { IsUnique same_flow flows.new }
{
    if from != to {
        mark_lapsed(flows, entries, from, to);
    }
}

/// Marks the flows of an entry, where it has ended at the clock.
fn mark_end(flows: &mut FlowTable, at: &IfaceEntry, expiry: Expiry, now: u64)
    requires unique { IsUnique same_flow flows.old }
    ensures each { (q : Flow) → get same_flow flows.new q ≡ marked (ends now at.now expiry q) (get same_flow flows.old q) }
    ensures unique { IsUnique same_flow flows.new }
{
    if !expiry.is_after(now) {
        mark(flows, &cause_of(&at.entry));
    }
}

/// Marks the flows of the entries that have ended at the clock.
pub(crate) fn mark_ended(flows: &mut FlowTable, entries: &IndexMap<IfaceEntry, Expiry>, now: u64)
    requires unique { IsUnique same_flow flows.old }
    ensures each { (q : Flow) → get same_flow flows.new q
        ≡ marked (list_any (ended now q) entries.now.entries) (get same_flow flows.old q) }
    ensures unique { IsUnique same_flow flows.new }
{
    for (at, expiry) in entries.iter() {
        mark_end(flows, at, *expiry, now);
    }
}

/// Keeps nothing of what the flows were, and marks them all. It takes no memory.
pub(crate) fn forget_held(flows: &mut HeldFlows)
    requires unique { IsUnique same_flow flows.old }
    ensures each { (q : Flow) → get same_flow flows.new q ≡ forgotten (get same_flow flows.old q) }
    ensures unique { IsUnique same_flow flows.new }
{
    flows.retain(
        |_flow: &Flow, held: &mut Held| -> bool
            ensures { (result ≡ true) × (held.new ≡ unknown) }
        {
            held.stale = true;
            held.kept = None;
            true
        },
    );
}
