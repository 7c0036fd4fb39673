//! Flows that a VRF may have, each with what it was at the last refresh.
ghost use Rattle.std.specs.Prelude.{◌≡◌, is_some, OnOk, OnErr};
ghost use Rattle.std.specs.List.{list_any};
ghost use Rattle.indexmap.specs.IndexMap.{get, IsUnique};
ghost use Rattle.vrf_words.specs.declared.tree_defs.flow.Flow.{Flow};
ghost use Rattle.vrf_words.specs.tree_defs.Keys.{same_flow};
ghost use Rattle.vrf_flows.specs.Held.{cause_of, concerns, held_sent, held_too, joins_flow, joins_in, joins_itself, holds_entry};

use crate::table::FlowTable;
use indexmap::IndexMap;
use mv_base::{Addr, NoMemory, Prefix, Seq};
use pim_defs::Expiry;
use pim_joinprune::{Group, JpSource, SourceKind};
use scenario_defs::{IfaceEntry, JoinEntry};
use umh_select::Choice;
use vrf_words::tree_defs::{Flow, SiteIface};

/// A flow of the VRF: its upstream, and the interfaces that ask for it, in order.
#[derive(Drop)]
pub(crate) struct Kept {
    pub choice: Choice,
    pub ifaces: Seq<SiteIface>,
}

/// What is held of a flow.
#[derive(Drop)]
pub(crate) struct Held {
    /// Whether something that it depends on was touched since the last refresh.
    pub stale: bool,
    /// What it was at the last refresh, where it was a flow of the VRF.
    pub kept: Option<Kept>,
}

/// Flows, each with what is held of it.
pub(crate) type HeldFlows = IndexMap<Flow, Held>;

/// What touches flows.
#[derive(Clone, Copy)]
pub(crate) enum Cause {
    Flow(Flow),
    Group(Addr),
    Prefix(Prefix),
    All,
}

impl Cause {
    /// Whether it touches the flow.
    pub fn concerns(&self, flow: &Flow) -> bool
        ensures { result ≡ concerns self.now flow.now }
    {
        match self {
            Cause::Flow(own) => own == flow,
            Cause::Group(group) => *group == flow.group,
            Cause::Prefix(prefix) => prefix.covers(flow.source),
            Cause::All => true,
        }
    }
}

/// The flows that an entry may change.
pub(crate) fn cause_of(entry: &JoinEntry) -> Cause
    ensures { result ≡ cause_of entry.now }
{
    match entry {
        JoinEntry::Star { group } => Cause::Group(*group),
        JoinEntry::Source { source, group } => Cause::Flow(Flow {
            source: *source,
            group: *group,
        }),
        JoinEntry::Rpt { source, group } => Cause::Flow(Flow {
            source: *source,
            group: *group,
        }),
    }
}

/// Holds the flow too, where it is not held yet.
pub(crate) fn hold(flows: &mut FlowTable, flow: Flow) -> Result<(), NoMemory>
    requires unique { IsUnique same_flow flows.old }
    ensures each { (q : Flow) → OnOk result (get same_flow flows.new q ≡ held_too (same_flow flow q) (get same_flow flows.old q)) }
    ensures grown { (q : Flow) → get same_flow flows.new q ≡ held_too (is_some (get same_flow flows.new q)) (get same_flow flows.old q) }
    ensures unique { IsUnique same_flow flows.new }
{
    if flows.holds(&flow) {
        return Ok(());
    }
    flows.hold(flow, true)?;
    Ok(())
}

/// Holds a flow too that is known to be sent. Where no entry may join it, it is known to be none of the VRF, and no refresh looks at it.
pub(crate) fn hold_sent(flows: &mut FlowTable, flow: Flow, asked: bool) -> Result<(), NoMemory>
    requires unique { IsUnique same_flow flows.old }
    ensures each { (q : Flow) → OnOk result (get same_flow flows.new q ≡ held_sent asked (same_flow flow q) (get same_flow flows.old q)) }
    ensures unchanged { (q : Flow) → OnErr result (get same_flow flows.new q ≡ get same_flow flows.old q) }
    ensures unique { IsUnique same_flow flows.new }
{
    if flows.holds(&flow) {
        return Ok(());
    }
    flows.hold(flow, asked)?;
    Ok(())
}

/// Holds the flow that a source of a group joins, if it joins one.
fn hold_source(flows: &mut FlowTable, group: Addr, source: &JpSource) -> Result<(), NoMemory>
    requires unique { IsUnique same_flow flows.old }
    ensures each { (q : Flow) →
        OnOk result (get same_flow flows.new q ≡ held_too (joins_flow group q source.now) (get same_flow flows.old q)) }
    ensures grown { (q : Flow) → get same_flow flows.new q ≡ held_too (is_some (get same_flow flows.new q)) (get same_flow flows.old q) }
    ensures unique { IsUnique same_flow flows.new }
{
    match source.kind {
        SourceKind::Sg => hold(
            flows,
            Flow {
                source: source.addr,
                group,
            },
        ),
        _ => Ok(()),
    }
}

/// Holds the flows that the sources of a group join.
fn hold_sources(flows: &mut FlowTable, group: Addr, sources: &[JpSource]) -> Result<(), NoMemory>
    requires unique { IsUnique same_flow flows.old }
    ensures each { (q : Flow) →
        OnOk result (get same_flow flows.new q ≡ held_too (list_any (joins_flow group q) sources.now) (get same_flow flows.old q)) }
    ensures grown { (q : Flow) → get same_flow flows.new q ≡ held_too (is_some (get same_flow flows.new q)) (get same_flow flows.old q) }
    ensures unique { IsUnique same_flow flows.new }
{
    for source in sources {
        hold_source(flows, group, source)?;
    }
    Ok(())
}

/// Holds the flows that a message joins.
pub(crate) fn hold_message(flows: &mut FlowTable, groups: &[Group]) -> Result<(), NoMemory>
    requires unique { IsUnique same_flow flows.old }
    ensures each { (q : Flow) →
        OnOk result (get same_flow flows.new q ≡ held_too (list_any (joins_in q) groups.now) (get same_flow flows.old q)) }
    ensures grown { (q : Flow) → get same_flow flows.new q ≡ held_too (is_some (get same_flow flows.new q)) (get same_flow flows.old q) }
    ensures unique { IsUnique same_flow flows.new }
{
    for group in groups {
        hold_sources(flows, group.group, group.joins.as_slice())?;
    }
    Ok(())
}

/// Holds the flow that an entry joins itself, if it joins one.
fn hold_entry(flows: &mut FlowTable, entry: &JoinEntry) -> Result<(), NoMemory>
    requires unique { IsUnique same_flow flows.old }
    ensures each { (q : Flow) → OnOk result (get same_flow flows.new q ≡ held_too (joins_itself q entry.now) (get same_flow flows.old q)) }
    ensures grown { (q : Flow) → get same_flow flows.new q ≡ held_too (is_some (get same_flow flows.new q)) (get same_flow flows.old q) }
    ensures unique { IsUnique same_flow flows.new }
{
    match entry {
        JoinEntry::Source { source, group } => hold(
            flows,
            Flow {
                source: *source,
                group: *group,
            },
        ),
        _ => Ok(()),
    }
}

/// Holds the flows that the entries join themselves.
pub(crate) fn hold_entries(
    flows: &mut FlowTable,
    entries: &IndexMap<IfaceEntry, Expiry>,
) -> Result<(), NoMemory>
    requires unique { IsUnique same_flow flows.old }
    ensures each { (q : Flow) →
        OnOk result (get same_flow flows.new q ≡ held_too (list_any (holds_entry q) entries.now.entries) (get same_flow flows.old q)) }
    ensures grown { (q : Flow) → get same_flow flows.new q ≡ held_too (is_some (get same_flow flows.new q)) (get same_flow flows.old q) }
    ensures unique { IsUnique same_flow flows.new }
{
    for (at, _) in entries.iter() {
        hold_entry(flows, &at.entry)?;
    }
    Ok(())
}
