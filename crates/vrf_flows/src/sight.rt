//! What flows are recomputed from.
ghost use Rattle.std.specs.Prelude.{◌≡◌, ◌<◌, ℕ, false, IfOk};
ghost use Rattle.mv_base.specs.declared.ids.NodeId.{NodeId};
ghost use Rattle.umh_select.specs.Routes.{AreCosts, AreOfCore};
ghost use Rattle.vrf_words.specs.tree_defs.Flows.{chosen_for};
ghost use Rattle.vrf_flows.specs.Sight.{IsUnasked, asking_marked, asking_of, is_joined, is_marked, is_needed, is_sent, mark_named, marks_of, seen};

use crate::held::Kept;
use core_paths::Core;
use indexmap::IndexSet;
use mv_base::{IfaceId, NoMemory, NodeId, Seq};
use pim_state::Downstream;
use scenario_defs::{IfaceEntry, JoinEntry};
use std::alloc::Global;
use umh_select::{Choice, Umh};
use vrf_words::tree_defs::{Flow, SiteIface};

/// Entries, flows that are known to be sent, and routes, at a clock and in the core as the edge knows it.
#[derive(Clone, Copy)]
pub(crate) struct Sight<'a> {
    pub ifaces: &'a [SiteIface],
    pub entries: &'a Downstream,
    pub sent: &'a IndexSet<Flow>,
    pub routes: &'a Umh,
    pub clock: u64,
    pub me: NodeId,
    pub core: &'a Core,
}

/// How many marks there are: one for each remainder of the numbers of interfaces.
const MARKS: usize = 256;

/// The marks, and one for the interface of each of these entries.
fn mark_named(marks: [bool; MARKS], listed: &[IfaceEntry]) -> [bool; MARKS]
    ensures { result ≡ mark_named marks listed.now }
{
    let mut marks = marks;
    for own in listed {
        marks[usize::from(own.iface.0) % MARKS] = true;
    }
    marks
}

/// A mark for the interface of each of these entries.
fn marks_of(joined: &[IfaceEntry], shared: &[IfaceEntry]) -> [bool; MARKS]
    ensures { result ≡ marks_of joined.now shared.now }
{
    mark_named(mark_named([false; MARKS], joined), shared)
}

/// Whether the interface has a mark. Most of those without an entry have none.
fn is_marked(marks: &[bool; MARKS], iface: IfaceId) -> bool
    ensures { result ≡ is_marked marks.now iface }
{
    marks[usize::from(iface.0) % MARKS]
}

/// Those of the interfaces that have a mark and ask for the flow, in their order.
fn asking_marked(
    alloc: Global,
    sight: &Sight<'_>,
    flow: Flow,
    active: bool,
    marks: &[bool; MARKS],
) -> Result<Seq<SiteIface>, NoMemory>
    ensures { IfOk result (λ found.
        found ≡ asking_marked marks.now sight.now.ifaces.now sight.now.entries.now active sight.now.clock flow) }
{
    let mut found = Seq::new(alloc);
    let ifaces = sight.ifaces;
    for own in ifaces {
        if is_marked(marks, own.iface)
            && sight
                .entries
                .asks(own.iface, flow.source, flow.group, active, sight.clock)
        {
            found.push(*own)?;
        }
    }
    Ok(found)
}

/// Those of the interfaces that ask for the flow, in their order. Only those with a mark are looked up among the entries.
fn asking(
    alloc: Global,
    sight: &Sight<'_>,
    flow: Flow,
    active: bool,
) -> Result<Seq<SiteIface>, NoMemory>
    ensures { IfOk result (λ found. found ≡ asking_of sight.now.ifaces.now sight.now.entries.now active sight.now.clock flow) }
{
    let joined = sight.entries.listed(&JoinEntry::Source {
        source: flow.source,
        group: flow.group,
    });
    let shared = sight.entries.listed(&JoinEntry::Star { group: flow.group });
    if joined.is_empty() && shared.is_empty() {
        return Ok(Seq::new(alloc));
    }
    asking_marked(alloc, sight, flow, active, &marks_of(joined, shared))
}

/// Whether an entry may join the flow: one of its own, or one of its group. Without any, no interface asks for it, at any clock.
pub(crate) fn may_be_asked(entries: &Downstream, flow: Flow) -> bool
    ensures { result ≡ false → IsUnasked entries.now flow }
{
    let joined = entries.listed(&JoinEntry::Source {
        source: flow.source,
        group: flow.group,
    });
    let shared = entries.listed(&JoinEntry::Star { group: flow.group });
    !joined.is_empty() || !shared.is_empty()
}

/// Whether one of the interfaces has an entry that joins the flow itself.
fn is_joined(sight: &Sight<'_>, flow: Flow) -> bool
    ensures { result ≡ is_joined sight.now.ifaces.now sight.now.entries.now flow }
{
    let entry = JoinEntry::Source {
        source: flow.source,
        group: flow.group,
    };
    sight
        .ifaces
        .iter()
        .any(|own| sight.entries.has(own.iface, entry))
}

/// Whether the VRF may ask for the flow, at this clock or another.
pub(crate) fn is_needed(sight: &Sight<'_>, flow: Flow) -> bool
    ensures { result ≡ is_needed sight.now.ifaces.now sight.now.entries.now sight.now.sent.now.keys flow }
{
    is_joined(sight, flow) || sight.sent.contains(&flow)
}

/// The upstream that is chosen for the flow.
fn choice_of(sight: &Sight<'_>, flow: Flow) -> Choice
    requires me { sight.now.me.0 < sight.now.core.now.nodes }
    requires peers { AreOfCore sight.now.core.now.nodes sight.now.routes.now.learned }
    ensures { (cost : NodeId → ℕ) → AreCosts sight.now.core.now sight.now.me cost → result ≡ chosen_for sight.now.routes.now cost flow }
{
    sight
        .routes
        .choose(flow.source, flow.group, sight.me, sight.core)
}

/// The flow, where it is one of the VRF: where some interface asks for it. An upstream is chosen for none else.
pub(crate) fn flow_at(
    alloc: Global,
    sight: &Sight<'_>,
    flow: Flow,
) -> Result<Option<Kept>, NoMemory>
    requires me { sight.now.me.0 < sight.now.core.now.nodes }
    requires peers { AreOfCore sight.now.core.now.nodes sight.now.routes.now.learned }
    ensures { (cost : NodeId → ℕ) → AreCosts sight.now.core.now sight.now.me cost → IfOk result (λ now. now ≡ seen sight.now cost flow) }
{
    let ifaces = asking_now(alloc, sight, flow)?;
    if ifaces.is_empty() {
        return Ok(None);
    }
    let choice = choice_of(sight, flow);
    Ok(Some(Kept { choice, ifaces }))
}

/// Those of the interfaces that ask for the flow, in their order.
pub(crate) fn asking_now(
    alloc: Global,
    sight: &Sight<'_>,
    flow: Flow,
) -> Result<Seq<SiteIface>, NoMemory>
    ensures { IfOk result (λ found. found
        ≡ asking_of sight.now.ifaces.now sight.now.entries.now (is_sent sight.now.sent.now.keys flow) sight.now.clock flow) }
{
    asking(alloc, sight, flow, sight.sent.contains(&flow))
}
