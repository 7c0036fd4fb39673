//! What a VRF keeps, with its flows as the last refresh left them.
ghost use Rattle.std.specs.Prelude.{◌≡◌, ◌<◌, ◌≤◌, ◌&&◌, ◌||◌, ◌++◌, [], ◌∷◌, ℕ, filter, map, min, true, false, if◌then◌else◌};
ghost use Rattle.std.specs.Prelude.{is_some, Some, IfOk, IfSome, OnOk, OnErr};
ghost use Rattle.std.specs.FinMap as maps;
ghost use Rattle.std.specs.FinSet as sets;
ghost use Rattle.std.specs.List.{list_any};
ghost use Rattle.indexmap.specs.IndexMap.{get, IsUnique};
ghost use Rattle.indexmap.specs.IndexSet.{spare};
ghost use Rattle.mv_base.specs.declared.ids.NodeId.{NodeId};
ghost use Rattle.pim_defs.specs.Entries.{kept_at};
ghost use Rattle.umh_select.specs.Routes.{AreCosts, AreOfCore, held_of, key_from, key_here, without_peer};
ghost use Rattle.vrf_words.specs.declared.tree_defs.flow.Flow.{Flow};
ghost use Rattle.vrf_words.specs.tree_defs.Keys.{same_flow};
ghost use Rattle.vrf_words.specs.tree_defs.Flows.{asking, chosen_for, flow_of, gained, lost, is_from, is_noted, is_outside, outgoing, upstream_of};
ghost use Rattle.vrf_flows.specs.Held.{lapsed, marked};
ghost use Rattle.vrf_flows.specs.Plan.{choice_in};
ghost use Rattle.vrf_flows.specs.Sight.{ifaces_of, is_sent};
ghost use Rattle.vrf_flows.specs.State.{IsSound, iface_in, no_vrf, compares_costs};
ghost use Rattle.vrf_flows.specs.State.{given_at, is_announced_in, is_noted_in, needed_in, vrf_of};

use crate::held::{Cause, Held, Kept, hold_entries, hold_sent};
use crate::marks::{mark, mark_between, mark_ended, mark_peer};
use crate::plan::{Joins, joined_before, joins_of, leaves_of, plan, settle};
use crate::sight::{Sight, asking_now, may_be_asked};
use crate::table::FlowTable;
use core_paths::Core;
use indexmap::IndexSet;
use mv_base::{IfaceId, NoMemory, NodeId, Prefix, Rd, Rule, Seq, SiteId};
use pim_state::Downstream;
use scenario_defs::IfaceList;
use std::alloc::Global;
use umh_select::{Choice, Learned, Umh};
use vrf_words::tree_defs::{ActiveRoute, Flow, Note, Origin, SiteIface, Upstream};

/// What changed since the last refresh: the flows that are joined at another edge, and those that were and are left.
#[derive(Drop)]
pub struct FlowChanges {
    pub joins: Joins,
    pub leaves: Joins,
}

#[derive(Drop)]
pub(crate) struct State {
    alloc: Global,
    rule: Rule,
    ifaces: Seq<SiteIface>,
    pub(crate) entries: Downstream,
    notes: IndexSet<Note>,
    actives: IndexSet<ActiveRoute>,
    /// The flows of the notes and of the Source Active routes.
    sent: IndexSet<Flow>,
    routes: Umh,
    pub(crate) flows: FlowTable,
    /// The clock of the last refresh.
    clock: u64,
}

/// Whether one of the notes is of the flow.
fn is_noted(notes: &[Note], flow: Flow) -> bool
    ensures { result ≡ is_noted_in notes.now flow }
{
    notes.iter().any(|note| note.flow == flow)
}

/// Whether one of the routes is of the flow.
fn is_announced(actives: &[ActiveRoute], flow: Flow) -> bool
    ensures { result ≡ is_announced_in actives.now flow }
{
    actives.iter().any(|route| route.flow == flow)
}

/// Marks the flow, where an entry may join it.
fn mark_asked(flows: &mut FlowTable, flow: Flow, asked: bool)
    requires unique { IsUnique same_flow flows.old }
    ensures each { (q : Flow) → get same_flow flows.new q ≡ marked (asked && same_flow flow q) (get same_flow flows.old q) }
    ensures unique { IsUnique same_flow flows.new }
{
    if asked {
        mark(flows, &Cause::Flow(flow));
    }
}

/// The flow is known to be sent from now on. There is room for it. It may be another one by that where an entry may join it.
fn send(flows: &mut FlowTable, sent: &mut IndexSet<Flow>, flow: Flow, asked: bool)
    requires room { 1 ≤ spare sent.old }
    requires unique { IsUnique same_flow flows.old }
    ensures sent { (q : Flow) → is_sent sent.new.keys q ≡ (if same_flow flow q then true else is_sent sent.old.keys q) }
    ensures each { (q : Flow) → get same_flow flows.new q ≡ marked (asked && same_flow flow q) (get same_flow flows.old q) }
    ensures unique { IsUnique same_flow flows.new }
{
    sent.insert(flow).unwrap();
    mark_asked(flows, flow, asked);
}

/// The flow is known to be sent no more, where nothing else tells it.
fn unsend(flows: &mut FlowTable, sent: &mut IndexSet<Flow>, flow: Flow, asked: bool, told: bool)
    requires unique { IsUnique same_flow flows.old }
    ensures sent { (q : Flow) → is_sent sent.new.keys q
        ≡ (if told then is_sent sent.old.keys q else if same_flow flow q then false else is_sent sent.old.keys q) }
    ensures each { (q : Flow) → get same_flow flows.new q ≡ marked (asked && same_flow flow q) (get same_flow flows.old q) }
    ensures unique { IsUnique same_flow flows.new }
{
    mark_asked(flows, flow, asked);
    if !told {
        sent.swap_remove(&flow);
    }
}

/// Whether the rule compares costs.
fn compares_costs(rule: Rule) -> bool
    ensures { result ≡ compares_costs rule }
{
    matches!(rule, Rule::Nearest)
}

/// Marks all flows, where the rule compares costs: the core is not what it was.
fn mark_costs(flows: &mut FlowTable, rule: Rule)
    requires unique { IsUnique same_flow flows.old }
    ensures each { (q : Flow) → get same_flow flows.new q ≡ marked (compares_costs rule) (get same_flow flows.old q) }
    ensures unique { IsUnique same_flow flows.new }
{
    if let Rule::Nearest = rule {
        mark(flows, &Cause::All);
    }
}

/// The interfaces of a flow; none where it is none of the VRF.
fn ifaces_of(kept: &Option<Kept>) -> &[SiteIface]
    ensures { result.now ≡ ifaces_of kept.now }
{
    match kept {
        Some(kept) => kept.ifaces.as_slice(),
        None => &[],
    }
}

/// Whether the choice is where a datagram comes from.
fn is_from(from: Origin, choice: Choice) -> bool
    ensures { result ≡ is_from from choice }
{
    match (from, choice) {
        (Origin::Site(site), Choice::Local(own)) => own.0 == site.0,
        (
            Origin::Edge(edge),
            Choice::Remote {
                edge: own,
                rd: _,
                import: _,
                source_as: _,
            },
        ) => own.0 == edge.0,
        _ => false,
    }
}

/// The upstream of a flow that is held, where it is a flow of the VRF and not stale.
fn fresh_choice(held: &Held) -> Option<Choice>
    ensures { IfSome result (λ choice. (held.now.stale ≡ false) × (choice_in held.now.kept ≡ Some choice)) }
{
    match &held.kept {
        Some(kept) if !held.stale => Some(kept.choice),
        _ => None,
    }
}

/// Whether the interface is of no site that a datagram comes from.
fn is_outside(from: Origin, own: &SiteIface) -> bool
    ensures { result ≡ is_outside from own.now }
{
    match from {
        Origin::Site(site) => own.site.0 != site.0,
        Origin::Edge(_) => true,
    }
}

/// Those of the interfaces at which a datagram leaves.
fn leaving(alloc: Global, ifaces: &[SiteIface], from: Origin) -> Result<IfaceList, NoMemory>
    ensures { IfOk result (λ outs. outs ≡ map iface_in (filter (is_outside from) ifaces.now)) }
{
    let mut outs = Seq::new(alloc);
    for own in ifaces {
        if is_outside(from, own) {
            outs.push(own.iface)?;
        }
    }
    Ok(outs)
}

impl State {
    pub(crate) fn of(alloc: Global, rule: Rule) -> State
        ensures sound { IsSound result }
        ensures vrf { vrf_of result ≡ no_vrf rule }
    {
        State {
            alloc,
            rule,
            ifaces: Seq::new(alloc),
            entries: Downstream::of(alloc),
            notes: IndexSet::new(alloc),
            actives: IndexSet::new(alloc),
            sent: IndexSet::new(alloc),
            routes: Umh::of(alloc, rule),
            flows: FlowTable::of(alloc),
            clock: 0,
        }
    }

    pub(crate) fn add_iface(&mut self, iface: IfaceId, site: SiteId) -> Result<(), NoMemory>
        requires sound { IsSound self.old }
        ensures sound { IsSound self.new }
        ensures added { OnOk result (vrf_of self.new
            ≡ record (vrf_of self.old) { ifaces = self.old.ifaces ++ record { iface = iface; site = site } ∷ [] }) }
        ensures unchanged { OnErr result (vrf_of self.new ≡ vrf_of self.old) }
    {
        hold_entries(&mut self.flows, self.entries.expiries())?;
        self.ifaces.push(SiteIface { iface, site })?;
        mark(&mut self.flows, &Cause::All);
        Ok(())
    }

    pub(crate) fn pim_timers(&mut self, now: u64)
        requires sound { IsSound self.old }
        ensures sound { IsSound self.new }
        ensures kept { vrf_of self.new ≡ record (vrf_of self.old) { entries = kept_at self.old.entries now } }
    {
        if self.entries.none_ends(now) {
            return;
        }
        mark_ended(&mut self.flows, self.entries.expiries(), now);
        self.entries.timers(now);
    }

    pub(crate) fn note(&mut self, note: Note) -> Result<(), NoMemory>
        requires sound { IsSound self.old }
        ensures sound { IsSound self.new }
        ensures noted { OnOk result (vrf_of self.new
            ≡ record (vrf_of self.old) { notes = sets.insert (sets.from_list self.old.notes.keys) note }) }
        ensures unchanged { OnErr result (vrf_of self.new ≡ vrf_of self.old) }
    {
        let asked = may_be_asked(&self.entries, note.flow);
        hold_sent(&mut self.flows, note.flow, asked)?;
        self.sent.reserve(1)?;
        self.notes.insert(note)?;
        send(&mut self.flows, &mut self.sent, note.flow, asked);
        Ok(())
    }

    pub(crate) fn unnote(&mut self, note: Note)
        requires sound { IsSound self.old }
        ensures sound { IsSound self.new }
        ensures unnoted { vrf_of self.new ≡ record (vrf_of self.old) { notes = sets.remove (sets.from_list self.old.notes.keys) note } }
    {
        self.notes.swap_remove(&note);
        let told = self.is_told(note.flow);
        let asked = may_be_asked(&self.entries, note.flow);
        unsend(&mut self.flows, &mut self.sent, note.flow, asked, told);
    }

    /// Whether a note or a Source Active route is of the flow.
    fn is_told(&self, flow: Flow) -> bool
        ensures { result ≡ (is_noted_in self.now.notes.keys flow || is_announced_in self.now.actives.keys flow) }
    {
        is_noted(self.notes.as_slice(), flow) || is_announced(self.actives.as_slice(), flow)
    }

    pub(crate) fn noted(&self, note: &Note) -> bool
        ensures { result ≡ sets.contains (vrf_of self.now).notes note.now }
    {
        self.notes.contains(note)
    }

    pub(crate) fn count_notes(&self) -> u32
        ensures { result ≡ min (sets.len (vrf_of self.now).notes) 4294967295 }
    {
        self.notes.len().min(0xFFFF_FFFF) as u32
    }

    pub(crate) fn is_noted(&self, flow: Flow) -> bool
        ensures { result ≡ is_noted (vrf_of self.now).notes flow }
    {
        is_noted(self.notes.as_slice(), flow)
    }

    pub(crate) fn learn_active(&mut self, route: ActiveRoute) -> Result<(), NoMemory>
        requires sound { IsSound self.old }
        ensures sound { IsSound self.new }
        ensures learned { OnOk result (vrf_of self.new
            ≡ record (vrf_of self.old) { actives = sets.insert (sets.from_list self.old.actives.keys) route }) }
        ensures unchanged { OnErr result (vrf_of self.new ≡ vrf_of self.old) }
    {
        let asked = may_be_asked(&self.entries, route.flow);
        hold_sent(&mut self.flows, route.flow, asked)?;
        self.sent.reserve(1)?;
        self.actives.insert(route)?;
        send(&mut self.flows, &mut self.sent, route.flow, asked);
        Ok(())
    }

    pub(crate) fn forget_active(&mut self, route: ActiveRoute)
        requires sound { IsSound self.old }
        ensures sound { IsSound self.new }
        ensures forgotten { vrf_of self.new
            ≡ record (vrf_of self.old) { actives = sets.remove (sets.from_list self.old.actives.keys) route } }
    {
        self.actives.swap_remove(&route);
        let told = self.is_told(route.flow);
        let asked = may_be_asked(&self.entries, route.flow);
        unsend(&mut self.flows, &mut self.sent, route.flow, asked, told);
    }

    pub(crate) fn umh_learn(&mut self, peer: NodeId, route: Learned) -> Result<(), NoMemory>
        requires sound { IsSound self.old }
        ensures sound { IsSound self.new }
        ensures learned { OnOk result (vrf_of self.new ≡ record (vrf_of self.old) {
          routes = record self.old.routes
              { learned = maps.insert self.old.routes.learned (key_from peer route.rd route.prefix) (held_of route) };
        }) }
        ensures unchanged { OnErr result (vrf_of self.new ≡ vrf_of self.old) }
    {
        let prefix = route.prefix;
        self.routes.learn(peer, route)?;
        mark(&mut self.flows, &Cause::Prefix(prefix));
        Ok(())
    }

    pub(crate) fn umh_forget(&mut self, peer: NodeId, rd: Rd, prefix: Prefix)
        requires sound { IsSound self.old }
        ensures sound { IsSound self.new }
        ensures forgotten { vrf_of self.new ≡ record (vrf_of self.old) {
          routes = record self.old.routes
              { learned = maps.remove self.old.routes.learned (key_from peer rd prefix) };
        } }
    {
        self.routes.forget(peer, rd, prefix);
        mark(&mut self.flows, &Cause::Prefix(prefix));
    }

    pub(crate) fn umh_forget_peer(&mut self, peer: NodeId)
        requires sound { IsSound self.old }
        ensures sound { IsSound self.new }
        ensures forgotten { vrf_of self.new ≡ record (vrf_of self.old) {
          routes = record self.old.routes
              { learned = without_peer peer self.old.routes.learned };
        } }
    {
        mark_peer(&mut self.flows, self.routes.learned(), peer);
        self.routes.forget_peer(peer);
    }

    pub(crate) fn umh_attach(&mut self, prefix: Prefix, site: SiteId) -> Result<(), NoMemory>
        requires sound { IsSound self.old }
        ensures sound { IsSound self.new }
        ensures attached { OnOk result (vrf_of self.new ≡ record (vrf_of self.old) {
          routes = record self.old.routes
              { attached = maps.insert self.old.routes.attached (key_here prefix) site };
        }) }
        ensures unchanged { OnErr result (vrf_of self.new ≡ vrf_of self.old) }
    {
        self.routes.attach(prefix, site)?;
        mark(&mut self.flows, &Cause::All);
        Ok(())
    }

    /// Whether it is known, without a look at the flows, that each is what it is at the clock: none is held; or no time passed since the
    /// last refresh, no flow is stale, and costs count for none.
    pub(crate) fn is_fresh(&self, now: u64) -> bool
        requires sound { IsSound self.now }
        ensures { result ≡ true → (cost : NodeId → ℕ) (q : Flow) →
            maps.get (vrf_of self.now).flows q ≡ flow_of (vrf_of self.now) cost now q }
    {
        if self.flows.is_empty() {
            return true;
        }
        if now != self.clock {
            return false;
        }
        if compares_costs(self.rule) {
            return false;
        }
        self.flows.all_fresh()
    }

    pub(crate) fn refresh(
        &mut self,
        now: u64,
        me: NodeId,
        core: &Core,
    ) -> Result<FlowChanges, NoMemory>
        requires me { me.0 < core.now.nodes }
        requires peers { AreOfCore core.now.nodes self.old.routes.learned }
        requires sound { IsSound self.old }
        ensures sound { IsSound self.new }
        ensures flows { (cost : NodeId → ℕ) → AreCosts core.now me cost → (q : Flow) →
            OnOk result (maps.get (vrf_of self.new).flows q ≡ flow_of (vrf_of self.old) cost now q) }
        ensures rest { vrf_of self.new ≡ record (vrf_of self.old) { flows = (vrf_of self.new).flows } }
        ensures joins { (cost : NodeId → ℕ) → AreCosts core.now me cost → (q : Flow) → IfOk result (λ changes. get same_flow changes.joins q
            ≡ gained (upstream_of (maps.get (vrf_of self.old).flows q)) (upstream_of (flow_of (vrf_of self.old) cost now q))) }
        ensures leaves { (cost : NodeId → ℕ) → AreCosts core.now me cost → (q : Flow) →
            IfOk result (λ changes. get same_flow changes.leaves q
            ≡ lost (upstream_of (maps.get (vrf_of self.old).flows q)) (upstream_of (flow_of (vrf_of self.old) cost now q))) }
        ensures once { IfOk result (λ changes. (IsUnique same_flow changes.joins) × (IsUnique same_flow changes.leaves)) }
    {
        match self.refreshed(now, me, core) {
            Ok(changes) => Ok(changes),
            Err(fault) => {
                self.flows.forget();
                Err(fault)
            }
        }
    }

    /// The same, but after want of memory nothing is known of the flows that are held but that the needed ones are among them.
    fn refreshed(&mut self, now: u64, me: NodeId, core: &Core) -> Result<FlowChanges, NoMemory>
        requires me { me.0 < core.now.nodes }
        requires peers { AreOfCore core.now.nodes self.old.routes.learned }
        requires sound { IsSound self.old }
        ensures sound { OnOk result (IsSound self.new) }
        ensures flows { (cost : NodeId → ℕ) → AreCosts core.now me cost → (q : Flow) →
            OnOk result (maps.get (vrf_of self.new).flows q ≡ flow_of (vrf_of self.old) cost now q) }
        ensures unique { IsUnique same_flow self.new.flows }
        ensures held { (q : Flow) → needed_in self.old q ≡ true → is_some (get same_flow self.new.flows q) ≡ true }
        ensures rest { self.new ≡ record self.old { flows = self.new.flows; clock = self.new.clock } }
        ensures joins { (cost : NodeId → ℕ) → AreCosts core.now me cost → (q : Flow) → IfOk result (λ changes. get same_flow changes.joins q
            ≡ gained (upstream_of (maps.get (vrf_of self.old).flows q)) (upstream_of (flow_of (vrf_of self.old) cost now q))) }
        ensures leaves { (cost : NodeId → ℕ) → AreCosts core.now me cost → (q : Flow) →
            IfOk result (λ changes. get same_flow changes.leaves q
            ≡ lost (upstream_of (maps.get (vrf_of self.old).flows q)) (upstream_of (flow_of (vrf_of self.old) cost now q))) }
        ensures once { IfOk result (λ changes. (IsUnique same_flow changes.joins) × (IsUnique same_flow changes.leaves)) }
    {
        // The core is asked, so that it is known here that each node is reached.
        let _ = core.nodes();
        mark_costs(&mut self.flows, self.rule);
        mark_between(&mut self.flows, self.entries.expiries(), self.clock, now);
        let sight = Sight {
            ifaces: self.ifaces.as_slice(),
            entries: &self.entries,
            sent: &self.sent,
            routes: &self.routes,
            clock: now,
            me,
            core,
        };
        let plan = plan(self.alloc, &self.flows, &sight)?;
        let joins = joins_of(self.alloc, &self.flows, &plan)?;
        let leaves = leaves_of(self.alloc, &self.flows, &plan)?;
        settle(&mut self.flows, plan, &sight)?;
        self.clock = now;
        Ok(FlowChanges { joins, leaves })
    }

    /// Keeps nothing of what the flows were.
    pub(crate) fn forget_flows(&mut self)
        requires sound { IsSound self.old }
        ensures sound { IsSound self.new }
        ensures forgotten { vrf_of self.new ≡ record (vrf_of self.old) { flows = maps.empty } }
    {
        self.flows.forget();
    }

    /// The upstream of a flow as the last refresh left it, where the flow is not stale and costs count for none.
    fn kept_choice(&self, flow: &Flow) -> Option<Choice>
        requires sound { IsSound self.now }
        ensures { (cost : NodeId → ℕ) → IfSome result (λ choice. choice ≡ chosen_for self.now.routes cost flow.now) }
    {
        if compares_costs(self.rule) {
            return None;
        }
        match self.flows.held().get(flow) {
            None => None,
            Some(held) => fresh_choice(held),
        }
    }

    /// The upstream that is chosen for a flow.
    fn chosen(&self, flow: Flow, me: NodeId, core: &Core) -> Choice
        requires me { me.0 < core.now.nodes }
        requires peers { AreOfCore core.now.nodes self.now.routes.learned }
        requires sound { IsSound self.now }
        ensures { (cost : NodeId → ℕ) → AreCosts core.now me cost → result ≡ chosen_for self.now.routes cost flow }
    {
        match self.kept_choice(&flow) {
            Some(choice) => choice,
            None => self.routes.choose(flow.source, flow.group, me, core),
        }
    }

    /// Whether the flow's upstream is where a datagram comes from.
    pub(crate) fn accepts(&self, flow: Flow, from: Origin, me: NodeId, core: &Core) -> bool
        requires me { me.0 < core.now.nodes }
        requires peers { AreOfCore core.now.nodes self.now.routes.learned }
        requires sound { IsSound self.now }
        ensures { (cost : NodeId → ℕ) → AreCosts core.now me cost → result ≡ is_from from (chosen_for self.now.routes cost flow) }
    {
        is_from(from, self.chosen(flow, me, core))
    }

    /// The edge that was joined for the flow at the last refresh.
    pub(crate) fn upstream(&self, flow: &Flow) -> Option<Upstream>
        requires sound { IsSound self.now }
        ensures { result ≡ upstream_of (maps.get (vrf_of self.now).flows flow.now) }
    {
        joined_before(&self.flows, flow)
    }

    /// The interfaces that are kept for a flow, where it is as the last refresh left it, and that was at the clock.
    fn kept_ifaces(&self, flow: &Flow, now: u64) -> Option<&[SiteIface]>
        requires sound { IsSound self.now }
        ensures { IfSome result (λ ifaces. ifaces.now ≡ asking (vrf_of self.now) now flow.now) }
    {
        if now != self.clock {
            return None;
        }
        match self.flows.held().get(flow) {
            None => Some(&[]),
            Some(held) => {
                if held.stale {
                    None
                } else {
                    Some(ifaces_of(&held.kept))
                }
            }
        }
    }

    /// The interfaces that ask for the flow at the clock, looked up anew.
    fn asking_anew(
        &self,
        alloc: Global,
        flow: Flow,
        now: u64,
        me: NodeId,
        core: &Core,
    ) -> Result<Seq<SiteIface>, NoMemory>
        requires sound { IsSound self.now }
        ensures { IfOk result (λ ifaces. ifaces ≡ asking (vrf_of self.now) now flow) }
    {
        let sight = Sight {
            ifaces: self.ifaces.as_slice(),
            entries: &self.entries,
            sent: &self.sent,
            routes: &self.routes,
            clock: now,
            me,
            core,
        };
        asking_now(alloc, &sight, flow)
    }

    /// The interfaces at which a datagram of a flow leaves.
    fn outgoing_accepted(
        &self,
        alloc: Global,
        flow: Flow,
        from: Origin,
        now: u64,
        me: NodeId,
        core: &Core,
    ) -> Result<IfaceList, NoMemory>
        requires me { me.0 < core.now.nodes }
        requires peers { AreOfCore core.now.nodes self.now.routes.learned }
        requires sound { IsSound self.now }
        ensures { (cost : NodeId → ℕ) → AreCosts core.now me cost →
            IfOk result (λ ifaces. ifaces ≡ outgoing (vrf_of self.now) cost now flow from) }
    {
        if !self.accepts(flow, from, me, core) {
            return Ok(Seq::new(alloc));
        }
        match self.kept_ifaces(&flow, now) {
            Some(ifaces) => leaving(alloc, ifaces, from),
            None => {
                let found = self.asking_anew(alloc, flow, now, me, core)?;
                leaving(alloc, found.as_slice(), from)
            }
        }
    }

    pub(crate) fn outgoing(
        &self,
        alloc: Global,
        flow: Flow,
        from: Origin,
        now: u64,
        me: NodeId,
        core: &Core,
    ) -> Result<IfaceList, NoMemory>
        requires me { me.0 < core.now.nodes }
        requires peers { AreOfCore core.now.nodes self.now.routes.learned }
        requires sound { IsSound self.now }
        ensures { (cost : NodeId → ℕ) → AreCosts core.now me cost →
            IfOk result (λ ifaces. ifaces ≡ outgoing (vrf_of self.now) cost now flow from) }
    {
        // No entry joins a flow that is not held, and it is not known to be sent.
        if !self.flows.holds(&flow) {
            return Ok(Seq::new(alloc));
        }
        self.outgoing_accepted(alloc, flow, from, now, me, core)
    }
}
