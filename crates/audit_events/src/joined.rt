//! Joined state and notes of all interfaces, kept event by event. Nothing is removed: an entry that has ended is told by the clock,
//! one that a restart or a join (*,G) ended by the number of the event that set it.
ghost use Rattle.std.specs.Prelude.{◌≡◌, ◌<◌, ◌+◌, ◌++◌, ◌^◌, ◌&&◌, slice_set, if◌then◌else◌, Some, IfOk, OnOk};
ghost use Rattle.std.specs.List.{list_any};
ghost use Rattle.indexmap.specs.IndexMap.{get};
ghost use Rattle.audit_defs.specs.scenario_defs.declared.event.IfaceEntry.{IfaceEntry};
ghost use Rattle.audit_defs.specs.scenario_defs.declared.event.Event.TheVariants as events;
ghost use Rattle.audit_defs.specs.scenario_defs.declared.event.JoinEntry.TheVariants as entries;
ghost use Rattle.pim_defs.specs.Entries.{named_in};
ghost use Rattle.pim_defs.specs.Asking.{asks_by};
ghost use Rattle.audit_defs.specs.mvpn_model.Past.{ticks_of};
ghost use Rattle.pim_state.specs.Plan.{is_at};
ghost use Rattle.audit_events.specs.Joined.{last_in, restarted, since_of, named_of_group, joins_shared};
ghost use Rattle.audit_events.specs.Joined.{is_set_at, set_by, set_once, IsFresh};
ghost use Rattle.audit_events.specs.Joined.{at_iface, entry_now, note_now, kept_of, IsEmpty, TakesMessage, SetsNote, GoesOn, TakesGiven, Steps};

use audit_defs::of_mv_base::{Addr, IfaceId, NoMemory, Seq};
use audit_defs::of_mvpn_model::{Given, customer_message};
use audit_defs::of_scenario_defs::{
    CustomerEvent, Event, IfaceEntry, JoinEntry, Scenario, edge_of,
};
use indexmap::IndexMap;
use pim_defs::of_pim_joinprune::{JoinPrune, JpSource};
use pim_defs::{Expiry, asks_by, entry_of, expiry_after, mention_of};
use std::alloc::Global;

/// What an event made of an entry or a note: when it ends, `None` where it is not there; and the number of that event.
#[derive(Clone, Copy, PartialEq, Eq)]
pub(crate) struct Held {
    pub expiry: Option<Expiry>,
    pub set: usize,
}

pub(crate) type HeldEntries = IndexMap<IfaceEntry, Held>;

/// The numbers of events, by the (*,G) of an interface.
pub(crate) type Stamps = IndexMap<IfaceEntry, usize>;

/// What is held, unless it was set before the event of that number.
fn last_in(held: Option<Held>, since: usize) -> Option<Expiry>
    ensures { result ≡ last_in held since }
{
    match held {
        Some(held) if since <= held.set => held.expiry,
        _ => None,
    }
}

/// The number from which on events count at the interface: that after the last restart of its edge.
fn restarted(scenario: &Scenario, restarts: &[usize], iface: IfaceId) -> usize
    ensures { result ≡ restarted scenario.now restarts.now iface }
{
    match edge_of(scenario, iface) {
        Some(edge) => restarts.get(usize::from(edge.0)).copied().unwrap_or(0),
        None => 0,
    }
}

/// The number from which on events count for the entry: an (S,G,rpt) prune ends also where (*,G) is joined.
fn since_of(scenario: &Scenario, restarts: &[usize], shared: &Stamps, at: &IfaceEntry) -> usize
    ensures { result ≡ since_of scenario.now restarts.now shared.now at.now }
{
    let edge = restarted(scenario, restarts, at.iface);
    match at.entry {
        JoinEntry::Rpt { source: _, group } => {
            let star = IfaceEntry {
                iface: at.iface,
                entry: JoinEntry::Star { group },
            };
            edge.max(shared.get(&star).copied().unwrap_or(0))
        }
        _ => edge,
    }
}

/// Adds the entries that sources of a group name.
fn add_named(
    named: &mut Seq<IfaceEntry>,
    iface: IfaceId,
    group: Addr,
    sources: &[JpSource],
) -> Result<(), NoMemory>
    ensures { OnOk result (named.new ≡ named.old ++ named_of_group iface group sources.now) }
{
    for source in sources {
        named.push(IfaceEntry {
            iface,
            entry: entry_of(group, source),
        })?;
    }
    Ok(())
}

/// The entries of the interface that the message names.
fn named(alloc: Global, iface: IfaceId, message: &JoinPrune) -> Result<Seq<IfaceEntry>, NoMemory>
    ensures { IfOk result (λ all. all ≡ named_in iface message.now) }
{
    let mut all = Seq::new(alloc);
    let groups = message.groups.as_slice();
    for group in groups {
        add_named(&mut all, iface, group.group, group.joins.as_slice())?;
        add_named(&mut all, iface, group.group, group.prunes.as_slice())?;
    }
    Ok(all)
}

fn is_set_at(held: Option<Held>, now: usize) -> bool
    ensures { result ≡ is_set_at now held }
{
    match held {
        Some(held) => held.set == now,
        None => false,
    }
}

/// A message that an interface takes at the clock, in the event of that number.
#[derive(Clone, Copy)]
pub(crate) struct Taking<'a> {
    pub message: &'a JoinPrune,
    pub clock: u64,
    /// The number of the event.
    pub event: usize,
}

/// Sets an entry that the message names, unless the message has set it before.
fn set_one(
    entries: &mut HeldEntries,
    taking: &Taking<'_>,
    since: usize,
    at: &IfaceEntry,
) -> Result<(), NoMemory>
    requires { taking.now.clock < 2 ^ 63 }
    ensures { (other : IfaceEntry) → OnOk result (get is_at entries.new other ≡
        (if is_at other at.now
        then set_once taking.now.message.now taking.now.clock taking.now.event since at.now (get is_at entries.old at.now)
        else get is_at entries.old other)) }
{
    let old = entries.get(at).copied();
    if is_set_at(old, taking.event) {
        return Ok(());
    }
    let expiry = expiry_after(
        &at.entry,
        mention_of(taking.message, &at.entry),
        taking.clock,
        taking.message.holdtime,
        last_in(old, since),
    );
    entries.insert(
        *at,
        Held {
            expiry,
            set: taking.event,
        },
    )?;
    Ok(())
}

/// Sets the entries that the message names.
fn set_all(
    entries: &mut HeldEntries,
    scenario: &Scenario,
    restarts: &[usize],
    shared: &Stamps,
    taking: &Taking<'_>,
    named: &[IfaceEntry],
) -> Result<(), NoMemory>
    requires clock { taking.now.clock < 2 ^ 63 }
    requires fresh { IsFresh taking.now.event entries.old }
    ensures { (at : IfaceEntry) → OnOk result (get is_at entries.new at ≡
        (if list_any (is_at at) named.now
        then Some (set_by taking.now.message.now taking.now.clock taking.now.event
        (since_of scenario.now restarts.now shared.now at) at (get is_at entries.old at))
        else get is_at entries.old at)) }
{
    for at in named {
        let since = since_of(scenario, restarts, shared, at);
        set_one(entries, taking, since, at)?;
    }
    Ok(())
}

/// Whether the message joins the entry, which is a join (*,G).
fn joins_shared(message: &JoinPrune, at: &IfaceEntry) -> bool
    ensures { result ≡ joins_shared message.now at.now }
{
    match at.entry {
        JoinEntry::Star { group: _ } => mention_of(message, &at.entry).joined,
        _ => false,
    }
}

/// Notes the event for an entry, where the message joins it and it is a join (*,G).
fn share_one(shared: &mut Stamps, taking: &Taking<'_>, at: &IfaceEntry) -> Result<(), NoMemory>
    ensures { (other : IfaceEntry) → OnOk result (get is_at shared.new other ≡
        (if is_at other at.now && joins_shared taking.now.message.now at.now then Some taking.now.event else get is_at shared.old other)) }
{
    if joins_shared(taking.message, at) {
        shared.insert(*at, taking.event)?;
    }
    Ok(())
}

/// Notes the event for each join (*,G) of the message.
fn share_all(shared: &mut Stamps, taking: &Taking<'_>, named: &[IfaceEntry]) -> Result<(), NoMemory>
    ensures { (at : IfaceEntry) → OnOk result (get is_at shared.new at ≡
        (if list_any (is_at at) named.now && joins_shared taking.now.message.now at
        then Some taking.now.event
        else get is_at shared.old at)) }
{
    for at in named {
        share_one(shared, taking, at)?;
    }
    Ok(())
}

/// Joined state and notes of all interfaces.
#[derive(Drop)]
pub(crate) struct Joined {
    alloc: Global,
    clock: u64,
    /// How many events there were.
    count: usize,
    entries: HeldEntries,
    shared: Stamps,
    notes: HeldEntries,
    /// By nodes: how many events there were up to the last restart.
    restarts: Vec<usize>,
}

impl Joined {
    /// Nothing is held. It takes no memory but for the restarts.
    pub(crate) fn of(alloc: Global, nodes: usize) -> Result<Joined, NoMemory>
        ensures { IfOk result (λ joined. IsEmpty nodes (kept_of joined)) }
    {
        let mut restarts = Vec::new(alloc);
        for _node in 0..nodes {
            restarts.push(0)?;
        }
        Ok(Joined {
            alloc,
            clock: 0,
            count: 0,
            entries: IndexMap::new(alloc),
            shared: IndexMap::new(alloc),
            notes: IndexMap::new(alloc),
            restarts,
        })
    }

    /// Takes a message.
    fn take(&mut self, scenario: &Scenario, given: &Given) -> Result<(), NoMemory>
        requires clock { self.old.clock < 2 ^ 63 }
        requires room { self.old.count < 2 ^ 63 }
        requires fresh { IsFresh self.old.count self.old.entries }
        ensures { OnOk result (TakesMessage scenario.now given.now.iface given.now.message (kept_of self.old) (kept_of self.new)) }
    {
        let taking = Taking {
            message: &given.message,
            clock: self.clock,
            event: self.count,
        };
        let all = named(self.alloc, given.iface, &given.message)?;
        let named = all.as_slice();
        set_all(
            &mut self.entries,
            scenario,
            &self.restarts,
            &self.shared,
            &taking,
            named,
        )?;
        share_all(&mut self.shared, &taking, named)?;
        self.count += 1;
        Ok(())
    }

    /// Sets or ends a note.
    fn note(
        &mut self,
        iface: IfaceId,
        entry: JoinEntry,
        expiry: Option<Expiry>,
    ) -> Result<(), NoMemory>
        requires room { self.old.count < 2 ^ 63 }
        ensures { OnOk result (SetsNote (at_iface iface entry) expiry (kept_of self.old) (kept_of self.new)) }
    {
        let set = self.count;
        self.notes
            .insert(IfaceEntry { iface, entry }, Held { expiry, set })?;
        self.count += 1;
        Ok(())
    }

    /// The clock goes on.
    fn go_on(&mut self, ticks: u64)
        requires clock { self.old.clock + ticks < 2 ^ 63 }
        requires room { self.old.count < 2 ^ 63 }
        ensures { GoesOn ticks self.old.restarts.items (kept_of self.old) (kept_of self.new) }
    {
        self.clock += ticks;
        self.count += 1;
    }

    /// A node restarts.
    fn restart(&mut self, node: usize)
        requires room { self.old.count < 2 ^ 63 }
        ensures { GoesOn 0 (slice_set self.old.restarts.items node (self.old.count + 1)) (kept_of self.old) (kept_of self.new) }
    {
        self.count += 1;
        if let Some(stamp) = self.restarts.get_mut(node) {
            *stamp = self.count;
        }
    }

    /// Takes the message that an event gives, if it gives one.
    fn take_given(&mut self, scenario: &Scenario, given: &Option<Given>) -> Result<(), NoMemory>
        requires clock { self.old.clock < 2 ^ 63 }
        requires room { self.old.count < 2 ^ 63 }
        requires fresh { IsFresh self.old.count self.old.entries }
        ensures { OnOk result (TakesGiven scenario.now given.now (kept_of self.old) (kept_of self.new)) }
    {
        match given {
            Some(given) => self.take(scenario, given),
            None => {
                self.go_on(0);
                Ok(())
            }
        }
    }

    /// What an accepted event of a customer makes of it.
    fn customer(&mut self, scenario: &Scenario, event: &CustomerEvent) -> Result<(), NoMemory>
        requires clock { self.old.clock < 2 ^ 63 }
        requires room { self.old.count < 2 ^ 63 }
        requires fresh { IsFresh self.old.count self.old.entries }
        ensures { OnOk result (Steps scenario.now (events.Customer event.now) (kept_of self.old) (kept_of self.new)) }
    {
        match event {
            CustomerEvent::Active {
                iface,
                source,
                group,
            } => self.note(*iface, flow(*source, *group), Some(Expiry::Never)),
            CustomerEvent::Idle {
                iface,
                source,
                group,
            } => self.note(*iface, flow(*source, *group), None),
            _ => {
                let given = customer_message(self.alloc, scenario, event)?;
                self.take_given(scenario, &given)
            }
        }
    }

    /// What an accepted event makes of it.
    pub(crate) fn step(&mut self, scenario: &Scenario, event: &Event) -> Result<(), NoMemory>
        requires clock { self.old.clock + ticks_of event.now < 2 ^ 63 }
        requires room { self.old.count < 2 ^ 63 }
        requires fresh { IsFresh self.old.count self.old.entries }
        ensures { OnOk result (Steps scenario.now event.now (kept_of self.old) (kept_of self.new)) }
    {
        match event {
            Event::Tick { count } => {
                self.go_on(*count);
                Ok(())
            }
            Event::Restart { node } => {
                self.restart(usize::from(node.0));
                Ok(())
            }
            Event::Customer(event) => self.customer(scenario, event),
            _ => {
                self.go_on(0);
                Ok(())
            }
        }
    }

    /// The expiry of an entry of the interface, where it is there.
    fn entry_now(&self, scenario: &Scenario, iface: IfaceId, entry: JoinEntry) -> Option<Expiry>
        ensures { result ≡ entry_now scenario.now (kept_of self.now) iface entry }
    {
        let at = IfaceEntry { iface, entry };
        let since = since_of(scenario, &self.restarts, &self.shared, &at);
        last_in(self.entries.get(&at).copied(), since)
    }

    /// Whether S is noted at the interface as a sender to G.
    pub(crate) fn is_noted(
        &self,
        scenario: &Scenario,
        iface: IfaceId,
        source: Addr,
        group: Addr,
    ) -> bool
        ensures { result ≡ note_now scenario.now (kept_of self.now) iface source group }
    {
        let entry = flow(source, group);
        let since = restarted(scenario, &self.restarts, iface);
        last_in(self.notes.get(&IfaceEntry { iface, entry }).copied(), since).is_some()
    }

    /// Whether the interface asks for (S,G), where S is known to send to G or not.
    pub(crate) fn asks(
        &self,
        scenario: &Scenario,
        iface: IfaceId,
        source: Addr,
        group: Addr,
        active: bool,
    ) -> bool
        ensures { result ≡ asks_by self.now.clock active (entry_now scenario.now (kept_of self.now) iface (entries.Source source group))
            (entry_now scenario.now (kept_of self.now) iface (entries.Star group))
            (entry_now scenario.now (kept_of self.now) iface (entries.Rpt source group)) }
    {
        asks_by(
            self.clock,
            active,
            self.entry_now(scenario, iface, JoinEntry::Source { source, group }),
            self.entry_now(scenario, iface, JoinEntry::Star { group }),
            self.entry_now(scenario, iface, JoinEntry::Rpt { source, group }),
        )
    }
}

/// A flow, as an entry.
fn flow(source: Addr, group: Addr) -> JoinEntry
    ensures { result ≡ JoinEntry.Source source group }
{
    JoinEntry::Source { source, group }
}
