//! The flows of a VRF.
ghost use Rattle.std.specs.Prelude.{◌≡◌, ◌<◌, ◌≤◌, ◌^◌, ◌++◌, [], ◌∷◌, ℕ, min, true, false, Err, IfOk, OnOk, OnErr};
ghost use Rattle.std.specs.FinMap as maps;
ghost use Rattle.std.specs.FinSet as sets;
ghost use Rattle.indexmap.specs.IndexMap.{get, IsUnique};
ghost use Rattle.mv_base.specs.declared.ids.NodeId.{NodeId};
ghost use Rattle.pim_defs.specs.Entries.{applied, are_too_many, due, kept_at};
ghost use Rattle.umh_select.specs.Routes.{AreCosts, AreOfCore, held_of, key_from, key_here, without_peer};
ghost use Rattle.vrf_words.specs.declared.tree_defs.flow.Flow.{Flow};
ghost use Rattle.vrf_words.specs.tree_defs.Keys.{same_flow};
ghost use Rattle.vrf_words.specs.tree_defs.Flows.{chosen_for, flow_of, gained, is_from, is_noted, lost, outgoing, upstream_of};
ghost use Rattle.vrf_flows.specs.State.{active_by, flow_by_addrs, no_vrf, note_at};

use crate::held::hold_message;
use crate::marks::mark_message;
use crate::state::{FlowChanges, State};
use core_paths::Core;
use mv_base::{Addr, IfaceId, NoMemory, NodeId, Prefix, Rd, Rule, SiteId};
use pim_joinprune::JoinPrune;
use pim_state::TakeFault;
use scenario_defs::IfaceList;
use std::alloc::Global;
use std::marker::Model;
use umh_select::Learned;
use vrf_words::tree_defs::{ActiveRoute, Flow, Note, Origin, Upstream};

/// What one VRF keeps: its interfaces, their joined and pruned entries, what tells that sources send, and the routes that it
/// knows; with its flows as the last refresh left them, each with its upstream. A refresh looks only at flows that something
/// touched since the last one.
#[derive(Drop)]
pub struct VrfFlows {
    state: State,
}

impl Model for VrfFlows {
    ghost use Rattle.vrf_words.specs.tree_defs.Flows.{VrfData};
    ghost use Rattle.vrf_flows.specs.Codes.{vrf_code};
    ghost use Rattle.vrf_flows.specs.State.{IsSound, vrf_of};

    ghost Value = { VrfData };

    ghost coded = { vrf_code };

    ghost view = { λ f. vrf_of f.state };

    ghost invariant = { λ f. IsSound f.state };
}

impl VrfFlows {
    /// Nothing is kept yet. It takes no memory.
    pub fn of(alloc: Global, rule: Rule) -> VrfFlows
        ensures { result ≡ no_vrf rule }
    {
        VrfFlows {
            state: State::of(alloc, rule),
        }
    }

    /// One more interface, of that site, after those that are there.
    pub fn add_iface(&mut self, iface: IfaceId, site: SiteId) -> Result<(), NoMemory>
        ensures added { OnOk result (self.new
            ≡ record self.old { ifaces = self.old.ifaces ++ record { iface = iface; site = site } ∷ [] }) }
        ensures unchanged { OnErr result (self.new ≡ self.old) }
    {
        self.state.add_iface(iface, site)
    }

    // ---- joined state (RFC 7761 section 4.1)

    /// What stands after a message that the interface takes at the clock. Where that would be more entries than an edge
    /// holds, or there is no memory, nothing changes.
    pub fn pim_take(
        &mut self,
        iface: IfaceId,
        message: &JoinPrune,
        now: u64,
    ) -> Result<(), TakeFault>
        requires { now < 2 ^ 63 }
        ensures taken { OnOk result (self.new ≡ record self.old { entries = applied self.old.entries iface message.now now }) }
        ensures fits { OnOk result (are_too_many (applied self.old.entries iface message.now now) ≡ false) }
        ensures full { result ≡ Err TakeFault.Full → are_too_many (applied self.old.entries iface message.now now) ≡ true }
        ensures unchanged { OnErr result (self.new ≡ self.old) }
    {
        hold_message(&mut self.state.flows, message.groups.as_slice())?;
        self.state.entries.take(iface, message, now)?;
        mark_message(&mut self.state.flows, message.groups.as_slice());
        Ok(())
    }

    /// Removes the entries that have ended at the clock. It takes no memory.
    pub fn pim_timers(&mut self, now: u64)
        ensures { self.new ≡ record self.old { entries = kept_at self.old.entries now } }
    {
        self.state.pim_timers(now);
    }

    /// How many entries would stand after the message.
    pub fn pim_entries_after(
        &self,
        alloc: Global,
        iface: IfaceId,
        message: &JoinPrune,
        now: u64,
    ) -> Result<u32, NoMemory>
        requires { now < 2 ^ 63 }
        ensures { IfOk result (λ count. count ≡ maps.len (applied self.now.entries iface message.now now)) }
    {
        self.state.entries.entries_after(alloc, iface, message, now)
    }

    /// The number of entries. It takes no memory.
    pub fn pim_entries(&self) -> u32
        ensures count { result ≡ maps.len self.now.entries }
        ensures few { result ≤ 1024 }
    {
        self.state.entries.entries()
    }

    /// How many entries end at or before the clock. It takes no memory.
    pub fn pim_due(&self, now: u64) -> u64
        ensures { result ≡ due self.now.entries now }
    {
        self.state.entries.due(now)
    }

    // ---- sources that are known to send

    /// Notes at the interface that the source sends to the group.
    pub fn note(&mut self, iface: IfaceId, source: Addr, group: Addr) -> Result<(), NoMemory>
        ensures noted { OnOk result (self.new ≡ record self.old { notes = sets.insert self.old.notes (note_at iface source group) }) }
        ensures unchanged { OnErr result (self.new ≡ self.old) }
    {
        self.state.note(Note {
            iface,
            flow: Flow { source, group },
        })
    }

    /// The note is there no more. It takes no memory.
    pub fn unnote(&mut self, iface: IfaceId, source: Addr, group: Addr)
        ensures { self.new ≡ record self.old { notes = sets.remove self.old.notes (note_at iface source group) } }
    {
        self.state.unnote(Note {
            iface,
            flow: Flow { source, group },
        });
    }

    /// Whether the note is there. It takes no memory.
    pub fn noted(&self, iface: IfaceId, source: Addr, group: Addr) -> bool
        ensures { result ≡ sets.contains self.now.notes (note_at iface source group) }
    {
        self.state.noted(&Note {
            iface,
            flow: Flow { source, group },
        })
    }

    /// The number of notes, or the greatest number of 32 bits where there are more. It takes no memory.
    pub fn notes(&self) -> u32
        ensures { result ≡ min (sets.len self.now.notes) 4294967295 }
    {
        self.state.count_notes()
    }

    /// Whether some interface has a note for the source and group. It takes no memory.
    pub fn active_here(&self, source: Addr, group: Addr) -> bool
        ensures { result ≡ is_noted self.now.notes (flow_by_addrs source group) }
    {
        self.state.is_noted(Flow { source, group })
    }

    /// Takes a Source Active route of the peer (RFC 6514 section 14).
    pub fn learn_active(
        &mut self,
        peer: NodeId,
        rd: Rd,
        source: Addr,
        group: Addr,
    ) -> Result<(), NoMemory>
        ensures learned { OnOk result (self.new
            ≡ record self.old { actives = sets.insert self.old.actives (active_by peer rd source group) }) }
        ensures unchanged { OnErr result (self.new ≡ self.old) }
    {
        let rd = rd.0;
        self.state.learn_active(ActiveRoute {
            peer,
            rd,
            flow: Flow { source, group },
        })
    }

    /// Forgets the Source Active route of the peer. It takes no memory.
    pub fn forget_active(&mut self, peer: NodeId, rd: Rd, source: Addr, group: Addr)
        ensures { self.new ≡ record self.old { actives = sets.remove self.old.actives (active_by peer rd source group) } }
    {
        let rd = rd.0;
        self.state.forget_active(ActiveRoute {
            peer,
            rd,
            flow: Flow { source, group },
        });
    }

    // ---- unicast routes

    /// The peer's route, in place of what it gave before for that route distinguisher and prefix.
    pub fn umh_learn(&mut self, peer: NodeId, route: Learned) -> Result<(), NoMemory>
        ensures learned { OnOk result (self.new ≡ record self.old {
          routes = record self.old.routes
              { learned = maps.insert self.old.routes.learned (key_from peer route.rd route.prefix) (held_of route) };
        }) }
        ensures unchanged { OnErr result (self.new ≡ self.old) }
    {
        self.state.umh_learn(peer, route)
    }

    /// Forgets the peer's route for that route distinguisher and prefix. It takes no memory.
    pub fn umh_forget(&mut self, peer: NodeId, rd: Rd, prefix: Prefix)
        ensures { self.new ≡ record self.old {
          routes = record self.old.routes
              { learned = maps.remove self.old.routes.learned (key_from peer rd prefix) };
        } }
    {
        self.state.umh_forget(peer, rd, prefix);
    }

    /// Forgets all routes of the peer. It takes no memory.
    pub fn umh_forget_peer(&mut self, peer: NodeId)
        ensures { self.new ≡ record self.old { routes = record self.old.routes { learned = without_peer peer self.old.routes.learned } } }
    {
        self.state.umh_forget_peer(peer);
    }

    /// The prefix is attached with the site.
    pub fn umh_attach(&mut self, prefix: Prefix, site: SiteId) -> Result<(), NoMemory>
        ensures attached { OnOk result (self.new ≡ record self.old {
          routes = record self.old.routes
              { attached = maps.insert self.old.routes.attached (key_here prefix) site };
        }) }
        ensures unchanged { OnErr result (self.new ≡ self.old) }
    {
        self.state.umh_attach(prefix, site)
    }

    // ---- flows

    /// Whether it is known, without a look at the flows, that a refresh at the clock changes none of them. It takes no memory.
    pub fn is_fresh(&self, now: u64) -> bool
        ensures { result ≡ true → (cost : NodeId → ℕ) (q : Flow) → maps.get self.now.flows q ≡ flow_of self.now cost now q }
    {
        self.state.is_fresh(now)
    }

    /// Brings the flows up to date at the clock, in the core as the edge `me` knows it: they are those for which some interface
    /// asks, each with its upstream. It answers what changed since the last refresh. After want of memory nothing is said of
    /// the flows; all else is as it was.
    pub fn refresh(&mut self, now: u64, me: NodeId, core: &Core) -> Result<FlowChanges, NoMemory>
        requires me { me.0 < core.now.nodes }
        requires peers { AreOfCore core.now.nodes self.old.routes.learned }
        ensures flows { (cost : NodeId → ℕ) → AreCosts core.now me cost → (q : Flow) →
            OnOk result (maps.get self.new.flows q ≡ flow_of self.old cost now q) }
        ensures rest { self.new ≡ record self.old { flows = self.new.flows } }
        ensures joins { (cost : NodeId → ℕ) → AreCosts core.now me cost → (q : Flow) → IfOk result (λ changes. get same_flow changes.joins q
            ≡ gained (upstream_of (maps.get self.old.flows q)) (upstream_of (flow_of self.old cost now q))) }
        ensures leaves { (cost : NodeId → ℕ) → AreCosts core.now me cost → (q : Flow) →
            IfOk result (λ changes. get same_flow changes.leaves q
            ≡ lost (upstream_of (maps.get self.old.flows q)) (upstream_of (flow_of self.old cost now q))) }
        ensures once { IfOk result (λ changes. (IsUnique same_flow changes.joins) × (IsUnique same_flow changes.leaves)) }
    {
        self.state.refresh(now, me, core)
    }

    /// Forgets the flows; all else is as it was, and the next refresh computes them anew. It takes no memory.
    pub fn forget_flows(&mut self)
        ensures { self.new ≡ record self.old { flows = maps.empty } }
    {
        self.state.forget_flows();
    }

    /// The edge that was joined for the source and group at the last refresh, with what its route says. It takes no memory.
    pub fn upstream(&self, source: Addr, group: Addr) -> Option<Upstream>
        ensures { result ≡ upstream_of (maps.get self.now.flows (flow_by_addrs source group)) }
    {
        self.state.upstream(&Flow { source, group })
    }

    /// Whether the VRF chooses for the source and group where a datagram comes from. It takes no memory.
    pub fn accepts(&self, source: Addr, group: Addr, from: Origin, me: NodeId, core: &Core) -> bool
        requires me { me.0 < core.now.nodes }
        requires peers { AreOfCore core.now.nodes self.now.routes.learned }
        ensures { (cost : NodeId → ℕ) → AreCosts core.now me cost →
            result ≡ is_from from (chosen_for self.now.routes cost (flow_by_addrs source group)) }
    {
        self.state.accepts(Flow { source, group }, from, me, core)
    }

    /// The interfaces at which a datagram leaves that comes from there at the clock, in order. After a refresh at that clock
    /// they are kept, and only copied.
    pub fn outgoing(
        &self,
        alloc: Global,
        source: Addr,
        group: Addr,
        from: Origin,
        now: u64,
        me: NodeId,
        core: &Core,
    ) -> Result<IfaceList, NoMemory>
        requires me { me.0 < core.now.nodes }
        requires peers { AreOfCore core.now.nodes self.now.routes.learned }
        ensures { (cost : NodeId → ℕ) → AreCosts core.now me cost →
            IfOk result (λ ifaces. ifaces ≡ outgoing self.now cost now (flow_by_addrs source group) from) }
    {
        self.state
            .outgoing(alloc, Flow { source, group }, from, now, me, core)
    }
}
