//! What one VRF keeps.
ghost use Rattle.std.specs.Prelude.{◌≡◌, ◌<◌, ◌≤◌, ◌^◌, ◌+◌, ◌++◌, ◌↔◌, [], ◌∷◌, ℕ, min, not, filter, map, length, count_by, option_map};
ghost use Rattle.std.specs.Prelude.{true, IsTrue, IfOk, OnOk, OnErr};
ghost use Rattle.std.specs.FinMap as maps;
ghost use Rattle.std.specs.FinSet as sets;
ghost use Rattle.mv_base.specs.declared.ids.NodeId.{NodeId};
ghost use Rattle.selective_defs.specs.Selective.{next_number, transmitted};
ghost use Rattle.selective.specs.Roots.{AreSelections, IsSelected, added, is_of, lsp_number, number_at, run_due, selected_now};
ghost use Rattle.selective.specs.Roots.{is_waiting as selection_waits};
ghost use Rattle.selective.specs.Leaves.{key_of, learned_now, routes_run};
ghost use Rattle.selective.specs.Leaves.{is_waiting as route_waits};
ghost use Rattle.selective.specs.Leaves.{without_peer as without_leaves};
ghost use Rattle.vrf_flows.specs.pim_defs.Entries.{applied, due, kept_at};
ghost use Rattle.umh_select.specs.Routes.{AreCosts, AreOfCore, held_of, key_from, key_here, without_peer};
ghost use Rattle.vrf_words.specs.declared.tree_defs.flow.Flow.{Flow};
ghost use Rattle.vrf_words.specs.tree_defs.Flows.{chosen_for, flow_of, gained, is_from, is_noted, lost, outgoing, upstream_of};
ghost use Rattle.vrf_words.specs.tree_defs.Trees.{wanted_by};
ghost use Rattle.vrf_words.specs.tree_laws.Imports.{has_learned};
ghost use Rattle.vrf_flows.specs.State.{active_by, flow_by_addrs, note_at};
ghost use Rattle.vrf_trees.specs.Changes.{AreJoins, AreNew};
ghost use Rattle.vrf_trees.specs.Joined.{is_joined, join_by};
ghost use Rattle.vrf_trees.specs.Trees.{IsFresh, no_tree};

use crate::changes::TreeChanges;
use crate::joins::TakenJoins;
use crate::refresh::refresh;
use crate::routes::{forget, forget_peer, learn, run_routes};
use crate::table::WantTable;
use crate::wants::{is_known, is_wanted};
use core_paths::Core;
use mldp::mldp_fec::Fec;
use mv_base::{Addr, IfaceId, NoMemory, NodeId, Pattern, Prefix, Rd, Rule, SiteId};
use pim_joinprune::JoinPrune;
use scenario_defs::IfaceList;
use selective::{LeafTunnels, RootTunnels};
use std::alloc::Global;
use std::marker::Model;
use umh_select::Learned;
use vrf_flows::VrfFlows;
use vrf_words::tree_defs::{Flow, Origin, TakenJoin, Upstream};

/// What one VRF keeps: its flows with the upstream of each, and what they are found by; what it selected as a root; the
/// selective routes that it learned as an egress; the joins of other edges; and the selective tunnels that its flows wanted at
/// the last refresh. A refresh looks only at flows that something touched since the last one.
#[derive(Drop)]
pub struct VrfTree {
    alloc: Global,
    /// A call that leaves the flows of the last refresh as they are may be made here.
    pub flows: VrfFlows,
    root: RootTunnels,
    leaf: LeafTunnels,
    joined: TakenJoins,
    wants: WantTable,
}

impl Model for VrfTree {
    ghost use Rattle.std.specs.FinSet as sets;
    ghost use Rattle.vrf_words.specs.tree_defs.Trees.{TreeData};
    ghost use Rattle.vrf_trees.specs.Trees.{tree_code};
    ghost use Rattle.vrf_trees.specs.Wants.{IsSound, tunnels_in};

    ghost Value = { TreeData };

    ghost coded = { tree_code };

    ghost view = { λ t. record {
      vrf = t.flows;
      root = t.root;
      leaf = t.leaf;
      joined = t.joined;
      wants = sets.from_list (tunnels_in t.wants.entries);
    } };

    ghost invariant = { λ t. IsSound t.leaf t.flows.flows t.wants };
}

/// The number of what waits in both parts, or the greatest number of 64 bits where there is more.
fn sum_of(own: u64, other: u64) -> u64
    ensures { result ≡ min (own + other) 18446744073709551615 }
{
    own.saturating_add(other)
}

impl VrfTree {
    /// Nothing is kept yet, for the VRF of that number. Selections and selective routes wait for the delay. It takes no memory.
    pub fn of(alloc: Global, number: u16, rule: Rule, delay: u64) -> VrfTree
        requires least { 1 ≤ number }
        requires most { number ≤ 4095 }
        requires some { 1 ≤ delay }
        requires short { delay ≤ 1000 }
        ensures { result ≡ no_tree number rule delay }
    {
        VrfTree {
            alloc,
            flows: VrfFlows::of(alloc, rule),
            root: RootTunnels::of(alloc, number, delay),
            leaf: LeafTunnels::of(alloc, delay),
            joined: TakenJoins::of(alloc),
            wants: WantTable::of(alloc),
        }
    }

    /// One more interface, of that site, after those that are there.
    pub fn add_iface(&mut self, iface: IfaceId, site: SiteId) -> Result<(), NoMemory>
        ensures added { OnOk result (self.new
            ≡ record self.old {
              vrf = record self.old.vrf {
                ifaces = self.old.vrf.ifaces ++ record { iface = iface; site = site } ∷ [];
              };
            }) }
        ensures unchanged { OnErr result (self.new ≡ self.old) }
    {
        self.flows.add_iface(iface, site)
    }

    // ---- joined state (RFC 7761 section 4.1)

    /// Removes the entries that have ended at the clock. It takes no memory.
    pub fn pim_timers(&mut self, now: u64)
        ensures { self.new ≡ record self.old { vrf = record self.old.vrf { entries = kept_at self.old.vrf.entries now } } }
    {
        self.flows.pim_timers(now);
    }

    /// How many entries would stand after the message.
    pub fn pim_entries_after(
        &self,
        alloc: Global,
        iface: IfaceId,
        message: &JoinPrune,
        now: u64,
    ) -> Result<u32, NoMemory>
        requires { now < 2 ^ 63 }
        ensures { IfOk result (λ count. count ≡ maps.len (applied self.now.vrf.entries iface message.now now)) }
    {
        self.flows.pim_entries_after(alloc, iface, message, now)
    }

    /// The number of entries. It takes no memory.
    pub fn pim_entries(&self) -> u32
        ensures count { result ≡ maps.len self.now.vrf.entries }
        ensures few { result ≤ 1024 }
    {
        self.flows.pim_entries()
    }

    /// How many entries end at or before the clock. It takes no memory.
    pub fn pim_due(&self, now: u64) -> u64
        ensures { result ≡ due self.now.vrf.entries now }
    {
        self.flows.pim_due(now)
    }

    // ---- sources that are known to send

    /// Notes at the interface that the source sends to the group.
    pub fn note(&mut self, iface: IfaceId, source: Addr, group: Addr) -> Result<(), NoMemory>
        ensures noted { OnOk result (self.new ≡ record self.old {
          vrf = record self.old.vrf {
            notes = sets.insert self.old.vrf.notes (note_at iface source group);
          };
        }) }
        ensures unchanged { OnErr result (self.new ≡ self.old) }
    {
        self.flows.note(iface, source, group)
    }

    /// The note is there no more. It takes no memory.
    pub fn unnote(&mut self, iface: IfaceId, source: Addr, group: Addr)
        ensures { self.new ≡ record self.old {
          vrf = record self.old.vrf {
            notes = sets.remove self.old.vrf.notes (note_at iface source group);
          };
        } }
    {
        self.flows.unnote(iface, source, group);
    }

    /// Whether the note is there. It takes no memory.
    pub fn noted(&self, iface: IfaceId, source: Addr, group: Addr) -> bool
        ensures { result ≡ sets.contains self.now.vrf.notes (note_at iface source group) }
    {
        self.flows.noted(iface, source, group)
    }

    /// The number of notes, or the greatest number of 32 bits where there are more. It takes no memory.
    pub fn notes(&self) -> u32
        ensures { result ≡ min (sets.len self.now.vrf.notes) 4294967295 }
    {
        self.flows.notes()
    }

    /// Whether some interface has a note for the source and group. It takes no memory.
    pub fn active_here(&self, source: Addr, group: Addr) -> bool
        ensures { result ≡ is_noted self.now.vrf.notes (flow_by_addrs source group) }
    {
        self.flows.active_here(source, group)
    }

    /// Takes a Source Active route of the peer (RFC 6514 section 14).
    pub fn learn_active(
        &mut self,
        peer: NodeId,
        rd: Rd,
        source: Addr,
        group: Addr,
    ) -> Result<(), NoMemory>
        ensures learned { OnOk result (self.new
            ≡ record self.old {
              vrf = record self.old.vrf {
                actives = sets.insert self.old.vrf.actives (active_by peer rd source group);
              };
            }) }
        ensures unchanged { OnErr result (self.new ≡ self.old) }
    {
        self.flows.learn_active(peer, rd, source, group)
    }

    /// Forgets the Source Active route of the peer. It takes no memory.
    pub fn forget_active(&mut self, peer: NodeId, rd: Rd, source: Addr, group: Addr)
        ensures { self.new ≡ record self.old {
          vrf = record self.old.vrf {
            actives = sets.remove self.old.vrf.actives (active_by peer rd source group);
          };
        } }
    {
        self.flows.forget_active(peer, rd, source, group);
    }

    // ---- unicast routes

    /// The peer's route, in place of what it gave before for that route distinguisher and prefix.
    pub fn umh_learn(&mut self, peer: NodeId, route: Learned) -> Result<(), NoMemory>
        ensures learned { OnOk result (self.new ≡ record self.old {
          vrf = record self.old.vrf {
            routes = record self.old.vrf.routes
                { learned = maps.insert self.old.vrf.routes.learned (key_from peer route.rd route.prefix) (held_of route) };
          };
        }) }
        ensures unchanged { OnErr result (self.new ≡ self.old) }
    {
        self.flows.umh_learn(peer, route)
    }

    /// Forgets the peer's route for that route distinguisher and prefix. It takes no memory.
    pub fn umh_forget(&mut self, peer: NodeId, rd: Rd, prefix: Prefix)
        ensures { self.new ≡ record self.old {
          vrf = record self.old.vrf {
            routes = record self.old.vrf.routes
                { learned = maps.remove self.old.vrf.routes.learned (key_from peer rd prefix) };
          };
        } }
    {
        self.flows.umh_forget(peer, rd, prefix);
    }

    /// Forgets all routes of the peer. It takes no memory.
    pub fn umh_forget_peer(&mut self, peer: NodeId)
        ensures { self.new ≡ record self.old {
          vrf = record self.old.vrf {
            routes = record self.old.vrf.routes { learned = without_peer peer self.old.vrf.routes.learned };
          };
        } }
    {
        self.flows.umh_forget_peer(peer);
    }

    /// The prefix is attached with the site.
    pub fn umh_attach(&mut self, prefix: Prefix, site: SiteId) -> Result<(), NoMemory>
        ensures attached { OnOk result (self.new ≡ record self.old {
          vrf = record self.old.vrf {
            routes = record self.old.vrf.routes
                { attached = maps.insert self.old.vrf.routes.attached (key_here prefix) site };
          };
        }) }
        ensures unchanged { OnErr result (self.new ≡ self.old) }
    {
        self.flows.umh_attach(prefix, site)
    }

    // ---- a root's tunnels (RFC 6513 section 7)

    /// Selects the pattern from now on. The LSP number of its tunnel is that of the VRF times 2^20 and the least number from 1
    /// on that no other selection of the VRF has.
    pub fn root_select(&mut self, pattern: Pattern, now: u64) -> Result<u32, NoMemory>
        requires new { ¬ (IsSelected pattern self.old.root.selections) }
        requires few { length self.old.root.selections < 256 }
        requires now { now < 2 ^ 63 }
        ensures number { IfOk result (λ lsp. lsp ≡ lsp_number self.old.root.number (next_number self.old.root.selections)) }
        ensures selected { OnOk result (self.new ≡ record self.old {
          root = record self.old.root {
            selections = self.old.root.selections ++ selected_now pattern now self.old.root.selections ∷ [];
          };
        }) }
        ensures unchanged { OnErr result (self.new ≡ self.old) }
    {
        self.root.select(pattern, now)
    }

    /// Forgets the selection of the pattern, and tells its LSP number. Where it is not selected, nothing changes. It takes no
    /// memory.
    pub fn root_unselect(&mut self, pattern: Pattern) -> Option<u32>
        ensures number { result ≡ option_map (lsp_number self.old.root.number) (number_at pattern self.old.root.selections) }
        ensures gone { self.new ≡ record self.old {
          root = record self.old.root {
            selections = filter (λ selection. not (is_of pattern selection)) self.old.root.selections;
          };
        } }
    {
        self.root.unselect(pattern)
    }

    /// The LSP number of the tunnel that the flow is transmitted on: that of the most specific selection which matches it and
    /// whose delay was run, or the inclusive tunnel. It takes no memory.
    pub fn root_transmit(&self, source: Addr, group: Addr) -> u32
        ensures { result ≡ lsp_number self.now.root.number (added (transmitted self.now.root.selections source group)) }
    {
        self.root.transmit(source, group)
    }

    /// Whether the pattern is selected. It takes no memory.
    pub fn root_is_selected(&self, pattern: Pattern) -> bool
        ensures { IsTrue result ↔ IsSelected pattern self.now.root.selections }
    {
        self.root.is_selected(pattern)
    }

    /// How many patterns are selected. No two selections are of one pattern or have one number. It takes no memory.
    pub fn root_selections(&self) -> u32
        ensures count { result ≡ length self.now.root.selections }
        ensures kept { AreSelections self.now.root.selections }
    {
        self.root.selections()
    }

    // ---- an egress's tunnels (RFC 6513 section 7)

    /// The selective route is learned now, in place of one of that peer, route distinguisher and pattern.
    pub fn leaf_learn(
        &mut self,
        peer: NodeId,
        rd: Rd,
        pattern: Pattern,
        fec: Fec,
        now: u64,
    ) -> Result<(), NoMemory>
        ensures learned { OnOk result (self.new ≡ record self.old {
          leaf = record self.old.leaf {
            routes = maps.insert self.old.leaf.routes (key_of peer rd pattern) (learned_now fec now);
          };
        }) }
        ensures unchanged { OnErr result (self.new ≡ self.old) }
    {
        learn(&mut self.leaf, &mut self.wants, peer, rd, pattern, fec, now)
    }

    /// Forgets the selective route of that peer, route distinguisher and pattern. It takes no memory.
    pub fn leaf_forget(&mut self, peer: NodeId, rd: Rd, pattern: Pattern)
        ensures { self.new ≡ record self.old {
          leaf = record self.old.leaf {
            routes = maps.remove self.old.leaf.routes (key_of peer rd pattern);
          };
        } }
    {
        forget(&mut self.leaf, &mut self.wants, peer, rd, pattern);
    }

    /// Forgets all selective routes of the peer. It takes no memory.
    pub fn leaf_forget_peer(&mut self, peer: NodeId)
        ensures { self.new ≡ record self.old { leaf = record self.old.leaf { routes = without_leaves peer self.old.leaf.routes } } }
    {
        forget_peer(&mut self.leaf, &mut self.wants, peer);
    }

    /// Runs the delay of each selection and each selective route that is due. It takes no memory.
    pub fn tunnel_timers(&mut self, now: u64)
        ensures { self.new ≡ record self.old {
          root = record self.old.root { selections = map (run_due self.old.root.delay now) self.old.root.selections };
          leaf = record self.old.leaf { routes = routes_run self.old.leaf.delay now self.old.leaf.routes };
        } }
    {
        self.root.timers(now);
        run_routes(&mut self.leaf, &mut self.wants, now);
    }

    /// How many selections and selective routes are due and not run, or the greatest number of 64 bits where there are more. It
    /// takes no memory.
    pub fn tunnel_due(&self, now: u64) -> u64
        ensures { result ≡ min (count_by (selection_waits self.now.root.delay now) self.now.root.selections
            + count_by (route_waits self.now.leaf.delay now) (maps.values self.now.leaf.routes)) 18446744073709551615 }
    {
        sum_of(self.root.due(now), self.leaf.due(now))
    }

    // ---- joins of other edges (RFC 6514 section 11.1.3)

    /// Takes the peer's join of the flow.
    pub fn join_in(&mut self, peer: NodeId, source: Addr, group: Addr) -> Result<(), NoMemory>
        ensures joined { OnOk result (self.new ≡ record self.old { joined = sets.insert self.old.joined (join_by peer source group) }) }
        ensures unchanged { OnErr result (self.new ≡ self.old) }
    {
        self.joined.take(TakenJoin {
            peer,
            flow: Flow { source, group },
        })
    }

    /// The peer's join of the flow is there no more. It takes no memory.
    pub fn leave_in(&mut self, peer: NodeId, source: Addr, group: Addr)
        ensures { self.new ≡ record self.old { joined = sets.remove self.old.joined (join_by peer source group) } }
    {
        self.joined.leave(TakenJoin {
            peer,
            flow: Flow { source, group },
        });
    }

    /// Whether some peer has joined the flow. It takes no memory.
    pub fn joined_in(&self, source: Addr, group: Addr) -> bool
        ensures { result ≡ is_joined self.now.joined (flow_by_addrs source group) }
    {
        self.joined.is_joined(&Flow { source, group })
    }

    // ---- flows

    /// Whether it is known, without a look at the flows, that a refresh at the clock changes nothing. It takes no memory.
    pub fn is_fresh(&self, now: u64) -> bool
        ensures { result ≡ true → IsFresh now self.now }
    {
        self.flows.is_fresh(now) && self.wants.all_fresh()
    }

    /// Brings the flows and the tunnels that they want up to date at the clock, in the core as the edge `me` knows it, and
    /// answers what changed since the last refresh. Between two refreshes a flow and what it wants stay as they are. After want
    /// of memory nothing is said of the flows and of what they want; all else is as it was.
    pub fn refresh(&mut self, now: u64, me: NodeId, core: &Core) -> Result<TreeChanges, NoMemory>
        requires me { me.0 < core.now.nodes }
        requires peers { AreOfCore core.now.nodes self.old.vrf.routes.learned }
        ensures flows { (cost : NodeId → ℕ) → AreCosts core.now me cost → (q : Flow) →
            OnOk result (maps.get self.new.vrf.flows q ≡ flow_of self.old.vrf cost now q) }
        ensures wants { OnOk result (self.new.wants ≡ sets.from_list (wanted_by self.old.leaf self.new.vrf.flows)) }
        ensures rest { self.new ≡ record self.old { vrf = record self.old.vrf { flows = self.new.vrf.flows }; wants = self.new.wants } }
        ensures joins { (cost : NodeId → ℕ) → AreCosts core.now me cost → IfOk result (λ changes. AreJoins changes.joins
            (λ q. gained (upstream_of (maps.get self.old.vrf.flows q)) (upstream_of (flow_of self.old.vrf cost now q)))) }
        ensures leaves { (cost : NodeId → ℕ) → AreCosts core.now me cost → IfOk result (λ changes. AreJoins changes.leaves
            (λ q. lost (upstream_of (maps.get self.old.vrf.flows q)) (upstream_of (flow_of self.old.vrf cost now q)))) }
        ensures wanted { IfOk result (λ changes. AreNew changes.wants self.old.wants self.new.wants) }
        ensures unwanted { IfOk result (λ changes. AreNew changes.unwants self.new.wants self.old.wants) }
    {
        let told = refresh(
            self.alloc,
            &mut self.flows,
            &self.leaf,
            &mut self.wants,
            now,
            me,
            core,
        );
        match told {
            Ok(changes) => Ok(changes),
            Err(fault) => {
                self.flows.forget_flows();
                self.wants = WantTable::of(self.alloc);
                Err(fault)
            }
        }
    }

    /// The edge that was joined for the source and group at the last refresh, with what its route says. It takes no memory.
    pub fn upstream(&self, source: Addr, group: Addr) -> Option<Upstream>
        ensures { result ≡ upstream_of (maps.get self.now.vrf.flows (flow_by_addrs source group)) }
    {
        self.flows.upstream(source, group)
    }

    /// Whether a flow wanted the selective tunnel at the last refresh. It takes no memory.
    pub fn is_wanted(&self, fec: &Fec) -> bool
        ensures { result ≡ sets.contains self.now.wants fec.now }
    {
        is_wanted(&self.wants, fec)
    }

    /// Whether it is known, by one look-up, that the tree has learned a selective route of the tunnel from the edge: the flow wants the
    /// tunnel, and no route that may touch the flow came or went since the last refresh.
    pub fn is_known(&self, flow: &Flow, edge: NodeId, fec: &Fec) -> bool
        ensures { result ≡ true → has_learned self.now edge fec.now ≡ true }
    {
        is_known(&self.wants, flow, edge, fec)
    }

    // ---- datagrams

    /// Whether the VRF chooses for the source and group where a datagram comes from. It takes no memory.
    pub fn accepts(&self, source: Addr, group: Addr, from: Origin, me: NodeId, core: &Core) -> bool
        requires me { me.0 < core.now.nodes }
        requires peers { AreOfCore core.now.nodes self.now.vrf.routes.learned }
        ensures { (cost : NodeId → ℕ) → AreCosts core.now me cost →
            result ≡ is_from from (chosen_for self.now.vrf.routes cost (flow_by_addrs source group)) }
    {
        self.flows.accepts(source, group, from, me, core)
    }

    /// The interfaces at which a datagram leaves that comes from there at the clock, in order. After a refresh at that clock
    /// they are kept, and only copied.
    pub fn outgoing(
        &self,
        alloc: Global,
        source: Addr,
        group: Addr,
        from: Origin,
        now: u64,
        me: NodeId,
        core: &Core,
    ) -> Result<IfaceList, NoMemory>
        requires me { me.0 < core.now.nodes }
        requires peers { AreOfCore core.now.nodes self.now.vrf.routes.learned }
        ensures { (cost : NodeId → ℕ) → AreCosts core.now me cost →
            IfOk result (λ ifaces. ifaces ≡ outgoing self.now.vrf cost now (flow_by_addrs source group) from) }
    {
        self.flows
            .outgoing(alloc, source, group, from, now, me, core)
    }
}
