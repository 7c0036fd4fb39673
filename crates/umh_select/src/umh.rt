//! The routes that a VRF knows, and its choice among them.
ghost use Rattle.std.specs.Prelude.{◌≡◌, ◌<◌, ◌≤◌, ℕ, not, false, None, Some, [], option_map, length, map};
ghost use Rattle.std.specs.Prelude.{slice_get, slice_index_or, IfOk, IfErr, OnOk, OnErr};
ghost use Rattle.std.specs.FinMap.{empty, entries, insert, remove};
ghost use Rattle.mv_base.specs.declared.addr.Addr.{Addr};
ghost use Rattle.mv_base.specs.declared.ids.NodeId.{NodeId};
ghost use Rattle.choice_defs.specs.Choice.{best_route, choose, cost_by, hash_of, hashed_of};
ghost use Rattle.umh_select.specs.declared.route.Choice.TheVariants as choices;
ghost use Rattle.umh_select.specs.Edges.{cost_at, edges_in, first_above};
ghost use Rattle.umh_select.specs.Routes.{AreCosts, AreOfCore, IsNoneAt, at_length, best_of, candidate_of};
ghost use Rattle.umh_select.specs.Routes.{choice_of, chosen, first_site, held_of, is_found, is_from, key_from};
ghost use Rattle.umh_select.specs.Routes.{key_here, known, known_at, measure, named_by, origin_of, without_peer};

use crate::candidate::{Candidate, better, choice_of, measure, peer_of};
use crate::edges::{Edge, hash_of, lowest};
use crate::key::{Place, RouteKey};
use crate::route::{Choice, Held, Learned};
use core_paths::Core;
use mv_base::{Addr, NoMemory, NodeId, Prefix, Rd, Rule, SiteId};
use std::alloc::Global;
use std::collections::BTreeMap;
use std::marker::Model;

/// Whether it is a choice.
fn is_found(choice: Choice) -> bool
    ensures { result ≡ is_found choice }
{
    match choice {
        Choice::None => false,
        _ => true,
    }
}

/// The end of the routes of that length that cover the source.
fn end(source: Addr, bits: u8, place: Place) -> RouteKey
    ensures { result ≡ record { prefix = record { addr = source; bits = bits }; place = place } }
{
    RouteKey {
        prefix: Prefix { addr: source, bits },
        place,
    }
}

/// No length is marked.
fn no_lengths() -> [bool; 256]
    ensures { (bits : ℕ) → slice_index_or result bits false ≡ false }
{
    [false; 256]
}

/// Routes that were learned, in the order of their keys.
pub type LearnedRoutes = BTreeMap<RouteKey, Held>;

/// The routes of a VRF: those that it learned, each one of its peer, route distinguisher and prefix, and its attached prefixes
/// with their sites. Both stand by the lengths and first bits of their prefixes.
#[derive(Drop)]
pub struct Umh {
    rule: Rule,
    /// The lengths that prefixes had.
    lengths: [bool; 256],
    /// All of these are below it.
    bound: usize,
    learned: LearnedRoutes,
    attached: BTreeMap<RouteKey, SiteId>,
}

impl Model for Umh {
    ghost use Rattle.std.specs.FinMap.{from_sorted};
    ghost use Rattle.std.specs.BTreeMap.{IsOrdered};
    ghost use Rattle.umh_select.specs.Order.{key_cmp};
    ghost use Rattle.umh_select.specs.Routes.{AreBelow, IsIndexed, Routes, is_attached_place, is_learned_place, routes_code};

    ghost Value = { Routes };

    ghost coded = { routes_code };

    ghost view = { λ u. record { rule = u.rule; learned = from_sorted u.learned.entries; attached = from_sorted u.attached.entries } };

    ghost invariant = { λ u. IsOrdered key_cmp u.learned × IsOrdered key_cmp u.attached
        × IsIndexed is_learned_place u.lengths u.learned.entries × IsIndexed is_attached_place u.lengths u.attached.entries
        × AreBelow u.bound u.lengths };
}

impl Umh {
    /// No route. It takes no memory.
    pub fn of(alloc: Global, rule: Rule) -> Umh
        ensures { result ≡ record { rule = rule; learned = empty; attached = empty } }
    {
        Umh {
            rule,
            lengths: no_lengths(),
            bound: 0,
            learned: BTreeMap::new(alloc),
            attached: BTreeMap::new(alloc),
        }
    }

    /// The peer's route, in place of what it gave before for that route distinguisher and prefix.
    pub fn learn(&mut self, peer: NodeId, route: Learned) -> Result<(), NoMemory>
        ensures learned { OnOk result
            (self.new ≡ record self.old { learned = insert self.old.learned (key_from peer route.rd route.prefix) (held_of route) }) }
        ensures unchanged { OnErr result (self.new ≡ self.old) }
    {
        let key = RouteKey {
            prefix: route.prefix,
            place: Place::From { peer, rd: route.rd },
        };
        let held = Held {
            import: route.import,
            source_as: route.source_as,
        };
        self.learned.insert(key, held)?;
        self.lengths[usize::from(route.prefix.bits)] = true;
        self.bound = self.bound.max(usize::from(route.prefix.bits) + 1);
        Ok(())
    }

    /// Forgets the peer's route for that route distinguisher and prefix. It takes no memory.
    pub fn forget(&mut self, peer: NodeId, rd: Rd, prefix: Prefix)
        ensures { self.new ≡ record self.old { learned = remove self.old.learned (key_from peer rd prefix) } }
    {
        let _ = self.learned.remove(&RouteKey {
            prefix,
            place: Place::From { peer, rd },
        });
    }

    /// The routes that were learned, by key.
    pub fn learned(&self) -> &LearnedRoutes
        ensures { result.now.entries ≡ entries self.now.learned }
    {
        &self.learned
    }

    /// Forgets all routes of the peer. It takes no memory.
    pub fn forget_peer(&mut self, peer: NodeId)
        ensures { self.new ≡ record self.old { learned = without_peer peer self.old.learned } }
    {
        self.learned.retain(
            |key: &RouteKey, held: &mut Held| -> bool
                ensures { (result ≡ not (is_from peer key.now.place)) × (held.new ≡ held.old) }
            { !key.is_from(peer) },
        );
    }

    /// The prefix is attached with the site.
    pub fn attach(&mut self, prefix: Prefix, site: SiteId) -> Result<(), NoMemory>
        ensures attached { OnOk result (self.new ≡ record self.old { attached = insert self.old.attached (key_here prefix) site }) }
        ensures unchanged { OnErr result (self.new ≡ self.old) }
    {
        let key = RouteKey {
            prefix,
            place: Place::Here,
        };
        self.attached.insert(key, site)?;
        self.lengths[usize::from(prefix.bits)] = true;
        self.bound = self.bound.max(usize::from(prefix.bits) + 1);
        Ok(())
    }

    /// The upstream of the flow: of the longest prefix that covers the source the attached site, or else the edge by the rule,
    /// with its route of the least route distinguisher. It takes no memory.
    pub fn choose(&self, source: Addr, group: Addr, me: NodeId, core: &Core) -> Choice
        requires me { me.0 < core.now.nodes }
        requires peers { AreOfCore core.now.nodes self.now.learned }
        ensures route { (cost : NodeId → ℕ) → AreCosts core.now me cost →
            result ≡ chosen self.now.learned
            (best_route (cost_by self.now.rule cost (known self.now) source group) (known self.now) source) }
        ensures origin { (cost : NodeId → ℕ) → AreCosts core.now me cost →
            origin_of result ≡ choose self.now.rule cost (known self.now) source group }
    {
        let mut length = self.lengths();
        while length > 0 {
            length -= 1;
            let choice = self.choose_at(source, group, length as u8, me, core);
            if is_found(choice) {
                return choice;
            }
        }
        Choice::None
    }

    /// A bound of the lengths: each prefix has a lower one.
    fn lengths(&self) -> usize
        ensures bound { result ≤ 256 }
        ensures none { (source : Addr) (bits : ℕ) → result ≤ bits → IsNoneAt self.now source bits }
    {
        self.bound
    }

    /// The upstream among the prefixes of that length.
    fn choose_at(&self, source: Addr, group: Addr, bits: u8, me: NodeId, core: &Core) -> Choice
        requires me { me.0 < core.now.nodes }
        requires peers { AreOfCore core.now.nodes self.now.learned }
        ensures none { result ≡ choices.None → IsNoneAt self.now source bits }
        ensures route { (cost : NodeId → ℕ) → AreCosts core.now me cost →
            result ≡ chosen self.now.learned (best_route (cost_at self.now source group bits cost) (known_at self.now source bits) source) }
        ensures origin { (cost : NodeId → ℕ) → AreCosts core.now me cost →
            origin_of result ≡ option_map (λ route. route.origin)
            (best_route (cost_at self.now source group bits cost) (known_at self.now source bits) source) }
    {
        if !self.lengths[usize::from(bits)] {
            return Choice::None;
        }
        match self.site_at(source, bits) {
            Some(site) => Choice::Local(site),
            None => self.remote_at(source, group, bits, me, core),
        }
    }

    /// The site of a prefix of that length.
    fn site_at(&self, source: Addr, bits: u8) -> Option<SiteId>
        ensures { result ≡ first_site (at_length source bits (entries self.now.attached)) }
    {
        let ends = end(source, bits, Place::First)..=end(source, bits, Place::Last);
        for (_key, site) in self.attached.range(ends) {
            return Some(*site);
        }
        None
    }

    /// The edge of the lowest address above that one, among those of the routes of that length.
    fn edge_after(&self, source: Addr, bits: u8, after: Option<Addr>) -> Option<Edge>
        ensures { result ≡ first_above after (edges_in (at_length source bits (entries self.now.learned))) }
    {
        let ends = end(source, bits, Place::First)..=end(source, bits, Place::Last);
        let mut best = None;
        for (key, held) in self.learned.range(ends) {
            best = lowest(after, best, (peer_of(key.place), held.import.0));
        }
        best
    }

    /// The edge of that number by rising address, among those of the routes of that length, or how many there are.
    fn edge_at(&self, source: Addr, bits: u8, number: u8) -> Result<Edge, u8>
        ensures some { IfOk result (λ edge. slice_get (edges_in (at_length source bits (entries self.now.learned))) number ≡ Some edge) }
        ensures none { IfErr result (λ count. (count ≡ length (edges_in (at_length source bits (entries self.now.learned))))
            × (count ≤ number)) }
    {
        let mut edge = self.edge_after(source, bits, None);
        for passed in 0..number {
            match edge {
                None => return Err(passed),
                Some((_, address)) => edge = self.edge_after(source, bits, Some(address)),
            }
        }
        match edge {
            Some(edge) => Ok(edge),
            None => Err(number),
        }
    }

    /// The edge that source and group name, among those of the routes of that length.
    fn hashed_at(&self, source: Addr, group: Addr, bits: u8) -> Option<NodeId>
        ensures { result ≡ hashed_of (hash_of source group) (edges_in (at_length source bits (entries self.now.learned))) }
    {
        let hash = hash_of(source, group);
        match self.edge_at(source, bits, hash) {
            Ok((edge, _)) => Some(edge),
            Err(0) => None,
            Err(count) => match self.edge_at(source, bits, hash % count) {
                Ok((edge, _)) => Some(edge),
                Err(_) => None,
            },
        }
    }

    /// The same, where the rule is the hash.
    fn named_at(&self, source: Addr, group: Addr, bits: u8) -> Option<NodeId>
        ensures { result ≡ named_by self.now.rule
            (hashed_of (hash_of source group) (edges_in (at_length source bits (entries self.now.learned)))) }
    {
        match self.rule {
            Rule::Hash => self.hashed_at(source, group, bits),
            _ => None,
        }
    }

    /// The upstream among the learned routes of that length.
    fn remote_at(&self, source: Addr, group: Addr, bits: u8, me: NodeId, core: &Core) -> Choice
        requires me { me.0 < core.now.nodes }
        requires peers { AreOfCore core.now.nodes self.now.learned }
        ensures none { result ≡ choices.None → at_length source bits (entries self.now.learned) ≡ [] }
        ensures best { (cost : NodeId → ℕ) → AreCosts core.now me cost →
            result ≡ choice_of (best_of None
            (map (candidate_of (cost_at self.now source group bits cost)) (at_length source bits (entries self.now.learned)))) }
    {
        let named = self.named_at(source, group, bits);
        choice_of(self.best_at(source, bits, named, me, core))
    }

    /// The best one of the learned routes of that length, where that edge is named.
    fn best_at(
        &self,
        source: Addr,
        bits: u8,
        named: Option<NodeId>,
        me: NodeId,
        core: &Core,
    ) -> Option<Candidate>
        requires me { me.0 < core.now.nodes }
        requires peers { AreOfCore core.now.nodes self.now.learned }
        ensures none { result ≡ None → at_length source bits (entries self.now.learned) ≡ [] }
        ensures best { (cost : NodeId → ℕ) → AreCosts core.now me cost →
            result ≡ best_of None
            (map (candidate_of (measure self.now.rule cost named)) (at_length source bits (entries self.now.learned))) }
    {
        let ends = end(source, bits, Place::First)..=end(source, bits, Place::Last);
        let mut best = None;
        for (key, held) in self.learned.range(ends) {
            let next = Candidate {
                key: *key,
                held: *held,
                measure: measure(self.rule, named, peer_of(key.place), me, core),
            };
            best = Some(better(best, next));
        }
        best
    }
}
