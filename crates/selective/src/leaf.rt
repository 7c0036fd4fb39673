//! The tunnels of an egress.
ghost use Rattle.std.specs.Prelude.{◌≡◌, ◌≤◌, ◌==◌, ◌++◌, None, Some, true, false, map, count_by, not, IfOk, OnOk, OnErr};
ghost use Rattle.std.specs.BTreeMap as tree;
ghost use Rattle.std.specs.FinMap.{empty, entries, get, insert, remove, values};
ghost use Rattle.std.specs.List.{fold, list_any};
ghost use Rattle.selective_defs.specs.Selective.{wanted};
ghost use Rattle.selective.specs.Leaves.{fecs_of, is_waiting, key_of, learned_now, patterns_of, peer_routes};
ghost use Rattle.selective.specs.Waiting.{earlier, earliest_with, is_any_due};
ghost use Rattle.selective.specs.declared.route_key.Learned.{Learned};
ghost use Rattle.selective.specs.declared.route_key.RouteKey.{RouteKey};
ghost use Rattle.selective.specs.Leaves.{routes_at, routes_run, run_due, until_run, without_peer};

use crate::delay::is_due;
use crate::route_key::{Learned, Place, RouteKey};
use mv_base::{Addr, NoMemory, NodeId, Pattern, Rd, Seq};
use selective_defs::of_mldp::mldp_fec::Fec;
use std::alloc::Global;
use std::collections::BTreeMap;
use std::marker::Model;

/// A list of FECs.
pub type Fecs = Seq<Fec>;

/// Routes that were learned, in the order of their keys.
pub type LearnedRoutes = BTreeMap<RouteKey, Learned>;

/// Whether the delay of the route is due, and was not run.
fn is_waiting(learned: &Learned, delay: u64, now: u64) -> bool
    ensures { result ≡ is_waiting delay now learned.now }
{
    !learned.run && is_due(delay, now, learned.since)
}

/// The earliest clock at which a route was learned whose delay was not run, with this route among the others.
fn earliest_with(earliest: Option<u64>, learned: &Learned) -> Option<u64>
    ensures { result ≡ earlier (not learned.now.run) earliest learned.now.since }
{
    if learned.run {
        return earliest;
    }
    match earliest {
        None => Some(learned.since),
        Some(first) => Some(first.min(learned.since)),
    }
}

/// That clock, of all these routes.
fn earliest_of(routes: &LearnedRoutes) -> Option<u64>
    ensures { result ≡ fold earliest_with None routes.now.entries }
{
    let mut earliest = None;
    for (_key, learned) in routes.iter() {
        earliest = earliest_with(earliest, learned);
    }
    earliest
}

/// Whether the delay may be over of a route that was learned then or later.
fn is_any_due(delay: u64, now: u64, earliest: Option<u64>) -> bool
    ensures { result ≡ is_any_due delay now earliest }
{
    match earliest {
        None => false,
        Some(since) => is_due(delay, now, since),
    }
}

/// How many routes are due and not run.
fn count_waiting(routes: &LearnedRoutes, delay: u64, now: u64) -> u64
    ensures { result ≡ count_by (is_waiting delay now) (tree.values routes.now) }
{
    routes
        .values()
        .filter(|learned| is_waiting(learned, delay, now))
        .count() as u64
}

/// The routes for selective tunnels that an egress has learned, each one of its peer, route distinguisher and pattern. Beside them is the
/// clock before which none was learned whose delay was not run: a step at which no delay can be over looks at no route.
#[derive(Drop)]
pub struct LeafTunnels {
    delay: u64,
    routes: LearnedRoutes,
    earliest: Option<u64>,
}

impl Model for LeafTunnels {
    ghost use Rattle.std.specs.FinMap.{from_sorted};
    ghost use Rattle.std.specs.BTreeMap.{IsOrdered};
    ghost use Rattle.selective.specs.Leaves.{Leaf, leaf_code};
    ghost use Rattle.selective.specs.Order.{route_cmp};

    ghost Value = { Leaf };

    ghost coded = { leaf_code };

    ghost view = { λ t. record { delay = t.delay; routes = from_sorted t.routes.entries } };

    ghost use Rattle.selective.specs.Waiting.{IsNoted};

    ghost invariant = { λ t. IsOrdered route_cmp t.routes × IsNoted t.earliest (from_sorted t.routes.entries) };
}

impl LeafTunnels {
    /// No route. An egress waits for the delay of a route before it leaves the less specific tunnels of a flow.
    pub fn of(alloc: Global, delay: u64) -> LeafTunnels
        requires some { 1 ≤ delay }
        requires short { delay ≤ 1000 }
        ensures { result ≡ record { delay = delay; routes = empty } }
    {
        LeafTunnels {
            delay,
            routes: BTreeMap::new(alloc),
            earliest: None,
        }
    }

    /// The route is learned now, in place of one of that peer, route distinguisher and pattern.
    pub fn learn(
        &mut self,
        peer: NodeId,
        rd: Rd,
        pattern: Pattern,
        fec: Fec,
        now: u64,
    ) -> Result<(), NoMemory>
        ensures learned { OnOk result (self.new ≡
            record self.old { routes = insert self.old.routes (key_of peer rd pattern) (learned_now fec now) }) }
        ensures unchanged { OnErr result (self.new ≡ self.old) }
    {
        let key = RouteKey {
            peer,
            pattern,
            place: Place::Of(rd),
        };
        let learned = Learned {
            fec,
            since: now,
            run: false,
        };
        let earliest = earliest_with(self.earliest, &learned);
        self.routes.insert(key, learned)?;
        self.earliest = earliest;
        Ok(())
    }

    /// Forgets the route of that peer, route distinguisher and pattern.
    pub fn forget(&mut self, peer: NodeId, rd: Rd, pattern: Pattern)
        ensures { self.new ≡ record self.old { routes = remove self.old.routes (key_of peer rd pattern) } }
    {
        let _ = self.routes.remove(&RouteKey {
            peer,
            pattern,
            place: Place::Of(rd),
        });
    }

    /// Forgets all routes of the peer.
    pub fn forget_peer(&mut self, peer: NodeId)
        ensures { self.new ≡ record self.old { routes = without_peer peer self.old.routes } }
    {
        self.routes.retain(
            |key: &RouteKey, learned: &mut Learned| -> bool
                ensures { (result ≡ not (key.now.peer.0 == peer.0)) × (learned.new ≡ learned.old) }
            { key.peer.0 != peer.0 },
        );
        self.earliest = earliest_of(&self.routes);
    }

    /// Runs the delay of each route that is due.
    pub fn timers(&mut self, now: u64)
        ensures { self.new ≡ record self.old { routes = routes_run self.old.delay now self.old.routes } }
    {
        let delay = self.delay;
        self.routes.retain(
            |_key: &RouteKey, learned: &mut Learned| -> bool
                ensures { (result ≡ true) × (learned.new ≡ run_due delay now learned.old) }
            {
                learned.run = learned.run || is_due(delay, now, learned.since);
                true
            },
        );
        self.earliest = earliest_of(&self.routes);
    }

    /// Whether the delay of a route may be due that was not run. It looks at no route.
    pub fn is_any_due(&self, now: u64) -> bool
        ensures { result ≡ false → (key : RouteKey) (learned : Learned) → get self.now.routes key ≡ Some learned →
            is_waiting self.now.delay now learned ≡ false }
    {
        is_any_due(self.delay, now, self.earliest)
    }

    /// The routes that were learned, by key.
    pub fn routes(&self) -> &LearnedRoutes
        ensures { result.now.entries ≡ entries self.now.routes }
    {
        &self.routes
    }

    /// Whether the delay of the route is due, and was not run.
    pub fn is_waiting(&self, learned: &Learned, now: u64) -> bool
        ensures { result ≡ is_waiting self.now.delay now learned.now }
    {
        is_waiting(learned, self.delay, now)
    }

    /// How many routes are due and not run.
    pub fn due(&self, now: u64) -> u64
        ensures { result ≡ count_by (is_waiting self.now.delay now) (values self.now.routes) }
    {
        count_waiting(&self.routes, self.delay, now)
    }

    /// The tunnels that the egress wants for a flow of which the peer is the root: those of each matching route of which no
    /// more specific matching one has had its delay run. The most specific one is first, and those of one pattern are in
    /// order of route distinguisher.
    pub fn wanted(
        &self,
        alloc: Global,
        peer: NodeId,
        source: Addr,
        group: Addr,
    ) -> Result<Fecs, NoMemory>
        ensures { IfOk result (λ fecs. fecs ≡ map (λ route. route.fec) (wanted (peer_routes peer self.now.routes) source group)) }
    {
        let mut fecs = Seq::new(alloc);
        self.push_wanted(&mut fecs, peer, &patterns_of(source, group))?;
        Ok(fecs)
    }

    /// Appends the tunnels of the peer's routes of these patterns, up to the first pattern with a route whose delay was run.
    fn push_wanted(
        &self,
        fecs: &mut Fecs,
        peer: NodeId,
        patterns: &[Pattern],
    ) -> Result<(), NoMemory>
        ensures { OnOk result (fecs.new ≡ fecs.old ++ until_run peer patterns.now (entries self.now.routes)) }
    {
        for pattern in patterns {
            if self.push_routes(fecs, peer, *pattern)? {
                return Ok(());
            }
        }
        Ok(())
    }

    /// Appends the tunnels of the peer's routes of the pattern, and tells whether the delay of one was run.
    fn push_routes(&self, fecs: &mut Fecs, peer: NodeId, pattern: Pattern) -> Result<bool, NoMemory>
        ensures pushed { OnOk result (fecs.new ≡ fecs.old ++ fecs_of (routes_at peer pattern (entries self.now.routes))) }
        ensures run { IfOk result (λ run. run ≡ list_any (λ entry. entry.1.run) (routes_at peer pattern (entries self.now.routes))) }
    {
        let first = RouteKey {
            peer,
            pattern,
            place: Place::First,
        };
        let last = RouteKey {
            peer,
            pattern,
            place: Place::Last,
        };
        let mut run = false;
        for (_key, learned) in self.routes.range(first..=last) {
            fecs.push(learned.fec)?;
            run = run || learned.run;
        }
        Ok(run)
    }
}

/// The patterns of which the flow is one, the most specific first.
fn patterns_of(source: Addr, group: Addr) -> [Pattern; 4]
    ensures { result ≡ patterns_of source group }
{
    [
        Pattern {
            source: Some(source),
            group: Some(group),
        },
        Pattern {
            source: Some(source),
            group: None,
        },
        Pattern {
            source: None,
            group: Some(group),
        },
        Pattern {
            source: None,
            group: None,
        },
    ]
}
