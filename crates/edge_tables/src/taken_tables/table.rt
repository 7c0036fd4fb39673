//! The table of one peer.
ghost use Rattle.std.specs.Prelude.{◌≡◌, false, is_some, not, true, IfOk, OnErr};
ghost use Rattle.std.specs.Option.{option_copied};
ghost use Rattle.std.specs.FinMap as maps;
ghost use Rattle.edge_tables.specs.taken_tables.Running.{node_run, table_run};
ghost use Rattle.edge_tables.specs.taken_tables.Slots.{taken_in};

use crate::rib_sync::{Entries, Inbox};
use crate::taken_tables::entry::TakenEntry;
use crate::taken_tables::running::{
    TakenRoutes, earliest_of, earliest_with, is_any_over, run_routes,
};
use edge_routes::LocalVrf;
use edge_routes::route_order::KeptKey;
use mv_base::{Addr, NoMemory, NodeId};
use scenario_defs::Node;
use std::alloc::Global;
use std::marker::Model;

/// The routes that were taken from a peer, and the clock before which none of them was learned whose delay may still be run. Where no
/// delay can be over, a step of the clock goes through none of them.
#[derive(Drop)]
pub(crate) struct TakenTable {
    routes: TakenRoutes,
    earliest: Option<u64>,
}

impl Model for TakenTable {
    ghost use Rattle.edge_tables.specs.taken_tables.Running.{IsNoted};
    ghost use Rattle.edge_tables.specs.taken_tables.Slots.{Rows, taken_in};

    ghost Value = { Rows };

    ghost view = { λ t. t.routes };

    ghost invariant = { λ t. IsNoted t.earliest (taken_in t.routes) };
}

impl TakenTable {
    /// A table of no route. It takes no memory.
    pub(crate) fn of(alloc: Global) -> TakenTable
        ensures { taken_in result ≡ maps.empty }
    {
        TakenTable {
            routes: Inbox::of(alloc),
            earliest: None,
        }
    }

    /// The route of the key.
    pub(crate) fn get(&self, key: &KeptKey) -> Option<&TakenEntry>
        ensures { option_copied result ≡ maps.get (taken_in self.now) key.now }
    {
        self.routes.get(key)
    }

    /// The routes, in the order of their keys.
    pub(crate) fn iter(&self) -> Entries<'_, KeptKey, TakenEntry>
        ensures { result ≡ maps.entries (taken_in self.now) }
    {
        self.routes.iter()
    }

    /// Puts the route of the key, where there is none, and answers whether that is so.
    #[tactic(auto, using(edge_defs::proofs::KeyLemmas::key_exact))]
    pub(crate) fn enter(&mut self, key: &KeptKey, entry: TakenEntry) -> Result<bool, NoMemory>
        ensures fresh { IfOk result (λ fresh. fresh ≡ not (is_some (maps.get (taken_in self.old) key.now))) }
        ensures entered { IfOk result (λ fresh. fresh ≡ true → taken_in self.new ≡ maps.insert (taken_in self.old) key.now entry) }
        ensures stays { IfOk result (λ fresh. fresh ≡ false → self.new ≡ self.old) }
        ensures unchanged { OnErr result (self.new ≡ self.old) }
    {
        let own = key.share()?;
        let earliest = earliest_with(self.earliest, &own, &entry);
        let fresh = self.routes.enter(own, entry)?;
        self.earliest = earliest;
        Ok(fresh)
    }

    /// Takes out the route of the key. It takes no memory.
    #[tactic(auto, using(edge_defs::proofs::KeyLemmas::key_exact))]
    pub(crate) fn remove(&mut self, key: &KeptKey)
        ensures { taken_in self.new ≡ maps.remove (taken_in self.old) key.now }
    {
        self.routes.remove(key);
    }

    /// Runs the delays, where the peer is of that address.
    fn run_delays(&mut self, vrfs: &[LocalVrf], peer: Addr, delay: u64, now: u64)
        ensures { taken_in self.new ≡ table_run vrfs.now delay now peer (taken_in self.old) }
    {
        if !is_any_over(self.earliest, delay, now) {
            return;
        }
        run_routes(&mut self.routes, vrfs, peer, delay, now);
        self.earliest = earliest_of(&self.routes);
    }
}

/// Runs the delays of the table of a node.
pub(crate) fn run_node(
    table: &mut TakenTable,
    vrfs: &[LocalVrf],
    nodes: &[Node],
    delay: u64,
    now: u64,
    peer: NodeId,
)
    ensures { taken_in table.new ≡ node_run vrfs.now nodes.now delay now peer (taken_in table.old) }
{
    match nodes.get(usize::from(peer.0)) {
        None => {}
        Some(node) => table.run_delays(vrfs, node.addr, delay, now),
    }
}
