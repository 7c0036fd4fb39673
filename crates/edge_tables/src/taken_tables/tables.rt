//! The tables of all peers.
ghost use Rattle.std.specs.Prelude.{◌≡◌, ℕ, false, is_some, not, option_map, true, IfOk, OnOk, OnErr};
ghost use Rattle.std.specs.Option.{option_copied};
ghost use Rattle.std.specs.FinMap as maps;
ghost use Rattle.edge_defs.specs.Edge.{Taken};
ghost use Rattle.edge_defs.specs.Place.{EdgePlace};
ghost use Rattle.edge_defs.specs.Steps.{peers_run, taken_change};
ghost use Rattle.bgp_messages.specs.declared.bgp_attributes.update.Change.TheVariants.{Unreach};
ghost use Rattle.edge_tables.specs.taken_tables.Routes.{handed};
ghost use Rattle.edge_tables.specs.taken_tables.Running.{IsOf, node_run};
ghost use Rattle.edge_tables.specs.taken_tables.Slots.{taken_in};
ghost use Rattle.edge_tables.specs.taken_tables.Tables.{AreSpelled, changed_at, reach, route_at};

use crate::rib_sync::Entries;
use crate::taken_tables::entry::{RouteValue, TakenEntry};
use crate::taken_tables::slots::{Slots, enter_from, forget_from};
use crate::taken_tables::table::{TakenTable, run_node};
use edge_routes::LocalVrf;
use edge_routes::route_order::{KeptKey, TakenKey};
use mv_base::{NoMemory, NodeId};
use scenario_defs::Node;
use std::alloc::Global;
use std::collections::BTreeMap;
use std::marker::Model;

/// The routes of one peer, in the order of their keys.
pub type TableEntries<'a> = Entries<'a, KeptKey, TakenEntry>;

/// The peers whose session is up here, each with the routes that were taken from it. Each key has a spelling. Nothing is taken
/// from another peer.
#[derive(Drop)]
pub struct TakenTables {
    alloc: Global,
    slots: Slots,
}

impl Model for TakenTables {
    ghost use Rattle.edge_tables.specs.taken_tables.Tables.{AreSpelled, Tables, tables_code};
    ghost use Rattle.edge_tables.specs.taken_tables.Slots.{tables_of};

    ghost Value = { Tables };

    ghost coded = { tables_code };

    ghost view = { λ t. tables_of t.slots.entries };

    ghost invariant = { λ t. AreSpelled (tables_of t.slots.entries) };
}

impl TakenTables {
    /// No session is up. It takes no memory.
    pub fn of(alloc: Global) -> TakenTables
        ensures { result ≡ maps.empty }
    {
        TakenTables {
            alloc,
            slots: BTreeMap::new(alloc),
        }
    }

    /// The end of the session is up, and nothing was taken from the peer.
    pub fn raise(&mut self, peer: NodeId) -> Result<(), NoMemory>
        ensures raised { OnOk result (self.new ≡ maps.insert self.old peer maps.empty) }
        ensures unchanged { OnErr result (self.new ≡ self.old) }
    {
        self.slots.insert(peer.0, TakenTable::of(self.alloc))?;
        Ok(())
    }

    /// The end of the session is down: all that was taken from the peer is forgotten. It takes no memory.
    pub fn lose(&mut self, peer: NodeId)
        ensures { self.new ≡ maps.remove self.old peer }
    {
        self.slots.remove(&peer.0);
    }

    /// Whether the end of the session is up.
    pub fn is_up(&self, peer: NodeId) -> bool
        ensures { result ≡ maps.contains_key self.now peer }
    {
        self.slots.contains_key(&peer.0)
    }

    /// Takes a route from the peer at the clock, where the end of the session is up and none of the key was taken from it. It answers
    /// whether there was no route of the key.
    pub fn enter(
        &mut self,
        peer: NodeId,
        key: &TakenKey,
        value: &RouteValue,
        now: u64,
    ) -> Result<bool, NoMemory>
        ensures fresh { IfOk result (λ fresh. fresh ≡ not (is_some (route_at self.old peer key.now))) }
        ensures entered { IfOk result (λ fresh. fresh ≡ true →
            self.new ≡ changed_at peer (λ taken. taken_change now taken (reach key.now (handed value.now))) self.old) }
        ensures stays { IfOk result (λ fresh. fresh ≡ false → self.new ≡ self.old) }
        ensures unchanged { OnErr result (self.new ≡ self.old) }
    {
        enter_from(&mut self.slots, peer, key, value, now)
    }

    /// Forgets the route of the key that was taken from the peer. It takes no memory.
    pub fn forget(&mut self, peer: NodeId, key: &TakenKey)
        ensures { (now : ℕ) → self.new ≡ changed_at peer (λ taken. taken_change now taken (Unreach key.now)) self.old }
    {
        forget_from(&mut self.slots, peer, key);
    }

    /// The route of the key that was taken from the peer.
    pub fn get(&self, peer: NodeId, key: &KeptKey) -> Option<&TakenEntry>
        ensures route { option_copied result ≡ route_at self.now peer key.now }
        ensures spelled { AreSpelled self.now }
    {
        match self.slots.get(&peer.0) {
            None => None,
            Some(table) => table.get(key),
        }
    }

    /// The routes that were taken from the peer, where the end of the session is up.
    pub fn entries(&self, peer: NodeId) -> Option<TableEntries<'_>>
        ensures entries { result ≡ option_map (λ (taken : Taken). maps.entries taken) (maps.get self.now peer) }
        ensures spelled { AreSpelled self.now }
    {
        match self.slots.get(&peer.0) {
            None => None,
            Some(table) => Some(table.iter()),
        }
    }

    /// Runs the delay of each selective route that one of the VRFs of the edge imports, where it is over at the clock. It takes
    /// no memory.
    pub fn run_delays(&mut self, vrfs: &[LocalVrf], nodes: &[Node], delay: u64, now: u64)
        ensures { (place : EdgePlace) → IsOf place vrfs.now nodes.now delay self.old → self.new ≡ peers_run place now self.old }
    {
        self.slots.retain(
            |peer: &u16, table: &mut TakenTable| -> bool
                ensures { (result ≡ true) × (taken_in table.new
                    ≡ node_run vrfs.entry.now nodes.entry.now delay now (record { 0 = peer.now }) (taken_in table.old)) }
            {
                run_node(table, vrfs, nodes, delay, now, NodeId(*peer));
                true
            },
        );
    }
}
