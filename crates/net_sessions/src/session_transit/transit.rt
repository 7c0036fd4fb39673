//! The octets in transit over the sessions of a network.
ghost use Rattle.std.specs.Prelude.{◌≡◌, length, take, IfOk, OnOk, OnErr};
ghost use Rattle.net_sessions.specs.session_transit.TransitData.{nothing_joined, direction, is_joined_at, octets_at, total_of};
ghost use Rattle.net_sessions.specs.session_transit.TransitData.{is_of_session, is_at, Joins, Loses, Puts, Takes};

use crate::session_transit::sessions;
use crate::session_transit::sessions::{Sessions, key_of};
use indexmap::IndexMap;
use mv_base::{Bytes, NoMemory, NodeId};
use network_defs::session_defs::Direction;
use scenario_defs::Kind;
use std::alloc::Global;
use std::marker::Model;

/// The octets in transit over the sessions of a network, and which of them are joined. Contracts see it as a `TransitData`.
#[derive(Drop)]
pub struct Transit {
    alloc: Global,
    sessions: Sessions,
    /// How many octets are in transit, of all directions together.
    total: u64,
}

impl Model for Transit {
    ghost use Rattle.std.specs.Prelude.{◌≡◌};
    ghost use Rattle.indexmap.specs.IndexMap.{IsUnique};
    ghost use Rattle.net_sessions.specs.session_transit.TransitData.{TransitData, transit_code};
    ghost use Rattle.net_sessions.specs.session_transit.Kept.{is_key, transit_of, held};

    ghost Value = { TransitData };

    ghost coded = { transit_code };

    ghost view = { λ s. transit_of s.sessions };

    ghost invariant = { λ s. IsUnique is_key s.sessions × (s.total ≡ held s.sessions) };
}

impl Transit {
    /// Nothing is joined, and nothing is in transit. It takes no memory.
    pub fn of(alloc: Global) -> Transit
        ensures { result ≡ nothing_joined }
    {
        Transit {
            alloc,
            sessions: IndexMap::new(alloc),
            total: 0,
        }
    }

    /// The session is joined: both its directions are, with nothing in transit there.
    pub fn join(&mut self, kind: Kind, a: NodeId, b: NodeId) -> Result<(), NoMemory>
        ensures joined { OnOk result (Joins (is_of_session kind a b) self.old self.new) }
        ensures same { OnErr result (self.new ≡ self.old) }
    {
        let one = key_of(kind, a, b);
        let other = key_of(kind, b, a);
        sessions::join(&mut self.sessions, &mut self.total, self.alloc, one, other)
    }

    /// The session is lost: none of its directions is joined, and what was in transit there is gone. It takes no memory.
    pub fn lose(&mut self, kind: Kind, a: NodeId, b: NodeId)
        ensures { Loses (is_of_session kind a b) self.old self.new }
    {
        let one = key_of(kind, a, b);
        let other = key_of(kind, b, a);
        sessions::lose(&mut self.sessions, &mut self.total, one, other);
    }

    /// All sessions of the node are lost, and what was in transit there is gone. It takes no memory.
    pub fn lose_all(&mut self, node: NodeId)
        ensures { Loses (is_at node) self.old self.new }
    {
        sessions::lose_all(&mut self.sessions, &mut self.total, node);
    }

    /// Puts the octets after those in transit over the direction, where its session is joined. Elsewhere they are lost.
    pub fn put(&mut self, over: Direction, octets: &[u8]) -> Result<(), NoMemory>
        ensures put { OnOk result (Puts over octets.now self.old self.new) }
        ensures same { OnErr result (self.new ≡ self.old) }
    {
        let at = key_of(over.kind, over.from, over.to);
        sessions::put(&mut self.sessions, &mut self.total, at, octets)
    }

    /// Takes the first so many octets in transit over the direction, or all where there are fewer.
    pub fn take(&mut self, over: Direction, count: usize) -> Result<Bytes, NoMemory>
        ensures taken { IfOk result (λ bytes. bytes ≡ take count (octets_at self.old over)) }
        ensures rest { OnOk result (Takes over count self.old self.new) }
        ensures same { OnErr result (self.new ≡ self.old) }
    {
        let at = key_of(over.kind, over.from, over.to);
        sessions::take(&mut self.sessions, &mut self.total, self.alloc, at, count)
    }

    /// Whether the session is joined, as the direction from the first node says it. It takes no memory.
    pub fn is_joined(&self, kind: Kind, a: NodeId, b: NodeId) -> bool
        ensures { result ≡ is_joined_at self.now (direction kind a b) }
    {
        self.sessions.contains_key(&key_of(kind, a, b))
    }

    /// How many octets are in transit over the direction. It takes no memory.
    pub fn waiting(&self, over: Direction) -> usize
        ensures { result ≡ length (octets_at self.now over) }
    {
        sessions::waiting(&self.sessions, key_of(over.kind, over.from, over.to))
    }

    /// How many octets are in transit over all directions together. It takes no memory.
    pub fn total(&self) -> u64
        ensures { result ≡ total_of self.now }
    {
        self.total
    }
}
