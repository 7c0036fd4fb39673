//! What is kept towards one peer.
ghost use Rattle.std.specs.Prelude.{◌≡◌, [], true, OnOk, OnErr};
ghost use Rattle.edge_tables.specs.Tables.{IsPutPart, downed, fresh, put_after, raised, with_route, without_route};
ghost use Rattle.edge_tables.specs.Slots.{IsPutAt, peer_table};

use crate::announced::Announced;
use crate::rib_sync::Outbox;
use crate::writing::put_changes;
use edge_routes::Shared;
use edge_routes::route_order::TableKey;
use mv_base::{Bytes, NoMemory, NodeId};
use std::alloc::Global;
use std::mem;

/// A key, and a value, that the tables of several peers have.
pub(crate) type SharedKey = Shared<TableKey>;

pub(crate) type SharedValue = Shared<Announced>;

/// A peer with its table and the octets that wait for it.
#[derive(Drop)]
pub(crate) struct Slot {
    pub(crate) peer: NodeId,
    pub(crate) table: Outbox<SharedKey, SharedValue>,
    pub(crate) waiting: Bytes,
}

impl Slot {
    pub(crate) fn of(alloc: Global, peer: NodeId) -> Slot
        ensures peer { result.peer ≡ peer }
        ensures fresh { peer_table result ≡ fresh }
    {
        Slot {
            peer,
            table: Outbox::of(alloc),
            waiting: Bytes::new(alloc),
        }
    }

    #[tactic(auto, using(edge_defs::proofs::KeyLemmas::key_exact, edge_defs::proofs::KeyLemmas::value_exact))]
    pub(crate) fn set(&mut self, key: &SharedKey, value: &SharedValue) -> Result<(), NoMemory>
        ensures peer { self.new.peer ≡ self.old.peer }
        ensures set { OnOk result (peer_table self.new ≡ with_route key.now value.now (peer_table self.old)) }
        ensures unchanged { OnErr result (self.new ≡ self.old) }
    {
        self.table.set(key.share()?, value.share()?)
    }

    #[tactic(auto, using(edge_defs::proofs::KeyLemmas::key_exact))]
    pub(crate) fn unset(&mut self, key: &TableKey) -> Result<(), NoMemory>
        ensures peer { self.new.peer ≡ self.old.peer }
        ensures unset { OnOk result (peer_table self.new ≡ without_route key.now (peer_table self.old)) }
        ensures unchanged { OnErr result (self.new ≡ self.old) }
    {
        let shared = Shared::of(self.waiting.alloc(), *key)?;
        self.table.unset(&shared)
    }

    #[tactic(auto, using(edge_defs::proofs::KeyLemmas::key_exact))]
    pub(crate) fn raise(&mut self) -> Result<(), NoMemory>
        ensures peer { self.new.peer ≡ self.old.peer }
        ensures raised { OnOk result (peer_table self.new ≡ raised (peer_table self.old)) }
        ensures unchanged { OnErr result (self.new ≡ self.old) }
    {
        self.table.replay_all()
    }

    /// Whether the peer was sent all that it is to have.
    #[tactic(auto, using(edge_defs::proofs::KeyLemmas::key_exact, edge_defs::proofs::KeyLemmas::value_exact))]
    pub(crate) fn is_put(&self) -> bool
        ensures { result ≡ true → IsPutAt self.now }
    {
        self.table.is_flushed()
    }

    pub(crate) fn down(&mut self)
        ensures peer { self.new.peer ≡ self.old.peer }
        ensures downed { peer_table self.new ≡ downed (peer_table self.old) }
    {
        self.table.down();
        self.waiting.clear();
    }

    #[tactic(auto, using(edge_defs::proofs::KeyLemmas::key_exact, edge_defs::proofs::KeyLemmas::value_exact))]
    pub(crate) fn put(&mut self) -> Result<(), NoMemory>
        ensures peer { self.new.peer ≡ self.old.peer }
        ensures put { OnOk result (peer_table self.new ≡ put_after (peer_table self.old)) }
        ensures partly { OnErr result (IsPutPart (peer_table self.old) (peer_table self.new)) }
    {
        if self.table.is_flushed() {
            return Ok(());
        }
        let pending = self.table.flush();
        put_changes(&mut self.waiting, pending)
    }

    pub(crate) fn take_out(&mut self) -> Bytes
        ensures result { result ≡ (peer_table self.old).waiting }
        ensures peer { self.new.peer ≡ self.old.peer }
        ensures taken { peer_table self.new ≡ record (peer_table self.old) { waiting = [] } }
    {
        let alloc = self.waiting.alloc();
        mem::replace(&mut self.waiting, Bytes::new(alloc))
    }
}
