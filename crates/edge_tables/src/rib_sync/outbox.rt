//! The table that a peer is to have.
ghost use Rattle.std.specs.Prelude.{◌≡◌, ◌↔◌, IsTrue, [], true, false, OnOk, OnErr};
ghost use Rattle.std.specs.Option.{option_copied};
ghost use Rattle.std.specs.FinMap as map;
ghost use Rattle.std.specs.FinMap.{IsAntisymmetric};
ghost use Rattle.table_laws.specs.Words.{IsExact};
ghost use Rattle.edge_tables.specs.rib_sync.Kept.{IsCopying};
ghost use Rattle.edge_tables.specs.rib_sync.Ribs.{rib_out, pending, flushed};

use crate::rib_sync::kept::Kept;
use crate::rib_sync::pending::Pending;
use mv_base::NoMemory;
use std::alloc::Global;
use std::marker::Model;

/// The routes that a peer is to have, and those that it was sent (an Adj-RIB-Out, RFC 4271 section 3.2).
#[derive(Drop)]
pub struct Outbox<K: Ord + Drop, V: Drop> {
    kept: Kept<K, V>,
}

impl<K: Ord + Drop, V: Drop> Model for Outbox<K, V> {
    ghost use Rattle.edge_tables.specs.rib_sync.Ribs.{Rows, rows_of};
    ghost use Rattle.edge_tables.specs.rib_sync.Kept.{kept_rib, IsWell};

    ghost Value = { Rows K V };

    ghost view = { λ o. rows_of (kept_rib K.cmp o.kept) };

    ghost invariant = { λ o. IsWell K.cmp o.kept };
}

impl<K: Clone + Ord + Drop, V: Clone + Eq + Drop> Outbox<K, V> {
    /// An outbox that is down and empty. It takes no memory.
    pub fn of(alloc: Global) -> Outbox<K, V>
        ensures { rib_out K.cmp result ≡ record { up = false; set = map.empty; sent = map.empty } }
    {
        Outbox {
            kept: Kept::of(alloc),
        }
    }

    /// The peer is to have this value at the key.
    pub fn set(&mut self, key: K, value: V) -> Result<(), NoMemory>
        requires keys { IsAntisymmetric K.cmp }
        requires values { IsExact V.eq }
        requires own_keys { IsCopying K.is_clone }
        requires own_values { IsCopying V.is_clone }
        ensures set { OnOk result (
            let old = rib_out K.cmp self.old in rib_out K.cmp self.new ≡ record old { set = map.insert old.set key value }) }
        ensures unchanged { OnErr result (self.new ≡ self.old) }
    {
        self.kept.set(key, value)
    }

    /// The peer is to have nothing at the key.
    pub fn unset(&mut self, key: &K) -> Result<(), NoMemory>
        requires keys { IsAntisymmetric K.cmp }
        requires own_keys { IsCopying K.is_clone }
        requires own_values { IsCopying V.is_clone }
        ensures unset { OnOk result (
            let old = rib_out K.cmp self.old in rib_out K.cmp self.new ≡ record old { set = map.remove old.set key.now }) }
        ensures unchanged { OnErr result (self.new ≡ self.old) }
    {
        self.kept.unset(key)
    }

    /// Brings the outbox up, with nothing sent: each key that is set is pending.
    pub fn replay_all(&mut self) -> Result<(), NoMemory>
        requires keys { IsAntisymmetric K.cmp }
        requires own_keys { IsCopying K.is_clone }
        requires own_values { IsCopying V.is_clone }
        ensures up { OnOk result (
            let old = rib_out K.cmp self.old in rib_out K.cmp self.new ≡ record old { up = true; sent = map.empty }) }
        ensures unchanged { OnErr result (self.new ≡ self.old) }
    {
        self.kept.replay_all()
    }

    /// Takes the outbox down: the peer has nothing.
    pub fn down(&mut self)
        ensures { rib_out K.cmp self.new ≡ record (rib_out K.cmp self.old) { up = false; sent = map.empty } }
    {
        self.kept.down();
    }

    /// Hands out the changes from what was sent to what is set, which from then on is sent. Applied in order to what was sent
    /// they give what is set (`new_table` of `table_laws`). While the outbox is down there is none.
    pub fn flush(&mut self) -> Pending<K, V>
        requires keys { IsAntisymmetric K.cmp }
        requires values { IsExact V.eq }
        ensures changes { result ≡ pending V.eq (rib_out K.cmp self.old) }
        ensures sent { rib_out K.cmp self.new ≡ flushed (rib_out K.cmp self.old) }
    {
        let (gone, news) = self.kept.take();
        Pending { gone, news }
    }

    /// Whether a flush would hand out no change, and leave what is kept as it is.
    pub fn is_flushed(&self) -> bool
        requires keys { IsAntisymmetric K.cmp }
        requires values { IsExact V.eq }
        ensures changes { IsTrue result ↔ (pending V.eq (rib_out K.cmp self.now) ≡ []) }
        ensures sent { result ≡ true → flushed (rib_out K.cmp self.now) ≡ rib_out K.cmp self.now }
    {
        self.kept.is_clear()
    }

    /// Whether the outbox is up.
    pub fn is_up(&self) -> bool
        ensures { result ≡ (rib_out K.cmp self.now).up }
    {
        self.kept.up
    }

    /// The value that is set at the key.
    pub fn get(&self, key: &K) -> Option<&V>
        ensures { option_copied result ≡ map.get (rib_out K.cmp self.now).set key.now }
    {
        self.kept.set.get(key)
    }
}
