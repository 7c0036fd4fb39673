//! The table that was taken from a peer.
ghost use Rattle.std.specs.Prelude.{◌≡◌, Some, true, false, not, is_some, IfOk, OnOk, OnErr, if◌then◌else◌};
ghost use Rattle.std.specs.Option.{option_copied};
ghost use Rattle.std.specs.Ordering.{eq_by_cmp};
ghost use Rattle.std.specs.BTreeMap as tree;
ghost use Rattle.std.specs.BTreeMap.{IsOrdered, IsUnchanged};
ghost use Rattle.std.specs.FinMap as map;
ghost use Rattle.std.specs.FinMap.{IsAntisymmetric};
ghost use Rattle.std.specs.Map.Calls.{CallableOnEachPair, CalledAtPair, RetainsPairs, TakesPair};
ghost use Rattle.mv_base.specs.table_defs.Changes.{applied, key_of, value_of};
ghost use Rattle.edge_tables.specs.rib_sync.Ribs.{rib_in};

use mv_base::NoMemory;
use mv_base::table_defs::Change;
use std::alloc::Global;
use std::collections::btree_map::Entry;
use std::collections::{BTreeMap, btree_map};
use std::marker::Model;

/// Entries of an inbox, in the keys' order.
pub type Entries<'a, K, V> = btree_map::Iter<'a, K, V>;

/// The routes taken from a peer (an Adj-RIB-In, RFC 4271 section 3.2).
#[derive(Drop)]
pub struct Inbox<K: Ord + Drop, V: Drop> {
    map: BTreeMap<K, V>,
}

impl<K: Ord + Drop, V: Drop> Model for Inbox<K, V> {
    ghost use Rattle.std.specs.Prelude.{List};
    ghost use Rattle.std.specs.BTreeMap.{IsOrdered};

    ghost Value = { List (K × V) };

    ghost view = { λ i. i.map.entries };

    ghost invariant = { λ i. IsOrdered K.cmp i.map };
}

// Makes the change in a map.
fn make<K: Ord + Drop, V: Drop>(
    map: &mut BTreeMap<K, V>,
    change: Change<K, V>,
) -> Result<(), NoMemory>
    ensures made { OnOk result ((q : K) →
        tree.get K.cmp map.new q ≡ (if eq_by_cmp K.cmp (key_of change) q then value_of change else tree.get K.cmp map.old q)) }
    ensures unchanged { OnErr result (IsUnchanged map.old map.new) }
    ensures ordered { IsOrdered K.cmp map.new }
{
    match change {
        Change::Reach(key, value) => {
            map.insert(key, value)?;
        }
        Change::Unreach(key) => {
            map.remove(&key);
        }
    }
    Ok(())
}

// Puts the value at the key of a map, where it has none there, and answers whether that is so.
fn enter_in<K: Ord + Drop, V: Drop>(
    map: &mut BTreeMap<K, V>,
    key: K,
    value: V,
) -> Result<bool, NoMemory>
    ensures fresh { IfOk result (λ fresh. fresh ≡ not (is_some (tree.get K.cmp map.old key))) }
    ensures entered { IfOk result (λ fresh. fresh ≡ true → ((q : K) →
        tree.get K.cmp map.new q ≡ (if eq_by_cmp K.cmp key q then Some value else tree.get K.cmp map.old q))) }
    ensures stays { IfOk result (λ fresh. fresh ≡ false → IsUnchanged map.old map.new) }
    ensures unchanged { OnErr result (IsUnchanged map.old map.new) }
    ensures ordered { IsOrdered K.cmp map.new }
{
    let entry = match map.entry(key) {
        Ok(entry) => entry,
        Err(_refused) => return Err(NoMemory),
    };
    let fresh = match entry {
        Entry::Vacant(place) => {
            place.insert(value);
            true
        }
        Entry::Occupied(_taken) => false,
    };
    // It is known here that the keys ascend.
    let _ = map.len();
    Ok(fresh)
}

impl<K: Ord + Drop, V: Drop> Inbox<K, V> {
    /// An empty inbox. It takes no memory.
    pub fn of(alloc: Global) -> Inbox<K, V>
        ensures { rib_in K.cmp result ≡ map.empty }
    {
        Inbox {
            map: BTreeMap::new(alloc),
        }
    }

    /// Makes the change.
    pub fn apply(&mut self, change: Change<K, V>) -> Result<(), NoMemory>
        requires { IsAntisymmetric K.cmp }
        ensures applied { OnOk result (rib_in K.cmp self.new ≡ applied (rib_in K.cmp self.old) change) }
        ensures unchanged { OnErr result (self.new ≡ self.old) }
    {
        make(&mut self.map, change)
    }

    /// Puts the value at the key, where there is none, and answers whether that is so.
    pub fn enter(&mut self, key: K, value: V) -> Result<bool, NoMemory>
        requires { IsAntisymmetric K.cmp }
        ensures fresh { IfOk result (λ fresh. fresh ≡ not (is_some (map.get (rib_in K.cmp self.old) key))) }
        ensures entered { IfOk result (λ fresh. fresh ≡ true → rib_in K.cmp self.new ≡ map.insert (rib_in K.cmp self.old) key value) }
        ensures stays { IfOk result (λ fresh. fresh ≡ false → self.new ≡ self.old) }
        ensures unchanged { OnErr result (self.new ≡ self.old) }
    {
        enter_in(&mut self.map, key, value)
    }

    /// Takes out the entry at the key. It takes no memory.
    pub fn remove(&mut self, key: &K)
        requires { IsAntisymmetric K.cmp }
        ensures { rib_in K.cmp self.new ≡ map.remove (rib_in K.cmp self.old) key.now }
    {
        self.map.remove(key);
    }

    /// Calls the closure at each entry, in the keys' order. Those stay of which it answers `true`, each with the value that it
    /// leaves there. It takes no memory.
    pub fn retain<F: FnMut(&K, &mut V) -> bool>(&mut self, keep: F)
        requires { CallableOnEachPair (CalledAtPair F.FnMut) (TakesPair F.FnMut) keep self.old }
        ensures { RetainsPairs (CalledAtPair F.FnMut) keep (map.entries (rib_in K.cmp self.old)) (map.entries (rib_in K.cmp self.new)) }
    {
        self.map.retain(keep);
    }

    /// Takes out all entries.
    pub fn clear(&mut self)
        ensures { rib_in K.cmp self.new ≡ map.empty }
    {
        self.map.clear();
    }

    /// The value at the key.
    pub fn get(&self, key: &K) -> Option<&V>
        ensures { option_copied result ≡ map.get (rib_in K.cmp self.now) key.now }
    {
        self.map.get(key)
    }

    /// The entries, in the keys' order.
    pub fn iter(&self) -> Entries<'_, K, V>
        ensures { result ≡ map.entries (rib_in K.cmp self.now) }
    {
        self.map.iter()
    }
}
