//! What is kept towards all peers.
ghost use Rattle.std.specs.Prelude.{◌≡◌, ◌<◌, ◌⊎◌, [], true, length, map, position, IfOk, IfSome, OnOk, OnErr};
ghost use Rattle.std.specs.List.{All, AllZip};
ghost use Rattle.std.specs.FinMap.{from_entries};
ghost use Rattle.edge_tables.specs.Tables.{AtPeer, EachPeer, IsPutPart, downed, fresh, is_up_at, put_after, raised, waiting_at};
ghost use Rattle.edge_tables.specs.Tables.{with_route, without_route};
ghost use Rattle.edge_tables.specs.Slots.{Becomes, IsPutAt, HasActivity, IsSilentAt, is_of};

use crate::announced::Announced;
use crate::slot::{SharedKey, SharedValue, Slot};
use edge_routes::Shared;
use edge_routes::route_order::{TableKey, TableValue};
use mv_base::{Bytes, NoMemory, NodeId};
use std::alloc::Global;
use std::marker::Model;

/// What is known of all slots, so that a call that has nothing to do looks at none of them.
#[derive(Clone, Copy, Drop)]
enum Activity {
    /// Nothing is known.
    Unknown,
    /// Nothing is pending at any.
    Put,
    /// Nothing is pending at any, and nothing waits.
    Silent,
}

/// The tables that an edge holds towards its peers, whether the end of each session is up, what each peer was sent, and the
/// octets that wait for it. Contracts see them as a finite map from peers. A call for a peer that is none of these changes
/// nothing.
#[derive(Drop)]
pub struct EdgeTables {
    alloc: Global,
    slots: Vec<Slot>,
    activity: Activity,
}

impl Model for EdgeTables {
    ghost use Rattle.edge_tables.specs.Tables.{Tables, tables_code};

    ghost Value = { Tables };

    ghost coded = { tables_code };

    ghost use Rattle.edge_tables.specs.Slots.{tables_of};
    ghost use Rattle.edge_tables.specs.Slots.{HasActivity};

    ghost view = { λ t. tables_of t.slots.items };

    ghost invariant = { λ t. HasActivity t.activity t.slots.items };
}

/// The place of the peer.
fn place_of(slots: &[Slot], peer: NodeId) -> Option<usize>
    ensures place { result ≡ position (is_of peer) slots.now }
    ensures within { IfSome result (λ place. place < length slots.now) }
{
    slots.iter().position(|slot| peer.0 == slot.peer.0)
}

/// Whether nothing is pending at any slot.
fn are_put(slots: &[Slot]) -> bool
    ensures { result ≡ true → All IsPutAt slots.now }
{
    for slot in slots {
        if !slot.is_put() {
            return false;
        }
    }
    true
}

/// Whether nothing waits at any slot.
fn are_silent(slots: &[Slot]) -> bool
    ensures { result ≡ true → All IsSilentAt slots.now }
{
    for slot in slots {
        if !slot.waiting.is_empty() {
            return false;
        }
    }
    true
}

/// What is known of the slots.
fn activity_of(slots: &[Slot]) -> Activity
    ensures { HasActivity result slots.now }
{
    if !are_put(slots) {
        return Activity::Unknown;
    }
    if are_silent(slots) {
        Activity::Silent
    } else {
        Activity::Put
    }
}

/// Sets the route in each table.
fn set_each(slots: &mut [Slot], key: &SharedKey, value: &SharedValue) -> Result<(), NoMemory>
    ensures set { OnOk result (
        AllZip (Becomes (λ old new. new ≡ with_route key.now value.now old)) slots.old slots.new) }
    ensures partly { OnErr result (
        AllZip (Becomes (λ old new. (new ≡ old) ⊎ (new ≡ with_route key.now value.now old))) slots.old slots.new) }
{
    for slot in slots.iter_mut() {
        slot.set(key, value)?;
    }
    Ok(())
}

/// Takes the route out of each table.
fn unset_each(slots: &mut [Slot], key: &TableKey) -> Result<(), NoMemory>
    ensures unset { OnOk result (
        AllZip (Becomes (λ old new. new ≡ without_route key.now old)) slots.old slots.new) }
    ensures partly { OnErr result (
        AllZip (Becomes (λ old new. (new ≡ old) ⊎ (new ≡ without_route key.now old))) slots.old slots.new) }
{
    for slot in slots.iter_mut() {
        slot.unset(key)?;
    }
    Ok(())
}

/// Puts to each peer what changed.
fn put_each(slots: &mut [Slot]) -> Result<(), NoMemory>
    ensures put { OnOk result (AllZip (Becomes (λ old new. new ≡ put_after old)) slots.old slots.new) }
    ensures partly { OnErr result (AllZip (Becomes IsPutPart) slots.old slots.new) }
{
    for slot in slots.iter_mut() {
        slot.put()?;
    }
    Ok(())
}

impl EdgeTables {
    /// Tables towards these peers: each session is down, and each table empty.
    pub fn of(alloc: Global, peers: &[NodeId]) -> Result<EdgeTables, NoMemory>
        ensures { IfOk result (λ tables. tables ≡ from_entries (map (λ peer. (peer, fresh)) peers.now)) }
    {
        let mut slots = Vec::new(alloc);
        for peer in peers {
            slots.push(Slot::of(alloc, *peer))?;
        }
        Ok(EdgeTables {
            alloc,
            slots,
            activity: Activity::Unknown,
        })
    }

    /// Each peer is to have this route. Where memory runs out, some of the tables have the change and the others are as before.
    pub fn set(&mut self, key: &TableKey, value: &TableValue) -> Result<(), NoMemory>
        ensures set { OnOk result (
            EachPeer (λ old new. new ≡ with_route key.now value.now old) self.old self.new) }
        ensures partly { OnErr result (
            EachPeer (λ old new. (new ≡ old) ⊎ (new ≡ with_route key.now value.now old)) self.old self.new) }
    {
        let key = Shared::of(self.alloc, *key)?;
        let value = Announced::of(self.alloc, &key, value)?;
        self.activity = Activity::Unknown;
        set_each(&mut self.slots, &key, &value)
    }

    /// No peer is to have a route of this key. Where memory runs out, some of the tables have the change and the others are as
    /// before.
    pub fn unset(&mut self, key: &TableKey) -> Result<(), NoMemory>
        ensures unset { OnOk result (
            EachPeer (λ old new. new ≡ without_route key.now old) self.old self.new) }
        ensures partly { OnErr result (
            EachPeer (λ old new. (new ≡ old) ⊎ (new ≡ without_route key.now old)) self.old self.new) }
    {
        self.activity = Activity::Unknown;
        unset_each(&mut self.slots, key)
    }

    /// This peer alone is to have this route, as it has a Source Tree Join (RFC 6514 section 11.1.3).
    pub fn set_for(
        &mut self,
        peer: NodeId,
        key: &TableKey,
        value: &TableValue,
    ) -> Result<(), NoMemory>
        ensures set { OnOk result (
            AtPeer peer (λ old new. new ≡ with_route key.now value.now old) self.old self.new) }
        ensures unchanged { OnErr result (self.new ≡ self.old) }
    {
        match place_of(&self.slots, peer) {
            None => Ok(()),
            Some(place) => {
                let key = Shared::of(self.alloc, *key)?;
                let value = Announced::of(self.alloc, &key, value)?;
                self.activity = Activity::Unknown;
                self.slots[place].set(&key, &value)
            }
        }
    }

    /// This peer alone is to have no route of this key.
    pub fn unset_for(&mut self, peer: NodeId, key: &TableKey) -> Result<(), NoMemory>
        ensures unset { OnOk result (
            AtPeer peer (λ old new. new ≡ without_route key.now old) self.old self.new) }
        ensures unchanged { OnErr result (self.new ≡ self.old) }
    {
        match place_of(&self.slots, peer) {
            None => Ok(()),
            Some(place) => {
                self.activity = Activity::Unknown;
                self.slots[place].unset(key)
            }
        }
    }

    /// The end of the session is up, and the peer was sent nothing: each of its routes is pending.
    pub fn raise(&mut self, peer: NodeId) -> Result<(), NoMemory>
        ensures raised { OnOk result (AtPeer peer (λ old new. new ≡ raised old) self.old self.new) }
        ensures unchanged { OnErr result (self.new ≡ self.old) }
    {
        match place_of(&self.slots, peer) {
            None => Ok(()),
            Some(place) => {
                self.activity = Activity::Unknown;
                self.slots[place].raise()
            }
        }
    }

    /// The end of the session is down: the peer has nothing, and what waits for it is dropped. It takes no memory.
    pub fn down(&mut self, peer: NodeId)
        ensures { AtPeer peer (λ old new. new ≡ downed old) self.old self.new }
    {
        match place_of(&self.slots, peer) {
            None => {}
            Some(place) => {
                self.activity = Activity::Unknown;
                self.slots[place].down();
            }
        }
    }

    /// Whether the end of the session is up.
    pub fn is_up(&self, peer: NodeId) -> bool
        ensures { result ≡ is_up_at self.now peer }
    {
        match place_of(&self.slots, peer) {
            None => false,
            Some(place) => self.slots[place].table.is_up(),
        }
    }

    /// Puts to each peer whose end is up the changes since it was sent last, after what waits: withdrawals first, each kind in
    /// the order of keys, each change in an UPDATE message of its own (RFC 4271 section 4.3). It costs what is pending.
    pub fn put(&mut self) -> Result<(), NoMemory>
        ensures put { OnOk result (EachPeer (λ old new. new ≡ put_after old) self.old self.new) }
        // Where memory runs out each peer is as before, or was sent all with some first messages waiting.
        ensures partly { OnErr result (EachPeer IsPutPart self.old self.new) }
    {
        match self.activity {
            Activity::Put | Activity::Silent => Ok(()),
            Activity::Unknown => {
                put_each(&mut self.slots)?;
                self.activity = activity_of(&self.slots);
                Ok(())
            }
        }
    }

    /// Hands out all octets that wait for the peer. It takes no memory.
    pub fn take_out(&mut self, peer: NodeId) -> Bytes
        ensures result { result ≡ waiting_at self.old peer }
        ensures taken { AtPeer peer (λ old new. new ≡ record old { waiting = [] }) self.old self.new }
    {
        if let Activity::Silent = self.activity {
            return Bytes::new(self.alloc);
        }
        match place_of(&self.slots, peer) {
            None => Bytes::new(self.alloc),
            Some(place) => {
                if self.slots[place].waiting.is_empty() {
                    return Bytes::new(self.alloc);
                }
                let taken = self.slots[place].take_out();
                self.activity = activity_of(&self.slots);
                taken
            }
        }
    }
}
