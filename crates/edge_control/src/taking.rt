//! Routes that peers withdraw and announce (RFC 4271 section 9.2).
ghost use Rattle.std.specs.Prelude.{◌≡◌, ◌<◌, ℕ, Some, false, true, length, is_some, not, IfOk, OnOk, OnErr};
ghost use Rattle.std.specs.FinMap as maps;
ghost use Rattle.bgp_messages.specs.declared.bgp_attributes.update.Change.TheVariants.{Unreach};
ghost use Rattle.bgp_messages.specs.bgp_update.Written.{IsWritableKey};
ghost use Rattle.mv_base.specs.core_walks.Core.{Core};
ghost use Rattle.edge_defs.specs.Place.{vrfs_from};
ghost use Rattle.edge_defs.specs.Steps.{taken_change};
ghost use Rattle.edge_tables.specs.taken_tables.Routes.{handed};
ghost use Rattle.edge_tables.specs.taken_tables.Tables.{changed_at, is_news, reach, route_at};
ghost use Rattle.control_laws.specs.Control.{control_of};
ghost use Rattle.edge_control.specs.Sound.{wants_of};
ghost use Rattle.edge_control.specs.Taking.{dropping, learning, route_of, turned_all};

use crate::control::EdgeControl;
use crate::each::{forget_in, learn_or_forget};
use edge_routes::edge_home::EdgeHome;
use edge_routes::route_order::TakenKey;
use edge_tables::taken_tables::{RouteValue, TakenTables, same_value};
use mv_base::{NoMemory, NodeId};
use vrf_trees::VrfTree;

/// Whether the value is another one than that of the route of the key that was taken from the peer.
fn is_news(taken: &TakenTables, peer: NodeId, key: &TakenKey, value: &RouteValue) -> bool
    ensures { result ≡ is_news (handed value.now) (route_at taken.now peer key.now) }
{
    match taken.get(peer, key.kept()) {
        None => true,
        Some(entry) => !same_value(&entry.value(), &value.lent()),
    }
}

/// The trees forget what they took of the route of the key that was taken from the peer, where there is one. It takes no memory.
fn drop_in(
    home: &EdgeHome,
    trees: &mut Vec<VrfTree>,
    taken: &TakenTables,
    peer: NodeId,
    key: &TakenKey,
)
    requires each { length trees.old.items ≡ length (vrfs_from home.now.me 0 home.now.scenario.vrfs) }
    requires known { is_some (maps.get taken.now peer) ≡ true → peer.0 < length home.now.scenario.nodes }
    ensures { (core : Core) (now : ℕ) → trees.new.items ≡ turned_all
        (dropping home.now core peer now key.now (route_at taken.now peer key.now))
        (vrfs_from home.now.me 0 home.now.scenario.vrfs) trees.old.items }
{
    match taken.get(peer, key.kept()) {
        None => {}
        Some(entry) => {
            let addr = home.addr_of(peer);
            forget_in(home, trees, peer, addr, key.key(), Some(entry.value()));
        }
    }
}

/// Shows that the key has a spelling.
fn spelled(key: &TakenKey)
    ensures { IsWritableKey key.now }
{
    let _key = key.key();
}

/// The trees take what their VRFs use of a route of that value at the key, where there was none. Where memory runs out, they forget
/// it again.
fn learn_said(
    home: &EdgeHome,
    trees: &mut Vec<VrfTree>,
    peer: NodeId,
    key: &TakenKey,
    value: &RouteValue,
    now: u64,
) -> Result<(), NoMemory>
    requires each { length trees.old.items ≡ length (vrfs_from home.now.me 0 home.now.scenario.vrfs) }
    requires known { peer.0 < length home.now.scenario.nodes }
    ensures learned { OnOk result ((core : Core) → trees.new.items ≡ turned_all
        (learning home.now core peer now key.now (Some (route_of (handed value.now) now)))
        (vrfs_from home.now.me 0 home.now.scenario.vrfs) trees.old.items) }
    ensures forgot { OnErr result ((core : Core) → trees.new.items ≡ turned_all
        (dropping home.now core peer now key.now (Some (route_of (handed value.now) now)))
        (vrfs_from home.now.me 0 home.now.scenario.vrfs) trees.old.items) }
{
    let addr = home.addr_of(peer);
    learn_or_forget(home, trees, peer, addr, key.key(), Some(value.lent()), now)
}

impl EdgeControl {
    /// The peer withdraws the route of the key: it is forgotten. It takes no memory.
    pub fn withdraw(&mut self, peer: NodeId, key: &TakenKey)
        ensures withdrawn { (now : ℕ) → control_of self.new ≡ record (control_of self.old) {
          peers = changed_at peer (λ taken. taken_change now taken (Unreach key.now)) self.old.peers;
        } }
        ensures home { self.new.home ≡ self.old.home }
        ensures wants { wants_of self.new.trees ≡ wants_of self.old.trees }
    {
        spelled(key);
        drop_in(&self.home, &mut self.trees, &self.taken, peer, key);
        self.taken.forget(peer, key);
    }

    /// The peer announces a route. Where it has none of the key, the route is taken; else nothing changes. It answers whether there was
    /// no route of the key. Where memory runs out, there is none.
    pub fn enter(
        &mut self,
        peer: NodeId,
        key: &TakenKey,
        value: &RouteValue,
        now: u64,
    ) -> Result<bool, NoMemory>
        ensures fresh { IfOk result (λ fresh. fresh ≡ not (is_some (route_at self.old.peers peer key.now))) }
        ensures entered { IfOk result (λ fresh. fresh ≡ true → control_of self.new ≡ record (control_of self.old) {
          peers = changed_at peer (λ taken. taken_change now taken (reach key.now (handed value.now))) self.old.peers;
        }) }
        ensures stays { IfOk result (λ fresh. fresh ≡ false → control_of self.new ≡ control_of self.old) }
        ensures unchanged { OnErr result (control_of self.new ≡ control_of self.old) }
        ensures home { self.new.home ≡ self.old.home }
        ensures wants { wants_of self.new.trees ≡ wants_of self.old.trees }
    {
        spelled(key);
        if !self.taken.is_up(peer) {
            return Ok(true);
        }
        if !self.taken.enter(peer, key, value, now)? {
            return Ok(false);
        }
        match learn_said(&self.home, &mut self.trees, peer, key, value, now) {
            Ok(()) => Ok(true),
            Err(fault) => {
                self.taken.forget(peer, key);
                Err(fault)
            }
        }
    }

    /// The peer announces the route of the key with that value. An equal one changes nothing, and takes no memory. Where memory runs
    /// out, the route of the key is withdrawn. A peer whose session is down changes nothing.
    pub fn announce(
        &mut self,
        peer: NodeId,
        key: &TakenKey,
        value: &RouteValue,
        now: u64,
    ) -> Result<(), NoMemory>
        ensures announced { OnOk result (control_of self.new ≡ record (control_of self.old) {
          peers = changed_at peer (λ taken. taken_change now taken (reach key.now (handed value.now))) self.old.peers;
        }) }
        ensures withdrawn { OnErr result (control_of self.new ≡ record (control_of self.old) {
          peers = changed_at peer (λ taken. taken_change now taken (Unreach key.now)) self.old.peers;
        }) }
        ensures news { OnErr result (is_news (handed value.now) (route_at self.old.peers peer key.now) ≡ true) }
        ensures home { self.new.home ≡ self.old.home }
        ensures wants { wants_of self.new.trees ≡ wants_of self.old.trees }
    {
        if !is_news(&self.taken, peer, key, value) {
            return Ok(());
        }
        self.withdraw(peer, key);
        match self.enter(peer, key, value, now) {
            Ok(_fresh) => Ok(()),
            Err(fault) => Err(fault),
        }
    }
}
