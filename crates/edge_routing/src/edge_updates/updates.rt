//! UPDATE messages of a peer, change by change.
ghost use Rattle.std.specs.Prelude.{◌≡◌, ℕ, false, true, [], ◌∷◌, ◌++◌, IfOk, OnOk};
ghost use Rattle.std.specs.List.{AllByRecursion};
ghost use Rattle.mv_base.specs.core_walks.Core.{Core};
ghost use Rattle.bgp_messages.specs.declared.bgp_attributes.update.Change.TheVariants.{Reach, Unreach};
ghost use Rattle.bgp_messages.specs.bgp_update.Table.{announced, unannounced};
ghost use Rattle.bgp_messages.specs.bgp_update.Written.{IsWritableAdvert, IsWritableKey};
ghost use Rattle.edge_streams.specs.Spelled.{SaysWritable};
ghost use Rattle.edge_defs.specs.Steps as steps;
ghost use Rattle.edge_routes.specs.edge_home.Home.{place_of};
ghost use Rattle.edge_control.specs.edge_tables.taken_tables.Routes.{handed};
ghost use Rattle.edge_control.specs.edge_tables.taken_tables.Tables.{reach};
ghost use Rattle.control_laws.specs.Control.{control_of};
ghost use Rattle.edge_control.specs.Sound.{wants_of};
ghost use Rattle.edge_routing.specs.edge_updates.Inclusive.{AreTunnels};
ghost use Rattle.edge_routing.specs.edge_updates.Changed.{AreTaken};

use crate::edge_updates::inclusive::{append_at, append_by};
use bgp_messages::bgp_attributes::{Advert, Key, Message, Update};
use edge_control::EdgeControl;
use edge_control::of_edge_tables::taken_tables::RouteValue;
use edge_routes::route_order::{KeptKey, TakenKey};
use mldp::mldp_fec::Fec;
use mv_base::{NoMemory, NodeId};
use std::alloc::Global;

/// Inclusive tunnels that may come or go, in no order; one may be there more than once. Beside them is the key of the last route that was
/// announced: where one of them came, it most likely came by that, so it is looked at first.
#[derive(Drop)]
pub struct TunnelChanges {
    pub tunnels: Vec<Fec>,
    pub near: Option<KeptKey>,
}

/// The peer withdraws the route of the key. The tunnels that may go are appended.
fn withdraw(
    control: &mut EdgeControl,
    fecs: &mut Vec<Fec>,
    peer: NodeId,
    key: &Key,
) -> Result<(), NoMemory>
    requires { IsWritableKey key.now }
    ensures taken { (now : ℕ) → OnOk result (
        AreTaken now peer (Unreach key.now ∷ []) control.old control.new fecs.old.items fecs.new.items) }
    ensures home { control.new.home ≡ control.old.home }
    ensures wants { wants_of control.new.trees ≡ wants_of control.old.trees }
{
    let own = TakenKey::of(*fecs.allocator(), key)?;
    append_at(fecs, control, peer, &own)?;
    control.withdraw(peer, &own);
    Ok(())
}

/// The peer announces a route. Where it has none of the key, the route is taken, and the tunnels that may come are appended; else nothing
/// changes. It answers whether there was no route of the key.
fn enter(
    control: &mut EdgeControl,
    fecs: &mut Vec<Fec>,
    peer: NodeId,
    key: &TakenKey,
    value: &RouteValue,
    now: u64,
) -> Result<bool, NoMemory>
    ensures taken { IfOk result (λ fresh. fresh ≡ true →
        AreTaken now peer (reach key.now (handed value.now) ∷ []) control.old control.new fecs.old.items fecs.new.items) }
    ensures stays { IfOk result (λ fresh. fresh ≡ false → AreTaken now peer [] control.old control.new fecs.old.items fecs.new.items) }
    ensures home { control.new.home ≡ control.old.home }
    ensures wants { wants_of control.new.trees ≡ wants_of control.old.trees }
{
    if !control.enter(peer, key, value, now)? {
        return Ok(false);
    }
    append_by(fecs, control, peer, key, &value.lent())?;
    Ok(true)
}

/// The peer announces a route, of a key of which it may have one. The tunnels that may come or go are appended.
fn announce_again(
    control: &mut EdgeControl,
    fecs: &mut Vec<Fec>,
    peer: NodeId,
    key: &TakenKey,
    value: &RouteValue,
    now: u64,
) -> Result<(), NoMemory>
    ensures taken { OnOk result (
        AreTaken now peer (reach key.now (handed value.now) ∷ []) control.old control.new fecs.old.items fecs.new.items) }
    ensures home { control.new.home ≡ control.old.home }
    ensures wants { wants_of control.new.trees ≡ wants_of control.old.trees }
{
    append_at(fecs, control, peer, key)?;
    control.announce(peer, key, value, now)?;
    append_at(fecs, control, peer, key)
}

/// The peer announces the route. The tunnels that may come or go are appended. It answers the key.
fn announce(
    control: &mut EdgeControl,
    fecs: &mut Vec<Fec>,
    peer: NodeId,
    advert: &Advert,
    now: u64,
) -> Result<KeptKey, NoMemory>
    requires { IsWritableKey advert.now.key }
    ensures taken { OnOk result (AreTaken now peer (Reach advert.now ∷ []) control.old control.new fecs.old.items fecs.new.items) }
    ensures home { control.new.home ≡ control.old.home }
    ensures wants { wants_of control.new.trees ≡ wants_of control.old.trees }
{
    let alloc = *fecs.allocator();
    let own = TakenKey::of(alloc, &advert.key)?;
    let value = RouteValue::of(
        alloc,
        advert.next_hop,
        advert.comms.as_slice(),
        &advert.pmsi,
    )?;
    if enter(control, fecs, peer, &own, &value, now)? {
        return Ok(own.into_kept());
    }
    announce_again(control, fecs, peer, &own, &value, now)?;
    Ok(own.into_kept())
}

/// The peer withdraws the routes of the keys, one after another.
fn withdraw_all(
    control: &mut EdgeControl,
    fecs: &mut Vec<Fec>,
    peer: NodeId,
    keys: &[Key],
) -> Result<(), NoMemory>
    requires { AllByRecursion IsWritableKey keys.now }
    ensures taken { (now : ℕ) → OnOk result (
        AreTaken now peer (unannounced keys.now) control.old control.new fecs.old.items fecs.new.items) }
    ensures home { control.new.home ≡ control.old.home }
    ensures wants { wants_of control.new.trees ≡ wants_of control.old.trees }
{
    for key in keys {
        withdraw(control, fecs, peer, key)?;
    }
    Ok(())
}

/// The peer announces the routes, one after another. It answers the key of the last one.
fn announce_all(
    control: &mut EdgeControl,
    fecs: &mut Vec<Fec>,
    peer: NodeId,
    adverts: &[Advert],
    now: u64,
) -> Result<Option<KeptKey>, NoMemory>
    requires { AllByRecursion IsWritableAdvert adverts.now }
    ensures taken { OnOk result (
        AreTaken now peer (announced adverts.now) control.old control.new fecs.old.items fecs.new.items) }
    ensures home { control.new.home ≡ control.old.home }
    ensures wants { wants_of control.new.trees ≡ wants_of control.old.trees }
{
    let mut near = None;
    for advert in adverts {
        near = Some(announce(control, fecs, peer, advert, now)?);
    }
    Ok(near)
}

/// The peer withdraws what the message withdraws, and then announces what it announces.
fn take_parts(
    control: &mut EdgeControl,
    alloc: Global,
    peer: NodeId,
    update: Update,
    now: u64,
) -> Result<TunnelChanges, NoMemory>
    requires reach { AllByRecursion IsWritableAdvert update.reach }
    requires unreach { AllByRecursion IsWritableKey update.unreach }
    ensures taken { IfOk result (λ changed.
        AreTaken now peer (unannounced update.unreach ++ announced update.reach) control.old control.new [] changed.tunnels.items) }
    ensures home { control.new.home ≡ control.old.home }
    ensures wants { wants_of control.new.trees ≡ wants_of control.old.trees }
{
    let Update { reach, unreach } = update;
    let mut tunnels = Vec::new(alloc);
    withdraw_all(control, &mut tunnels, peer, unreach.as_slice())?;
    let near = announce_all(control, &mut tunnels, peer, reach.as_slice(), now)?;
    Ok(TunnelChanges { tunnels, near })
}

/// Takes an UPDATE message of the peer: its withdrawals first, and then its advertisements (RFC 4271 section 4.3). A peer whose session
/// is down changes nothing. It answers the inclusive tunnels that may come or go by it, in no order; one may be there more than once. Where
/// memory runs out, some first ones of the changes are made, and the route of the next one may be withdrawn.
pub fn take_update(
    control: &mut EdgeControl,
    alloc: Global,
    peer: NodeId,
    message: Message,
    now: u64,
) -> Result<TunnelChanges, NoMemory>
    requires writable { SaysWritable message }
    ensures taken { (core : Core) → OnOk result (
        control_of control.new ≡ steps.effect (place_of control.old.home core) now (control_of control.old) (steps.Update peer message)) }
    ensures home { control.new.home ≡ control.old.home }
    ensures wants { wants_of control.new.trees ≡ wants_of control.old.trees }
    ensures tunnels { (core : Core) → IfOk result (λ changed.
        AreTunnels (place_of control.old.home core) (control_of control.old) (control_of control.new) changed.tunnels.items) }
{
    match message {
        Message::Other(_) => Ok(TunnelChanges {
            tunnels: Vec::new(alloc),
            near: None,
        }),
        Message::Update(update) => take_parts(control, alloc, peer, update, now),
    }
}
