//! The calls of customers.
ghost use Rattle.std.specs.Prelude.{◌≡◌, ◌&&◌, ℕ, ◌<◌, ◌^◌, true, false, not, nat_le, Err, IfOk, OnOk, OnErr};
ghost use Rattle.mv_base.specs.core_walks.Core.{Core};
ghost use Rattle.pim_defs.specs.Entries.{applied, are_too_many};
ghost use Rattle.edge_defs.specs.Originated.{is_iface_of};
ghost use Rattle.edge_defs.specs.Steps.{Customer, Active, Idle, Pim, effect};
ghost use Rattle.edge_routes.specs.edge_home.Home.{place_of};
ghost use Rattle.control_laws.specs.Control.{control_of};
ghost use Rattle.edge_control.specs.Places.{IsPlace, is_note_too_many, is_own_iface, note_limit};
ghost use Rattle.edge_control.specs.Sound.{wants_of};
ghost use Rattle.edge_control.specs.declared.fault.ControlFault.TheVariants as ControlFault;

use crate::control::EdgeControl;
use crate::counts::{entries_in, is_over, notes_in};
use crate::fault::ControlFault;
use crate::places::place_of_iface;
use crate::trees::{note_at, unnote_at};
use mv_base::{Addr, IfaceId, NoMemory};
use pim_joinprune::JoinPrune;
use vrf_trees::of_pim_state::TakeFault;

/// The most notes of an edge.
const NOTE_LIMIT: u32 = 256;

/// Whether a note that may be there already is one more than an edge holds.
fn is_one_too_many(noted: bool, count: u32) -> bool
    ensures { result ≡ (not noted && nat_le note_limit count) }
{
    !noted && NOTE_LIMIT <= count
}

impl EdgeControl {
    /// Whether the entries would be too many after the message, which the tree at that place takes.
    fn is_over_after(
        &self,
        place: usize,
        iface: IfaceId,
        message: &JoinPrune,
        now: u64,
    ) -> Result<bool, NoMemory>
        requires place { IsPlace self.now.home place (λ own. is_iface_of self.now.home.scenario own.id iface) }
        requires now { now < 2 ^ 63 }
        ensures { IfOk result (λ over. over ≡ are_too_many (applied (control_of self.now).entries iface message.now now)) }
    {
        let thereafter = self.trees[place].pim_entries_after(self.alloc, iface, message, now)?;
        let own = self.trees[place].pim_entries();
        Ok(is_over(entries_in(&self.trees), own, thereafter))
    }

    /// Takes a Join/Prune message at the interface, which is one of a VRF of the edge (RFC 7761 section 4.5).
    pub fn take_pim(
        &mut self,
        iface: IfaceId,
        message: &JoinPrune,
        now: u64,
    ) -> Result<(), ControlFault>
        requires own { is_own_iface self.old.home iface ≡ true }
        requires now { now < 2 ^ 63 }
        ensures taken { (core : Core) → OnOk result (control_of self.new
            ≡ effect (place_of self.old.home core) now (control_of self.old) (Customer (Pim iface message.now))) }
        ensures home { self.new.home ≡ self.old.home }
        ensures wants { wants_of self.new.trees ≡ wants_of self.old.trees }
        ensures fits { OnOk result (are_too_many (applied (control_of self.old).entries iface message.now now) ≡ false) }
        ensures full { result ≡ Err ControlFault.Full →
            are_too_many (applied (control_of self.old).entries iface message.now now) ≡ true }
        ensures unchanged { OnErr result (self.new ≡ self.old) }
    {
        let place = place_of_iface(&self.home, iface);
        match self.is_over_after(place, iface, message, now) {
            Err(NoMemory) => Err(ControlFault::NoMemory),
            Ok(true) => Err(ControlFault::Full),
            Ok(false) => {
                let tree = &mut self.trees[place];
                match tree.flows.pim_take(iface, message, now) {
                    Ok(()) => Ok(()),
                    Err(TakeFault::NoMemory) => Err(ControlFault::NoMemory),
                    Err(TakeFault::Full) => unreachable!(),
                }
            }
        }
    }

    /// Whether a note would be too many, in the tree at that place.
    fn is_over_noted(&self, place: usize, iface: IfaceId, source: Addr, group: Addr) -> bool
        requires place { IsPlace self.now.home place (λ own. is_iface_of self.now.home.scenario own.id iface) }
        ensures { result ≡ is_note_too_many (control_of self.now) iface source group }
    {
        let noted = self.trees[place].noted(iface, source, group);
        let count = notes_in(&self.trees);
        is_one_too_many(noted, count)
    }

    /// Notes at the interface, which is one of a VRF of the edge, that the source sends to the group.
    pub fn note(&mut self, iface: IfaceId, source: Addr, group: Addr) -> Result<(), ControlFault>
        requires own { is_own_iface self.old.home iface ≡ true }
        ensures noted { (core : Core) (now : ℕ) → OnOk result (control_of self.new
            ≡ effect (place_of self.old.home core) now (control_of self.old) (Customer (Active iface source group))) }
        ensures home { self.new.home ≡ self.old.home }
        ensures wants { wants_of self.new.trees ≡ wants_of self.old.trees }
        ensures fits { OnOk result (is_note_too_many (control_of self.old) iface source group ≡ false) }
        ensures full { result ≡ Err ControlFault.Full → is_note_too_many (control_of self.old) iface source group ≡ true }
        ensures unchanged { OnErr result (self.new ≡ self.old) }
    {
        let place = place_of_iface(&self.home, iface);
        if self.is_over_noted(place, iface, source, group) {
            return Err(ControlFault::Full);
        }
        note_at(&mut self.trees, place, iface, source, group)
    }

    /// The note is there no more. It takes no memory.
    pub fn unnote(&mut self, iface: IfaceId, source: Addr, group: Addr)
        requires own { is_own_iface self.old.home iface ≡ true }
        ensures unnoted { (core : Core) (now : ℕ) → control_of self.new
            ≡ effect (place_of self.old.home core) now (control_of self.old) (Customer (Idle iface source group)) }
        ensures home { self.new.home ≡ self.old.home }
        ensures wants { wants_of self.new.trees ≡ wants_of self.old.trees }
    {
        let place = place_of_iface(&self.home, iface);
        unnote_at(&mut self.trees, place, iface, source, group);
    }
}
