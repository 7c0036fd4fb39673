//! Selections of customers.
ghost use Rattle.std.specs.Prelude.{◌≡◌, ℕ, ◌<◌, ◌^◌, min, true, false, nat_le, is_some, None, Err, IfOk, OnOk, OnErr};
ghost use Rattle.std.specs.FinMap as maps;
ghost use Rattle.mv_base.specs.Lists.{Among};
ghost use Rattle.mv_base.specs.core_walks.Core.{Core};
ghost use Rattle.edge_defs.specs.Place.{OwnVrf, tunnel_number};
ghost use Rattle.edge_defs.specs.Steps.{Customer, Select, Unselect, effect};
ghost use Rattle.edge_routes.specs.edge_home.Home.{place_of};
ghost use Rattle.control_laws.specs.Control.{control_of};
ghost use Rattle.edge_control.specs.Places.{is_own_vrf, is_selection_too_many, number_after, selection_limit, vrfs_of};
ghost use Rattle.edge_control.specs.Sound.{wants_of};
ghost use Rattle.edge_control.specs.declared.fault.ControlFault.TheVariants as ControlFault;

use crate::control::EdgeControl;
use crate::counts::selections_in;
use crate::fault::ControlFault;
use crate::places::place_of_vrf;
use crate::trees::{select_at, unselect_at};
use mv_base::{Pattern, VrfId};

/// The most selections of an edge.
const SELECTION_LIMIT: u32 = 256;

/// Whether there are as many selections as an edge holds.
fn is_full(count: u32) -> bool
    ensures { result ≡ nat_le selection_limit count }
{
    SELECTION_LIMIT <= count
}

impl EdgeControl {
    /// How many patterns are selected, over all VRFs, or the greatest number of 32 bits where there are more. It takes no memory.
    pub fn selections(&self) -> u32
        ensures { result ≡ min (maps.len (control_of self.now).selections) 4294967295 }
    {
        selections_in(&self.trees)
    }

    /// Whether the pattern is selected in the VRF. It takes no memory.
    pub fn is_selected(&self, vrf: VrfId, pattern: Pattern) -> bool
        requires own { is_own_vrf self.now.home vrf ≡ true }
        ensures { result ≡ is_some (maps.get (control_of self.now).selections (record { vrf = vrf; pattern = pattern })) }
    {
        let place = place_of_vrf(&self.home, vrf);
        self.trees[place].root_is_selected(pattern)
    }

    /// Whether one more selection would be too many.
    fn is_over_selected(&self) -> bool
        ensures { result ≡ is_selection_too_many (control_of self.now) }
    {
        is_full(self.selections())
    }

    /// Selects the pattern in the VRF, where it is not selected, and answers the LSP number of its tunnel (RFC 6514 section
    /// 12.1).
    pub fn select(&mut self, vrf: VrfId, pattern: Pattern, now: u64) -> Result<u32, ControlFault>
        requires own { is_own_vrf self.old.home vrf ≡ true }
        requires new { maps.get (control_of self.old).selections (record { vrf = vrf; pattern = pattern }) ≡ None }
        requires now { now < 2 ^ 63 }
        ensures selected { (core : Core) → OnOk result (control_of self.new
            ≡ effect (place_of self.old.home core) now (control_of self.old) (Customer (Select vrf pattern))) }
        ensures number { (own : OwnVrf) → Among own (vrfs_of self.old.home) → own.id ≡ vrf →
            IfOk result (λ lsp. lsp ≡ tunnel_number own.vrf (number_after (control_of self.old) vrf)) }
        ensures home { self.new.home ≡ self.old.home }
        ensures wants { wants_of self.new.trees ≡ wants_of self.old.trees }
        ensures fits { OnOk result (is_selection_too_many (control_of self.old) ≡ false) }
        ensures full { result ≡ Err ControlFault.Full → is_selection_too_many (control_of self.old) ≡ true }
        ensures unchanged { OnErr result (self.new ≡ self.old) }
    {
        let place = place_of_vrf(&self.home, vrf);
        if self.is_over_selected() {
            return Err(ControlFault::Full);
        }
        select_at(&mut self.trees, place, pattern, now)
    }

    /// The pattern is selected no more in the VRF. It takes no memory.
    pub fn unselect(&mut self, vrf: VrfId, pattern: Pattern)
        requires own { is_own_vrf self.old.home vrf ≡ true }
        ensures unselected { (core : Core) (now : ℕ) → control_of self.new
            ≡ effect (place_of self.old.home core) now (control_of self.old) (Customer (Unselect vrf pattern)) }
        ensures home { self.new.home ≡ self.old.home }
        ensures wants { wants_of self.new.trees ≡ wants_of self.old.trees }
    {
        let place = place_of_vrf(&self.home, vrf);
        unselect_at(&mut self.trees, place, pattern);
    }
}
