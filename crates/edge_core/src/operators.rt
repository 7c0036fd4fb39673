//! Selections of the operator (RFC 6514 section 12.1). They change no tree of which the edge is a leaf.
ghost use Rattle.std.specs.Prelude.{◌≡◌, ◌<◌, ◌^◌, ℕ, [], ◌∷◌, true, false, Err, None};
ghost use Rattle.std.specs.FinMap as maps;
ghost use Rattle.mv_base.specs.core_walks.Topology.{Topology};
ghost use Rattle.bgp_values.specs.mvpn_nlri.Spelling.{IsAnyOr, IsGroup};
ghost use Rattle.edge_defs.specs.Originated.{afi_by};
ghost use Rattle.edge_defs.specs.Steps.{Customer, Select, Unselect};
ghost use Rattle.edge_routing.specs.control_laws.Control.{control_of};
ghost use Rattle.edge_routing.specs.edge_control.Places.{is_own_vrf, is_selection_too_many};
ghost use Rattle.edge_core.specs.Answers.{IsOneOf, OnTaken};
ghost use Rattle.edge_core.specs.Called.{SettlesCall, going};
ghost use Rattle.edge_core.specs.State.{IsLive};
ghost use Rattle.edge_core.specs.declared.fault.EdgeFault.TheVariants as EdgeFault;

use crate::fault::{EdgeAnswer, EdgeFault};
use crate::parts::Parts;
use edge_routing::of_edge_control::ControlFault;
use mv_base::{Pattern, VrfId};

impl Parts {
    /// Selects the pattern in the VRF, where it is not selected.
    pub(crate) fn select(&mut self, vrf: VrfId, pattern: Pattern, now: u64) -> EdgeAnswer
        requires live { IsLive self.old.routing self.old.labels self.old.streams }
        requires own { is_own_vrf self.old.routing.control.home vrf ≡ true }
        requires pattern { IsAnyOr (IsGroup (afi_by pattern.source pattern.group)) pattern.group }
        requires new { maps.get (control_of self.old.routing.control).selections (record { vrf = vrf; pattern = pattern }) ≡ None }
        requires now { now < 2 ^ 63 }
        ensures settles { (core : Topology) → SettlesCall core now (Customer (Select vrf pattern)) (going self.old) self.new result }
        ensures only { IsOneOf (EdgeFault.Full ∷ []) result }
        ensures fits { OnTaken result (is_selection_too_many (control_of self.old.routing.control) ≡ false) }
        ensures full { result ≡ Err EdgeFault.Full →
            (is_selection_too_many (control_of self.old.routing.control) ≡ true) × (self.new ≡ self.old) }
    {
        match self.routing.select(self.alloc, vrf, pattern, now) {
            Ok(_) => Ok(()),
            Err(ControlFault::Full) => Err(EdgeFault::Full),
            Err(ControlFault::NoMemory) => Err(EdgeFault::NoMemory),
        }
    }

    /// The pattern is selected no more in the VRF.
    pub(crate) fn unselect(&mut self, vrf: VrfId, pattern: Pattern) -> EdgeAnswer
        requires live { IsLive self.old.routing self.old.labels self.old.streams }
        requires own { is_own_vrf self.old.routing.control.home vrf ≡ true }
        requires pattern { IsAnyOr (IsGroup (afi_by pattern.source pattern.group)) pattern.group }
        ensures settles { (core : Topology) (now : ℕ) → SettlesCall core now (Customer (Unselect vrf pattern)) (going self.old) self.new result }
        ensures only { IsOneOf [] result }
    {
        match self.routing.unselect(self.alloc, vrf, pattern) {
            Ok(_) => Ok(()),
            Err(_) => Err(EdgeFault::NoMemory),
        }
    }
}
