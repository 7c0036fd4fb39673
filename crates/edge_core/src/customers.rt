//! Calls of customers: Join/Prune messages, and sources that are noted to send or no longer are.
ghost use Rattle.std.specs.Prelude.{◌≡◌, ◌⊎◌, [], ◌∷◌, true, false, None, Ok, Err, IfOk};
ghost use Rattle.bgp_messages.specs.bgp_update.Written.{afi_of};
ghost use Rattle.bgp_values.specs.mvpn_nlri.Spelling.{IsGroup};
ghost use Rattle.pim_joinprune.specs.Reading.{decoded};
ghost use Rattle.edge_defs.specs.Steps.{Customer, Active, Idle};
ghost use Rattle.edge_routing.specs.control_laws.Control.{control_of};
ghost use Rattle.edge_routing.specs.edge_control.Places.{is_note_too_many, is_own_iface};
ghost use Rattle.edge_core.specs.Answers.{IsOneOf, OnTaken};
ghost use Rattle.edge_routing.specs.control_laws.group_laws.Groups.{HasGroups};
ghost use Rattle.edge_core.specs.Called.{IsReady, SettlesCall, thereafter, going, spent_after};
ghost use Rattle.edge_core.specs.Pim.{AnswersPim, IsPimFault, is_ours};
ghost use Rattle.edge_core.specs.State.{IsLive};
ghost use Rattle.edge_core.specs.declared.fault.EdgeFault.{EdgeFault as EdgeFaults};
ghost use Rattle.edge_core.specs.declared.fault.EdgeFault.TheVariants as EdgeFault;

use crate::edge_call::{CustomerCall, EdgeCall};
use crate::fault::{EdgeAnswer, EdgeFault};
use crate::parts::Parts;
use core_paths::Core;
use edge_routes::edge_home::EdgeHome;
use edge_routing::of_edge_control::ControlFault;
use edge_routing::of_edge_labels::OwnCall;
use mv_base::{Addr, IfaceId};
use network_defs::of_mvpn_model::own_addr;
use pim_joinprune::{DecodeFault, JoinPrune, decode};
use std::alloc::Global;

/// The Join/Prune message that the octets spell (RFC 7761 section 4.9.5), or their first fault.
fn read(alloc: Global, bytes: &[u8]) -> Result<JoinPrune, EdgeFault>
    ensures message { IfOk result (λ message. decoded bytes.now ≡ Ok message) }
    ensures groups { IfOk result HasGroups }
    ensures fault { (fault : EdgeFaults) → result ≡ Err fault → (fault ≡ EdgeFault.NoMemory) ⊎ IsPimFault fault (decoded bytes.now) }
{
    match decode(alloc, bytes) {
        Ok(message) => Ok(message),
        Err(DecodeFault::Bad { place, fault }) => Err(EdgeFault::Pim { place, fault }),
        Err(DecodeFault::NoMemory) => Err(EdgeFault::NoMemory),
    }
}

/// Whether the message is for the interface: its upstream neighbour is that interface's own address.
fn is_ours(home: &EdgeHome, iface: IfaceId, message: &JoinPrune) -> bool
    ensures { result ≡ is_ours home.now.scenario iface message.now }
{
    message.neighbour == own_addr(home.scenario(), iface)
}

impl Parts {
    /// Takes the octets of a Join/Prune message at the interface.
    pub(crate) fn take_pim(
        &mut self,
        iface: IfaceId,
        bytes: &[u8],
        now: u64,
        core: &Core,
    ) -> EdgeAnswer
        requires ready { IsReady core.now now self.old }
        requires own { is_own_iface self.old.routing.control.home iface ≡ true }
        ensures answers { AnswersPim core.now now iface bytes.now (going self.old) (thereafter self.new result) result }
        ensures live { spent_after result ≡ None → IsLive self.new.routing self.new.labels self.new.streams }
    {
        let message = read(self.alloc, bytes)?;
        if !is_ours(self.routing.control.home(), iface, &message) {
            return Err(EdgeFault::NotOurs);
        }
        let call = CustomerCall::Pim {
            iface,
            message: &message,
        };
        self.call(EdgeCall::Customer(call), now, core)
    }

    /// Notes at the interface that the source sends to the group.
    pub(crate) fn note(
        &mut self,
        iface: IfaceId,
        source: Addr,
        group: Addr,
        now: u64,
        core: &Core,
    ) -> EdgeAnswer
        requires ready { IsReady core.now now self.old }
        requires own { is_own_iface self.old.routing.control.home iface ≡ true }
        requires group { IsGroup (afi_of source) group }
        ensures settles { SettlesCall core.now now (Customer (Active iface source group)) (going self.old) self.new result }
        ensures only { IsOneOf (EdgeFault.Full ∷ []) result }
        ensures fits { OnTaken result (is_note_too_many (control_of self.old.routing.control) iface source group ≡ false) }
        ensures full { result ≡ Err EdgeFault.Full →
            (is_note_too_many (control_of self.old.routing.control) iface source group ≡ true) × (self.new ≡ self.old) }
    {
        match self
            .routing
            .note(self.alloc, iface, source, group, now, core)
        {
            Ok(told) => self.settle(&OwnCall::None, Ok(told), now, core),
            Err(ControlFault::Full) => Err(EdgeFault::Full),
            Err(ControlFault::NoMemory) => Err(EdgeFault::NoMemory),
        }
    }

    /// The note is there no more.
    pub(crate) fn unnote(
        &mut self,
        iface: IfaceId,
        source: Addr,
        group: Addr,
        now: u64,
        core: &Core,
    ) -> EdgeAnswer
        requires ready { IsReady core.now now self.old }
        requires own { is_own_iface self.old.routing.control.home iface ≡ true }
        requires group { IsGroup (afi_of source) group }
        ensures settles { SettlesCall core.now now (Customer (Idle iface source group)) (going self.old) self.new result }
        ensures only { IsOneOf [] result }
    {
        let told = self
            .routing
            .unnote(self.alloc, iface, source, group, now, core);
        self.settle(&OwnCall::None, told, now, core)
    }
}
