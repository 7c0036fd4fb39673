//! Calls of customers.
ghost use Rattle.std.specs.Prelude.{◌≡◌, ◌<◌, ◌^◌, true, false, length, Err, IfOk, OnOk};
ghost use Rattle.bgp_messages.specs.bgp_update.Written.{afi_of};
ghost use Rattle.bgp_values.specs.mvpn_nlri.Spelling.{IsGroup};
ghost use Rattle.edge_defs.specs.pim_defs.Entries.{applied, are_too_many};
ghost use Rattle.mv_base.specs.core_walks.Core.{Core as Walks};
ghost use Rattle.edge_defs.specs.Edge.{Control};
ghost use Rattle.edge_defs.specs.Steps.{Customer, Active, Idle, Pim};
ghost use Rattle.edge_routes.specs.edge_home.Home.{place_of};
ghost use Rattle.control_laws.specs.Control.{control_of};
ghost use Rattle.edge_control.specs.Places.{is_note_too_many, is_own_iface};
ghost use Rattle.edge_control.specs.declared.fault.ControlFault.TheVariants as ControlFault;
ghost use Rattle.edge_words.specs.held_laws.Held.{note_of, without_note};
ghost use Rattle.held_tables.specs.Holding.{AreToldAlike, HoldAll};
ghost use Rattle.control_laws.specs.group_laws.Groups.{HasGroups};
ghost use Rattle.edge_routing.specs.Routing.{IsInStep, IsStepped};

use crate::routing::{EdgeRouting, LeafCandidates};
use core_paths::Core;
use edge_control::of_edge_tables::EdgeTables;
use edge_control::{ControlFault, EdgeControl, own_of_iface};
use held_tables::{drop_source, hold_source};
use mv_base::{Addr, IfaceId, NoMemory};
use pim_joinprune::JoinPrune;
use std::alloc::Global;

/// No peer is to have the Source Active A-D route of the source and the group, after the end of a note of them, where no interface of
/// its VRF has another one.
fn drop_unnoted(
    tables: &mut EdgeTables,
    control: &EdgeControl,
    iface: IfaceId,
    source: Addr,
    group: Addr,
) -> Result<(), NoMemory>
    requires own { is_own_iface control.now.home iface ≡ true }
    requires group { IsGroup (afi_of source) group }
    ensures held { OnOk result ((walks : Walks) (old : Control) → control_of control.now ≡ without_note old (note_of iface source group) →
        HoldAll (place_of control.now.home walks) old tables.old →
        HoldAll (place_of control.now.home walks) (control_of control.now) tables.new) }
    ensures told { AreToldAlike tables.old tables.new }
{
    let own = own_of_iface(control.home(), iface);
    if control.tree(own.id).active_here(source, group) {
        return Ok(());
    }
    drop_source(tables, own, source, group)
}

impl EdgeRouting {
    /// Takes a Join/Prune message at the interface, which is one of a VRF of the edge (RFC 7761 section 4.5). Where there would be more
    /// entries than an edge holds, nothing changes.
    pub fn take_pim(
        &mut self,
        alloc: Global,
        iface: IfaceId,
        message: &JoinPrune,
        now: u64,
        core: &Core,
    ) -> Result<LeafCandidates, ControlFault>
        requires step { IsInStep self.old }
        requires core { core.now.nodes ≡ length self.old.control.home.scenario.nodes }
        requires own { is_own_iface self.old.control.home iface ≡ true }
        requires groups { HasGroups message.now }
        requires now { now < 2 ^ 63 }
        ensures stepped { IfOk result (IsStepped core.now now (Customer (Pim iface message.now)) self.old self.new) }
        ensures fits { OnOk result (are_too_many (applied (control_of self.old.control).entries iface message.now now) ≡ false) }
        ensures full { result ≡ Err ControlFault.Full →
            (are_too_many (applied (control_of self.old.control).entries iface message.now now) ≡ true) × (self.new ≡ self.old) }
        ensures home { self.new.control.home ≡ self.old.control.home }
    {
        self.control.take_pim(iface, message, now)?;
        Ok(self.finish(alloc, Vec::new(alloc), None, now, core)?)
    }

    /// Notes at the interface, which is one of a VRF of the edge, that the source sends to the group (RFC 6514 section 14). Where there
    /// would be more notes than an edge holds, nothing changes.
    pub fn note(
        &mut self,
        alloc: Global,
        iface: IfaceId,
        source: Addr,
        group: Addr,
        now: u64,
        core: &Core,
    ) -> Result<LeafCandidates, ControlFault>
        requires step { IsInStep self.old }
        requires core { core.now.nodes ≡ length self.old.control.home.scenario.nodes }
        requires own { is_own_iface self.old.control.home iface ≡ true }
        requires group { IsGroup (afi_of source) group }
        ensures stepped { IfOk result (IsStepped core.now now (Customer (Active iface source group)) self.old self.new) }
        ensures fits { OnOk result (is_note_too_many (control_of self.old.control) iface source group ≡ false) }
        ensures full { result ≡ Err ControlFault.Full →
            (is_note_too_many (control_of self.old.control) iface source group ≡ true) × (self.new ≡ self.old) }
        ensures home { self.new.control.home ≡ self.old.control.home }
    {
        self.control.note(iface, source, group)?;
        let own = own_of_iface(self.control.home(), iface);
        hold_source(&mut self.tables, own, source, group)?;
        Ok(self.finish(alloc, Vec::new(alloc), None, now, core)?)
    }

    /// The note is there no more.
    pub fn unnote(
        &mut self,
        alloc: Global,
        iface: IfaceId,
        source: Addr,
        group: Addr,
        now: u64,
        core: &Core,
    ) -> Result<LeafCandidates, NoMemory>
        requires step { IsInStep self.old }
        requires core { core.now.nodes ≡ length self.old.control.home.scenario.nodes }
        requires own { is_own_iface self.old.control.home iface ≡ true }
        requires group { IsGroup (afi_of source) group }
        ensures stepped { IfOk result (IsStepped core.now now (Customer (Idle iface source group)) self.old self.new) }
        ensures home { self.new.control.home ≡ self.old.control.home }
    {
        self.control.unnote(iface, source, group);
        drop_unnoted(&mut self.tables, &self.control, iface, source, group)?;
        self.finish(alloc, Vec::new(alloc), None, now, core)
    }
}
