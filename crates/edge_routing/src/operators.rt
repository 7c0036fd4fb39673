//! Selections of the operator (RFC 6514 section 12.1). They change no flow.
ghost use Rattle.std.specs.Prelude.{◌≡◌, ◌<◌, ◌≤◌, ◌^◌, ℕ, true, false, Err, IfOk, OnOk, None};
ghost use Rattle.std.specs.FinMap as maps;
ghost use Rattle.mv_base.specs.core_walks.Topology.{Topology};
ghost use Rattle.bgp_values.specs.mvpn_nlri.Spelling.{IsAnyOr, IsGroup};
ghost use Rattle.edge_defs.specs.Originated.{afi_by};
ghost use Rattle.edge_defs.specs.Edge.{Control, Selected};
ghost use Rattle.edge_defs.specs.Place.{EdgePlace, tunnel_number};
ghost use Rattle.edge_defs.specs.Steps.{Customer, Select, Unselect};
ghost use Rattle.control_laws.specs.Control.{control_of};
ghost use Rattle.edge_control.specs.Places.{is_own_vrf, is_selection_too_many};
ghost use Rattle.edge_control.specs.declared.fault.ControlFault.TheVariants as ControlFault;
ghost use Rattle.edge_words.specs.held_laws.Held.{with_selected};
ghost use Rattle.held_tables.specs.Holding.{AreToldAlike, HoldAll, IsOwnAt};
ghost use Rattle.edge_routing.specs.Routing.{IsInStep, IsStepped};

use crate::routing::{EdgeRouting, LeafCandidates};
use edge_control::of_edge_tables::EdgeTables;
use edge_control::{ControlFault, own_of_vrf};
use edge_routes::edge_home::OwnVrf;
use edge_routes::tunnel_number;
use held_tables::{drop_selection, hold_selection};
use mv_base::{NoMemory, Pattern, VrfId};
use std::alloc::Global;

/// What the LSP number of a selection's tunnel adds to that of the VRF's inclusive tunnel.
fn number_in(own: &OwnVrf, lsp: u32) -> u32
    requires { tunnel_number own.now.local.vrf 0 ≤ lsp }
    ensures { tunnel_number own.now.local.vrf result ≡ lsp }
{
    (u64::from(lsp) - tunnel_number(own.local.vrf(), 0)) as u32
}

/// Each peer is to have the route of the selection whose tunnel has that LSP number.
fn hold_selected(
    tables: &mut EdgeTables,
    own: &OwnVrf,
    pattern: &Pattern,
    lsp: u32,
) -> Result<(), NoMemory>
    requires number { tunnel_number own.now.local.vrf 0 ≤ lsp }
    requires pattern { IsAnyOr (IsGroup (afi_by pattern.now.source pattern.now.group)) pattern.now.group }
    ensures held { OnOk result ((place : EdgePlace) (control : Control) (selected : Selected) → IsOwnAt place own.now →
        tunnel_number own.now.local.vrf selected.number ≡ lsp → HoldAll place control tables.old →
        HoldAll place (with_selected control own.now.id pattern.now selected) tables.new) }
    ensures told { AreToldAlike tables.old tables.new }
{
    let number = number_in(own, lsp);
    hold_selection(tables, own, pattern, number)
}

impl EdgeRouting {
    /// Selects the pattern in the VRF, where it is not selected. Where there would be more selections than an edge holds, nothing changes.
    pub fn select(
        &mut self,
        alloc: Global,
        vrf: VrfId,
        pattern: Pattern,
        now: u64,
    ) -> Result<LeafCandidates, ControlFault>
        requires step { IsInStep self.old }
        requires own { is_own_vrf self.old.control.home vrf ≡ true }
        requires pattern { IsAnyOr (IsGroup (afi_by pattern.source pattern.group)) pattern.group }
        requires new { maps.get (control_of self.old.control).selections (record { vrf = vrf; pattern = pattern }) ≡ None }
        requires now { now < 2 ^ 63 }
        ensures stepped { (core : Topology) → IfOk result (IsStepped core now (Customer (Select vrf pattern)) self.old self.new) }
        ensures fits { OnOk result (is_selection_too_many (control_of self.old.control) ≡ false) }
        ensures full { result ≡ Err ControlFault.Full →
            (is_selection_too_many (control_of self.old.control) ≡ true) × (self.new ≡ self.old) }
        ensures home { self.new.control.home ≡ self.old.control.home }
    {
        let lsp = self.control.select(vrf, pattern, now)?;
        let own = own_of_vrf(self.control.home(), vrf);
        hold_selected(&mut self.tables, own, &pattern, lsp)?;
        self.tables.put()?;
        Ok(LeafCandidates::none(alloc))
    }

    /// The pattern is selected no more in the VRF.
    pub fn unselect(
        &mut self,
        alloc: Global,
        vrf: VrfId,
        pattern: Pattern,
    ) -> Result<LeafCandidates, NoMemory>
        requires step { IsInStep self.old }
        requires own { is_own_vrf self.old.control.home vrf ≡ true }
        requires pattern { IsAnyOr (IsGroup (afi_by pattern.source pattern.group)) pattern.group }
        ensures stepped { (core : Topology) (now : ℕ) → IfOk result (IsStepped core now (Customer (Unselect vrf pattern)) self.old self.new) }
        ensures home { self.new.control.home ≡ self.old.control.home }
    {
        self.control.unselect(vrf, pattern);
        let own = own_of_vrf(self.control.home(), vrf);
        drop_selection(&mut self.tables, own, &pattern)?;
        self.tables.put()?;
        Ok(LeafCandidates::none(alloc))
    }
}
