//! A refresh of all flows of an edge (RFC 7761 section 4.1.6; RFC 6513 section 5.1).
ghost use Rattle.std.specs.Prelude.{◌≡◌, ◌<◌, ◌++◌, ℕ, true, length, IfOk, OnOk};
ghost use Rattle.std.specs.List.{AllByRecursion, AllZip};
ghost use Rattle.mv_base.specs.declared.ids.NodeId.{NodeId};
ghost use Rattle.mv_base.specs.core_walks.Core.{Core as Walks, IsCoreOf};
ghost use Rattle.umh_select.specs.Routes.{AreCosts, AreOfCore};
ghost use Rattle.vrf_words.specs.tree_defs.Trees.{TreeData};
ghost use Rattle.vrf_trees.specs.Trees.{IsFresh};
ghost use Rattle.edge_defs.specs.Place.{HasPrefixes};
ghost use Rattle.edge_defs.specs.Steps.{refreshed};
ghost use Rattle.edge_routes.specs.edge_home.Home.{place_of};
ghost use Rattle.edge_tables.specs.taken_tables.Tables.{AreSpelled};
ghost use Rattle.control_laws.specs.Between.{IsRefreshed};
ghost use Rattle.control_laws.specs.Control.{AreTrees, control_of};
ghost use Rattle.edge_control.specs.Refreshing.{AreAllMoved, AreChanged, AreTold, IsRestOf};

use crate::control::EdgeControl;
use core_paths::Core;
use edge_routes::edge_home::EdgeHome;
use edge_tables::taken_tables::TakenTables;
use mldp::mldp_fec::Fec;
use mv_base::{NoMemory, NodeId, Seq};
use std::alloc::Global;
use vrf_trees::{TreeChanges, TreeJoin, VrfTree};

/// What a refresh of all flows changes: the joins of flows towards other edges that are made or left, and the selective tunnels
/// that some VRF wants from now on, or wants no more. In no order; one may be there more than once.
#[derive(Drop)]
pub struct ControlChanges {
    pub joins: Vec<TreeJoin>,
    pub tunnels: Vec<Fec>,
}

/// Appends these, of which there are most often none.
fn append<T: Copy>(all: &mut Vec<T>, more: &Seq<T>) -> Result<(), NoMemory>
    ensures { OnOk result (all.new.items ≡ all.old.items ++ more.now) }
{
    if more.is_empty() {
        return Ok(());
    }
    all.extend_from_slice(more.as_slice())?;
    Ok(())
}

/// Adds what the refresh of one tree changes.
fn add(all: &mut ControlChanges, changes: &TreeChanges) -> Result<(), NoMemory>
    ensures joins { OnOk result (all.new.joins.items ≡ (all.old.joins.items ++ changes.now.joins) ++ changes.now.leaves) }
    ensures tunnels { OnOk result (all.new.tunnels.items ≡ (all.old.tunnels.items ++ changes.now.wants) ++ changes.now.unwants) }
{
    append(&mut all.joins, &changes.joins)?;
    append(&mut all.joins, &changes.leaves)?;
    append(&mut all.tunnels, &changes.wants)?;
    append(&mut all.tunnels, &changes.unwants)
}

/// Whether it is known of each of the trees that a refresh at the clock changes nothing.
fn all_fresh(trees: &[VrfTree], now: u64) -> bool
    ensures { result ≡ true → AllByRecursion (IsFresh now) trees.now }
{
    for tree in trees {
        if !tree.is_fresh(now) {
            return false;
        }
    }
    true
}

/// Refreshes each of the trees. Where memory runs out, each is as before, but for its flows and what they want.
fn refresh_trees(
    trees: &mut Vec<VrfTree>,
    alloc: Global,
    now: u64,
    me: NodeId,
    core: &Core,
) -> Result<ControlChanges, NoMemory>
    requires me { me.0 < core.now.nodes }
    requires peers { AllByRecursion (λ (tree : TreeData). AreOfCore core.now.nodes tree.vrf.routes.learned) trees.old.items }
    ensures refreshed { (cost : NodeId → ℕ) → AreCosts core.now me cost →
        OnOk result (AllZip (IsRefreshed cost now) trees.old.items trees.new.items) }
    ensures rest { AllZip IsRestOf trees.old.items trees.new.items }
    ensures joins { (cost : NodeId → ℕ) → AreCosts core.now me cost →
        IfOk result (λ changes. AreAllMoved trees.old.items trees.new.items changes.joins.items) }
    ensures tunnels { IfOk result (λ changes. AreTold trees.old.items trees.new.items changes.tunnels.items) }
{
    let mut all = ControlChanges {
        joins: Vec::new(alloc),
        tunnels: Vec::new(alloc),
    };
    if all_fresh(trees, now) {
        return Ok(all);
    }
    for place in 0..trees.len() {
        let changes = trees[place].refresh(now, me, core)?;
        add(&mut all, &changes)?;
    }
    Ok(all)
}

/// Shows that the core is one as nodes know it.
fn known(core: &Core)
    ensures { (own : Walks) × IsCoreOf core.now.nodes core.now.links own }
{
    let _ = core.nodes();
}

/// Shows that each key of the tables has a spelling, and is of octets.
fn spelled(taken: &TakenTables)
    ensures { AreSpelled taken.now }
{
    let _ = taken.entries(NodeId(0));
}

/// Shows that the prefixes of the scenario are of octets.
fn have_octets(home: &EdgeHome)
    ensures { HasPrefixes home.now.scenario }
{
    let _ = home.scenario();
}

impl EdgeControl {
    /// Brings the flows of all VRFs up to date at the clock, in the core as the edge knows it (RFC 7761 section 4.1.6; RFC 6513
    /// section 5.1). After memory runs out nothing is known of the flows, and all else is as before.
    pub fn refresh(&mut self, now: u64, core: &Core) -> Result<ControlChanges, NoMemory>
        requires { core.now.nodes ≡ length self.old.home.scenario.nodes }
        ensures refreshed { (own : Walks) → IsCoreOf core.now.nodes core.now.links own → OnOk result (
            control_of self.new ≡ refreshed (place_of self.old.home own) now (control_of self.old)) }
        ensures wanted { OnOk result (AreTrees self.new) }
        ensures home { self.new.home ≡ self.old.home }
        ensures rest { control_of self.new ≡ record (control_of self.old) { flows = (control_of self.new).flows } }
        ensures joins { IfOk result (λ changes. AreChanged (control_of self.old).flows (control_of self.new).flows changes.joins.items) }
        ensures tunnels { IfOk result (λ changes. AreTold self.old.trees self.new.trees changes.tunnels.items) }
    {
        known(core);
        spelled(&self.taken);
        have_octets(&self.home);
        let me = self.home.me();
        refresh_trees(&mut self.trees, self.alloc, now, me, core)
    }
}
