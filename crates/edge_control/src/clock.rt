//! The timers of what an edge keeps.
ghost use Rattle.std.specs.Prelude.{◌≡◌, ◌<◌, true, length, map, is_some, IfOk, OnOk, OnErr};
ghost use Rattle.std.specs.FinMap as maps;
ghost use Rattle.mv_base.specs.core_walks.Core.{Core};
ghost use Rattle.mv_base.specs.declared.ids.NodeId.{NodeId};
ghost use Rattle.edge_defs.specs.Steps.{Timers, effect, peers_run};
ghost use Rattle.edge_routes.specs.edge_home.Home.{place_of};
ghost use Rattle.edge_routes.specs.declared.edge_home.own_vrf.OwnVrf.{OwnVrf};
ghost use Rattle.control_laws.specs.Control.{control_of};
ghost use Rattle.edge_control.specs.Sound.{wants_of};
ghost use Rattle.edge_control.specs.Timers.{all_run};

use crate::control::EdgeControl;
use edge_routes::LocalVrf;
use edge_routes::edge_home::{EdgeHome, OwnVrf};
use edge_tables::taken_tables::TakenTables;
use mv_base::NoMemory;
use std::alloc::Global;
use vrf_trees::VrfTree;

/// Runs the timers of the tree.
fn run_tree(tree: &mut VrfTree, now: u64)
    ensures { tree.new ≡ all_run now tree.old }
{
    tree.pim_timers(now);
    tree.tunnel_timers(now);
}

/// Runs the timers of each tree.
fn run_trees(trees: &mut Vec<VrfTree>, now: u64)
    ensures { trees.new.items ≡ map (all_run now) trees.old.items }
{
    for tree in trees.iter_mut() {
        run_tree(tree, now);
    }
}

/// The VRFs, without their numbers in the scenario.
fn locals_of(alloc: Global, vrfs: &[OwnVrf]) -> Result<Vec<LocalVrf>, NoMemory>
    ensures { IfOk result (λ locals. locals.items ≡ map (λ (own : OwnVrf). own.local) vrfs.now) }
{
    let mut locals = Vec::new(alloc);
    for own in vrfs {
        locals.push(own.local)?;
    }
    Ok(locals)
}

/// Runs the delays of the selective routes that were taken.
fn run_taken(
    taken: &mut TakenTables,
    alloc: Global,
    home: &EdgeHome,
    now: u64,
) -> Result<(), NoMemory>
    requires peers { (peer : NodeId) → is_some (maps.get taken.old peer) ≡ true → peer.0 < length home.now.scenario.nodes }
    ensures run { (core : Core) → OnOk result (taken.new ≡ peers_run (place_of home.now core) now taken.old) }
    ensures unchanged { OnErr result (taken.new ≡ taken.old) }
{
    let locals = locals_of(alloc, home.vrfs())?;
    let scenario = home.scenario();
    taken.run_delays(&locals, scenario.nodes.as_slice(), scenario.delay, now);
    Ok(())
}

impl EdgeControl {
    /// Runs the timers that are due at the clock: of entries, of selections, and of the selective routes that were taken.
    pub fn run_timers(&mut self, now: u64) -> Result<(), NoMemory>
        ensures run { (core : Core) → OnOk result (control_of self.new
            ≡ effect (place_of self.old.home core) now (control_of self.old) Timers) }
        ensures home { self.new.home ≡ self.old.home }
        ensures wants { wants_of self.new.trees ≡ wants_of self.old.trees }
        ensures unchanged { OnErr result (self.new ≡ self.old) }
    {
        run_taken(&mut self.taken, self.alloc, &self.home, now)?;
        run_trees(&mut self.trees, now);
        Ok(())
    }
}
