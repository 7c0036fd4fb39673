//! Laws of the generated scripts: nothing is ever taken back, so none halts.
ghost use Rattle.std.specs.Prelude.{◌≡◌, ◌≤◌, ℕ, List, take};
ghost use Rattle.mv_base.specs.declared.ids.NodeId.{NodeId};
ghost use Rattle.scenario_defs.specs.Rules.{ScriptRules};
ghost use Rattle.growth_laws.specs.mvpn_model.Report.{Entry};
ghost use Rattle.growth_laws.specs.network_defs.Costs.{Cores};
ghost use Rattle.growth_laws.specs.network_defs.Nodes.{part_of};
ghost use Rattle.growth_laws.specs.network_defs.Run.{Halts, Run, Traced};
ghost use Rattle.growth_laws.specs.network_defs.World.{World};
ghost use Rattle.growth_laws.specs.run_laws.Octets.{ScriptHasOctets};
ghost use Rattle.growth_laws.specs.Labels.{labels_held};
ghost use Rattle.growth_laws.specs.Scripts.{OnlyGrows};
ghost use Rattle.made_laws.specs.MadeScript.{made_script};

use growth_laws::{growing_nodes_hold_few_labels, growing_runs_never_halt};

/// The script of each number meets the rules of scripts, as whatever is read does, and holds octets.
pub fn made_scripts_meet_the_rules()
    ensures rules { (number : ℕ) → ScriptRules (made_script number) }
    ensures octets { (number : ℕ) → ScriptHasOctets (made_script number) }
{}

/// The script of each number takes nothing back.
pub fn made_scripts_only_grow()
    ensures { (number : ℕ) → OnlyGrows (made_script number) }
{}

/// The script of each number never runs out of labels at any node.
pub fn made_runs_never_halt()
    ensures { (cores : Cores) (number : ℕ) (report : List Entry) (node : NodeId) → Halts cores (made_script number) report node → ⊥ }
{
    growing_runs_never_halt();
    made_scripts_meet_the_rules();
    made_scripts_only_grow();
}

/// After first events of the script of a number each node holds at most 260 of its 4,096 labels: as many as there are VRFs and
/// selections.
pub fn made_nodes_hold_few_labels()
    ensures { (cores : Cores) (number count : ℕ) (trace : List Traced) (new : World) (node : NodeId) →
        Run cores (made_script number) (take count (made_script number).events) trace new →
        labels_held (part_of (new.network.state.node node)) ≤ 260 }
{
    growing_nodes_hold_few_labels();
    made_scripts_meet_the_rules();
    made_scripts_only_grow();
}
