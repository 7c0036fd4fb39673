//! Laws of nodes, edges and scripts where nothing is taken back.
ghost use Rattle.std.specs.Prelude.{◌≡◌, ◌<◌, ◌≤◌, ◌+◌, ℕ, true, List, length, take, count_by};
ghost use Rattle.mv_base.specs.declared.ids.NodeId.{NodeId};
ghost use Rattle.mldp.specs.declared.mldp_fec.fec.Fec.{Fec};
ghost use Rattle.label_defs.specs.LabelData.{Place, LabelData, fresh};
ghost use Rattle.label_defs.specs.Steps.{Call};
ghost use Rattle.edge_defs.specs.Edge.{Control};
ghost use Rattle.edge_defs.specs.Flows.{flows_at};
ghost use Rattle.edge_defs.specs.Place.{EdgePlace};
ghost use Rattle.edge_defs.specs.Steps.{refreshed};
ghost use Rattle.scenario_defs.specs.Rules.{Rules, ScriptRules};
ghost use Rattle.scenario_defs.specs.declared.event.Script.{Script};
ghost use Rattle.scenario_defs.specs.declared.event.Timed.{Timed};
ghost use Rattle.scenario_defs.specs.declared.scenario.Scenario.{Scenario};
ghost use Rattle.network_defs.specs.Costs.{Cores, AreCoresOf};
ghost use Rattle.network_defs.specs.Nodes.{part_of};
ghost use Rattle.network_defs.specs.Run.{Traced, Run};
ghost use Rattle.network_defs.specs.World.{World};
ghost use Rattle.run_laws.specs.Octets.{ScriptHasOctets};
ghost use Rattle.growth_laws.specs.Edges.{TakenStays, FlowsStay, AreNarrow, KeepsAll, LeavesStay};
ghost use Rattle.growth_laws.specs.Tests.{has_one_home, only_grows};
ghost use Rattle.growth_laws.specs.Scripts.{HasOneHome, OnlyGrows, GrowingRunsNeverHalt, is_selection};
ghost use Rattle.growth_laws.specs.Labels.{Growing, TakesNothingBack, GrowsOn, AreAmong, labels_held};

/// A node that was never asked to take anything back has a label for each tree that needs one, as long as it has more labels than
/// there are trees. It is so in a node in which nothing has happened, after each step that takes nothing back, and with more trees,
/// as long as the labels are more. It holds no more labels than there are trees.
pub fn growing_nodes_never_lack_a_label()
    ensures fresh { (place : Place) (trees : List Fec) (count : ℕ) → length trees < count → Growing place trees (fresh count) }
    ensures step { (place : Place) (now : ℕ) (trees : List Fec) (part : LabelData) (call : Call) → Growing place trees part →
        TakesNothingBack place trees call → GrowsOn place now trees part call }
    ensures more { (place : Place) (trees more : List Fec) (part : LabelData) → Growing place trees part → AreAmong trees more →
        length more < length part.labels → Growing place more part }
    ensures held { (place : Place) (trees : List Fec) (part : LabelData) → Growing place trees part → labels_held part ≤ length trees }
{}

/// Where a call's own effect takes nothing back, the flows of an edge keep their upstreams, and it stays a leaf of each tunnel.
pub fn growing_edges_stay_leaves()
    ensures flows { (place : EdgePlace) (moment now : ℕ) (old new : Control) → old.flows ≡ flows_at place moment old →
        KeepsAll place now old new → FlowsStay old (refreshed place now new) }
    ensures leaves { (place : EdgePlace) (old new : Control) → TakenStays old new → FlowsStay old new → AreNarrow new →
        LeavesStay place old new }
{}

/// A script that takes nothing back never runs out of labels at any node. So all its events run, by the cores of its scenario.
pub fn growing_runs_never_halt()
    ensures no_halt { GrowingRunsNeverHalt }
    ensures run { (cores : Cores) (script : Script) → AreCoresOf script.scenario cores → ScriptRules script → ScriptHasOctets script →
        OnlyGrows script → (trace : List Traced) × (new : World) × Run cores script script.events trace new }
{}

/// After first events of such a script each node holds no more labels than there are VRFs in the network and selections among these
/// events. Within an event no label is given back, so it never holds more than after the event.
pub fn growing_nodes_hold_few_labels()
    ensures { (cores : Cores) (script : Script) (count : ℕ) (trace : List Traced) (new : World) (node : NodeId) →
        ScriptRules script → ScriptHasOctets script → OnlyGrows script → Run cores script (take count script.events) trace new →
        labels_held (part_of (new.network.state.node node)) ≤
        length script.scenario.vrfs + count_by (λ (timed : Timed). is_selection timed.event) (take count script.events) }
{}

/// Where the tests pass, an address of a VPN has one home, and a script takes nothing back.
pub fn growing_scripts_are_told()
    ensures homes { (scenario : Scenario) → Rules scenario → has_one_home scenario ≡ true → HasOneHome scenario }
    ensures scripts { (script : Script) → Rules script.scenario → only_grows script ≡ true → OnlyGrows script }
{}
