//! Laws of the label part of a node of the whole network.
ghost use Rattle.std.specs.Prelude.{◌≡◌, ℕ, false, List, ◌++◌, map, Option, Some, None};
ghost use Rattle.std.specs.FinMap.{FinMap};
ghost use Rattle.std.specs.FinSet.{FinSet};
ghost use Rattle.std.specs.List.{flat_map, list_any};
ghost use Rattle.mv_base.specs.declared.addr.Addr.{Addr};
ghost use Rattle.mv_base.specs.declared.ids.NodeId.{NodeId};
ghost use Rattle.mv_base.specs.core_walks.Core.{Core};
ghost use Rattle.scenario_defs.specs.declared.event.Kind.TheVariants as kinds;
ghost use Rattle.scenario_defs.specs.declared.scenario.Scenario.{Scenario};
ghost use Rattle.label_defs.specs.Keys.{fec_cmp, node_cmp};
ghost use Rattle.label_defs.specs.LabelData.{Place};
ghost use Rattle.label_defs.specs.Node.{LabelNode, LacksLabel, addr_in, place_in, with_pdus};
ghost use Rattle.label_defs.specs.Steps.{Call, step_puts};
ghost use Rattle.network_defs.specs.session_defs.PeerSession.{peer_cmp};
ghost use Rattle.edge_defs.specs.Place.{EdgePlace, addr_of, label_place};
ghost use Rattle.edge_defs.specs.Steps.{Call as EdgeCall, EdgeStepped, LabelStep, changed_leaves, edge_step, label_row, one_call};
ghost use Rattle.network_defs.specs.node_defs.EdgeState.{EdgeState, called, waiting_at, with_puts};
ghost use Rattle.network_defs.specs.node_defs.Puts.{label_puts};
ghost use Rattle.node_laws.specs.Places.{AreLabelOctets, node_place};
ghost use Rattle.node_laws.specs.Rows.{IsBehindRow, IsLabelNode, all_called, is_noticed, label_calls, without_lost};

/// The place of a node of a scenario for label steps is that of a label node which has the addresses of all nodes, and so is its own
/// address.
pub fn places_are_one()
    ensures place { (scenario : Scenario) (core : Core) (me : NodeId) →
        label_place scenario core me ≡ place_in (node_place scenario me) core }
    ensures addr { (scenario : Scenario) (me : NodeId) → addr_of scenario me ≡ addr_in (node_place scenario me) }
{}

/// What a label step puts waits at an edge as at a label node: in PDUs after what waits for each neighbour. What waits for BGP peers
/// stays as it is.
pub fn label_octets_wait()
    ensures labels { (me : NodeId) (addr : Addr) (place : Place) (now : ℕ) (step : LabelStep) (waiting : FinMap peer_cmp (List ℕ))
        (own : FinMap node_cmp (List ℕ)) → AreLabelOctets waiting own →
        AreLabelOctets (with_puts (label_puts me addr place now step) waiting)
        (with_pdus addr (step_puts place now step.old step.call step.new.puts) own) }
    ensures others { (me : NodeId) (addr : Addr) (place : Place) (now : ℕ) (step : LabelStep) (waiting : FinMap peer_cmp (List ℕ))
        (peer : NodeId) → waiting_at (with_puts (label_puts me addr place now step) waiting) (record { kind = kinds.Bgp; peer = peer })
        ≡ waiting_at waiting (record { kind = kinds.Bgp; peer = peer }) }
{}

/// A row of calls of a label node leaves it as the row of an edge's label steps says: it is not spent, and its label part is that after
/// the row. Where there is no such row, a call needed more labels than were free, and the node is spent.
pub fn rows_are_calls()
    ensures made { (place : EdgePlace) (now : ℕ) (node : LabelNode) (calls : List Call) (row : List LabelStep) →
        node.spent ≡ None → label_row place now node.part calls ≡ Some row →
        IsBehindRow node.part row (all_called (node_place place.scenario place.me) place.core now node calls) }
    ensures lacks { (place : EdgePlace) (now : ℕ) (node : LabelNode) (calls : List Call) →
        node.spent ≡ None → label_row place now node.part calls ≡ None →
        (all_called (node_place place.scenario place.me) place.core now node calls).spent ≡ Some LacksLabel }
{}

/// What a row of label steps puts waits at an edge as at a label node after the calls. The first of them may be that the loss of a
/// session is noticed, which drops what waits for it; no tree of which the edge becomes or stops being a leaf is such a call.
pub fn row_octets_wait()
    ensures labels { (place : EdgePlace) (now : ℕ) (node : LabelNode) (own : Option Call) (changes : List Call) (row : List LabelStep)
        (waiting : FinMap peer_cmp (List ℕ)) → list_any is_noticed changes ≡ false → node.spent ≡ None →
        label_row place now node.part (one_call own ++ changes) ≡ Some row → AreLabelOctets waiting node.waiting →
        AreLabelOctets
        (with_puts
        (flat_map (label_puts place.me (addr_of place.scenario place.me) (label_place place.scenario place.core place.me) now) row)
        (without_lost own waiting))
        (all_called (node_place place.scenario place.me) place.core now node (one_call own ++ changes)).waiting }
    ensures changes { (old new : FinSet fec_cmp) → list_any is_noticed (changed_leaves old new) ≡ false }
{}

/// Where an edge has its label part in a label node, it has it there after each call: in the node after the calls of the step, one
/// after another. Where there is no step of the edge, both are spent.
pub fn edges_have_label_nodes()
    ensures made { (place : EdgePlace) (now : ℕ) (call : EdgeCall) (old : EdgeState) (node : LabelNode) (new : EdgeStepped) →
        IsLabelNode old node → old.spent ≡ None → edge_step place now old.edge call ≡ Some new →
        IsLabelNode (called place now old call)
        (all_called (node_place place.scenario place.me) place.core now node (label_calls place now old.edge.control call)) }
    ensures lacks { (place : EdgePlace) (now : ℕ) (call : EdgeCall) (old : EdgeState) (node : LabelNode) →
        IsLabelNode old node → old.spent ≡ None → edge_step place now old.edge call ≡ None →
        ((called place now old call).spent ≡ Some LacksLabel)
        × ((all_called (node_place place.scenario place.me) place.core now node (label_calls place now old.edge.control call)).spent
        ≡ Some LacksLabel) }
{}
