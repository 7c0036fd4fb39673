//! Laws of an edge whose parts are kept apart.
ghost use Rattle.std.specs.Prelude.{◌≡◌, ◌≢◌, ℕ, ◌++◌, List, None, Some};
ghost use Rattle.mv_base.specs.Lists.{Among};
ghost use Rattle.mv_base.specs.declared.ids.NodeId.{NodeId};
ghost use Rattle.label_defs.specs.Node.{LabelNode, LacksLabel};
ghost use Rattle.network_defs.specs.mvpn_model.Sessions.{edges};
ghost use Rattle.edge_defs.specs.Edge.{Control};
ghost use Rattle.edge_defs.specs.Held.{put_to};
ghost use Rattle.edge_defs.specs.Place.{EdgePlace};
ghost use Rattle.edge_defs.specs.Steps.{Call, control_step, raised_after};
ghost use Rattle.edge_defs.specs.Tunnels.{leaves};
ghost use Rattle.network_defs.specs.node_defs.EdgeState.{EdgeState, called};
ghost use Rattle.node_laws.specs.Parts.{HasParts};
ghost use Rattle.node_laws.specs.Places.{node_place};
ghost use Rattle.node_laws.specs.Rows.{all_called, label_calls};
ghost use Rattle.node_laws.specs.Waits.{kept_for, update_octets};

/// An edge whose parts each make a call makes it: where what it keeps is that of the step, its label node is after the calls of the step,
/// and the UPDATE messages of the changes wait for each peer. Where the label node lacks a label, the edge does. Where the label node was
/// a leaf of the trees of which the edge is to be one, it is so after the calls. When the end of each BGP session came up is told by the
/// call alone.
pub fn parts_make_a_step()
    ensures made { (place : EdgePlace) (now : ℕ) (call : Call) (state : EdgeState) (control new_control : Control) (node new_node : LabelNode)
        (waiting new_waiting : NodeId → List ℕ) → HasParts place state control node waiting →
        new_control ≡ control_step place now control call →
        new_node ≡ all_called (node_place place.scenario place.me) place.core now node (label_calls place now control call) →
        new_node.spent ≡ None →
        ((peer : NodeId) → Among peer (edges place.scenario) → peer ≢ place.me →
        new_waiting peer ≡ kept_for call peer (waiting peer) ++ update_octets (put_to place control new_control peer)) →
        HasParts place (called place now state call) new_control new_node new_waiting }
    ensures lacks { (place : EdgePlace) (now : ℕ) (call : Call) (state : EdgeState) (control : Control) (node : LabelNode)
        (waiting : NodeId → List ℕ) → HasParts place state control node waiting →
        (all_called (node_place place.scenario place.me) place.core now node (label_calls place now control call)).spent ≡ Some LacksLabel →
        (called place now state call).spent ≡ Some LacksLabel }
    ensures leaves { (place : EdgePlace) (now : ℕ) (call : Call) (control : Control) (node new_node : LabelNode) →
        node.spent ≡ None → node.part.leaves ≡ leaves place control →
        new_node ≡ all_called (node_place place.scenario place.me) place.core now node (label_calls place now control call) →
        new_node.spent ≡ None → new_node.part.leaves ≡ leaves place (control_step place now control call) }
    ensures raised { (place : EdgePlace) (now : ℕ) (call : Call) (state : EdgeState) → state.spent ≡ None →
        (called place now state call).spent ≡ None → (called place now state call).edge.raised ≡ raised_after now state.edge.raised call }
{}
