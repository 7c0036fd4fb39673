//! Laws of the ends of sessions: they come up by raises alone, and go down by notices.
ghost use Rattle.std.specs.Prelude.{◌≡◌, ℕ, Some};
ghost use Rattle.mv_base.specs.declared.ids.NodeId.{NodeId};
ghost use Rattle.scenario_defs.specs.declared.event.Kind.{Kind};
ghost use Rattle.network_defs.specs.session_defs.Octets.{Call, Move, OctetNetwork, octet_act};
ghost use Rattle.network_defs.specs.session_defs.System.{Behind};
ghost use Rattle.network_defs.specs.declared.session_defs.direction.Direction.{Direction};
ghost use Rattle.edge_defs.specs.Steps.{Call as NodeStep, Timers};
ghost use Rattle.network_defs.specs.Counts.{is_end_up};
ghost use Rattle.network_defs.specs.Nodes.{Nodes};
ghost use Rattle.network_defs.specs.System.{NodeCall, Own, Follow, system};
ghost use Rattle.wire_laws.specs.Ends.{HasCall, end_after, hold_after, hold_timed, is_hold_run};

/// The end of a node's session comes up by a raise of that node and goes down by a notice of it; no other call, no octets that are taken
/// and no change of costs move it.
pub fn ends_come_up_by_raises()
    ensures calls { (n : NodeId) (network : OctetNetwork Nodes) (call : NodeStep) (new : Behind (OctetNetwork Nodes)) →
        octet_act system network (Call (Own n call)) ≡ Some new → HasCall n network call → (kind : Kind) (m peer : NodeId) →
        is_end_up kind (new.network.state.node m) peer ≡ end_after n call kind m peer (is_end_up kind (network.state.node m) peer) }
    ensures follows { (n : NodeId) (network : OctetNetwork Nodes) (new : Behind (OctetNetwork Nodes)) →
        octet_act system network (Call (Follow n)) ≡ Some new → (kind : Kind) (m peer : NodeId) →
        is_end_up kind (new.network.state.node m) peer ≡ is_end_up kind (network.state.node m) peer }
    ensures moves { (over : Direction) (count : ℕ) (network : OctetNetwork Nodes) (new : Behind (OctetNetwork Nodes)) →
        octet_act system network (Move over count) ≡ Some new → (kind : Kind) (m peer : NodeId) →
        is_end_up kind (new.network.state.node m) peer ≡ is_end_up kind (network.state.node m) peer }
{}

/// The hold of an end over LDP is run by the node's timers alone, and begins again with a raise.
pub fn holds_are_run_by_timers()
    ensures calls { (n : NodeId) (network : OctetNetwork Nodes) (call : NodeStep) (new : Behind (OctetNetwork Nodes)) →
        octet_act system network (Call (Own n call)) ≡ Some new → ¬ (call ≡ Timers) → (m peer : NodeId) →
        is_hold_run (new.network.state.node m) peer ≡ hold_after n call m peer (is_hold_run (network.state.node m) peer) }
    ensures timed { (n : NodeId) (network : OctetNetwork Nodes) (new : Behind (OctetNetwork Nodes)) →
        octet_act system network (Call (Own n Timers)) ≡ Some new → (peer : NodeId) →
        is_hold_run (new.network.state.node n) peer ≡ hold_timed network.state.scenario.life network.state.clock (network.state.node n) peer }
    ensures follows { (n : NodeId) (network : OctetNetwork Nodes) (new : Behind (OctetNetwork Nodes)) →
        octet_act system network (Call (Follow n)) ≡ Some new → (m peer : NodeId) →
        is_hold_run (new.network.state.node m) peer ≡ is_hold_run (network.state.node m) peer }
    ensures moves { (over : Direction) (count : ℕ) (network : OctetNetwork Nodes) (new : Behind (OctetNetwork Nodes)) →
        octet_act system network (Move over count) ≡ Some new → (m peer : NodeId) →
        is_hold_run (new.network.state.node m) peer ≡ is_hold_run (network.state.node m) peer }
{}
