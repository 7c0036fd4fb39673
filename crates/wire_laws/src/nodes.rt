//! Laws of a node of the whole network, as its callers have it.
ghost use Rattle.std.specs.Prelude.{◌≡◌, ℕ, true, [], take, None, Some};
ghost use Rattle.mv_base.specs.declared.ids.NodeId.{NodeId};
ghost use Rattle.label_defs.specs.Node.{LacksLabel};
ghost use Rattle.scenario_defs.specs.declared.event.Kind.{Kind};
ghost use Rattle.network_defs.specs.session_defs.Octets.{Call, Move, OctetNetwork, octet_act};
ghost use Rattle.network_defs.specs.session_defs.System.{Behind};
ghost use Rattle.edge_defs.specs.Steps.{Call as NodeStep, Rerouted};
ghost use Rattle.network_defs.specs.Counts.{direction};
ghost use Rattle.network_defs.specs.Nodes.{Nodes, following};
ghost use Rattle.network_defs.specs.System.{NodeCall, Own, Follow, system};
ghost use Rattle.wire_laws.specs.AnyNodes.{AnyNode, HasSessions, IsElsewhere, IsNodeAt, IsNodeBefore};
ghost use Rattle.wire_laws.specs.AnyNodes.{node_after, node_fault, node_taking, rest_of, spent_of, with_known};

/// A call of a node is the act of the network: what waits for its sessions after it is what the act puts over them (RFC 4271 section 9.2,
/// RFC 5036 section 3.5), and elsewhere nothing changes. Where the act runs out of labels, the call does.
pub fn calls_of_a_node_are_acts()
    ensures made { (n : NodeId) (network : OctetNetwork Nodes) (node : AnyNode) (call : NodeStep) (new : Behind (OctetNetwork Nodes)) →
        IsNodeBefore n network call node → octet_act system network (Call (Own n call)) ≡ Some new →
        IsNodeAt n new.network new.puts (node_after network.state n node call) × IsElsewhere n network network.transit new }
    ensures lacks { (n : NodeId) (network : OctetNetwork Nodes) (node : AnyNode) (call : NodeStep) →
        IsNodeBefore n network call node → octet_act system network (Call (Own n call)) ≡ None →
        spent_of (node_after network.state n node call) ≡ Some LacksLabel }
{}

/// A node that takes over the present costs makes a step by them.
pub fn nodes_follow_the_costs()
    ensures made { (n : NodeId) (network : OctetNetwork Nodes) (node : AnyNode) (new : Behind (OctetNetwork Nodes)) →
        IsNodeAt n network [] node → octet_act system network (Call (Follow n)) ≡ Some new →
        IsNodeAt n new.network new.puts (node_after (following network.state n) n node Rerouted)
        × IsElsewhere n (with_known n network) network.transit new }
    ensures lacks { (n : NodeId) (network : OctetNetwork Nodes) (node : AnyNode) →
        IsNodeAt n network [] node → octet_act system network (Call (Follow n)) ≡ None →
        spent_of (node_after (following network.state n) n node Rerouted) ≡ Some LacksLabel }
{}

/// Octets that are moved to a node, whose stream has had no fault, are taken by it as its callers have it: they go to its stream, and the
/// messages that are whole then each make their step.
pub fn octets_that_a_node_takes_are_moved()
    ensures made { (n from : NodeId) (kind : Kind) (count : ℕ) (network : OctetNetwork Nodes) (node : AnyNode)
        (new : Behind (OctetNetwork Nodes)) → IsNodeAt n network [] node → HasSessions kind node →
        network.joined (direction kind from n) ≡ true → node_fault node kind from ≡ None →
        octet_act system network (Move (direction kind from n) count) ≡ Some new →
        IsNodeAt n new.network new.puts (node_taking network.state n node kind from (take count (network.transit (direction kind from n))))
        × IsElsewhere n network (rest_of network (direction kind from n) count) new }
    ensures lacks { (n from : NodeId) (kind : Kind) (count : ℕ) (network : OctetNetwork Nodes) (node : AnyNode) →
        IsNodeAt n network [] node → HasSessions kind node →
        network.joined (direction kind from n) ≡ true → node_fault node kind from ≡ None →
        octet_act system network (Move (direction kind from n) count) ≡ None →
        spent_of (node_taking network.state n node kind from (take count (network.transit (direction kind from n)))) ≡ Some LacksLabel }
{}
