//! Octets that a node hands out to its sessions, and the lines that say so.
ghost use Rattle.std.specs.Prelude.{◌≡◌, ◌∷◌, [], OnOk, None};
ghost use Rattle.mv_base.specs.Lists.{Among};
ghost use Rattle.mv_base.specs.core_walks.Core.{Core};
ghost use Rattle.mv_base.specs.declared.ids.NodeId.{NodeId};
ghost use Rattle.scenario_defs.specs.declared.scenario.Scenario.{Scenario};
ghost use Rattle.network_defs.specs.declared.session_defs.direction.Direction.{Direction};
ghost use Rattle.network_nodes.specs.wire_laws.AnyNodes.{AnyNode};
ghost use Rattle.mldp_node.specs.NodeData.{IsWaitingTowardRoots};
ghost use Rattle.network_nodes.specs.NodeView.{IsNode, IsPlacedAt, MayBePeer, labels_in, spent_in};
ghost use Rattle.network_acts.specs.control_plane.Handing.{HandsOut};

use mv_base::NoMemory;
use net_sessions::session_transit::Transit;
use network_defs::session_defs::Direction;
use network_nodes::NetworkNode;
use scenario_defs::{Lines, ReportLine};

/// Hands out what waits for the session of a direction.
fn hand_over(
    node: &mut NetworkNode,
    transit: &mut Transit,
    way: Direction,
    lines: &mut Lines,
) -> Result<(), NoMemory>
    requires peer { MayBePeer node.old way.kind way.to }
    requires unspent { spent_in node.old ≡ None }
    ensures handed { OnOk result ((state : AnyNode) → IsNode state node.old →
        HandsOut (way ∷ []) state node.new transit.old transit.new lines.old lines.new) }
    ensures unspent { spent_in node.new ≡ None }
    ensures peers { (other : Direction) → MayBePeer node.old other.kind other.to → MayBePeer node.new other.kind other.to }
    ensures placed { (scenario : Scenario) (n : NodeId) → IsPlacedAt scenario n node.old → IsPlacedAt scenario n node.new }
    ensures waits { (own : Core) → IsWaitingTowardRoots own (labels_in node.old) → IsWaitingTowardRoots own (labels_in node.new) }
{
    let bytes = node.take_out(way.kind, way.to);
    if bytes.is_empty() {
        return Ok(());
    }
    transit.put(way, bytes.as_slice())?;
    lines.push(ReportLine::Put {
        kind: way.kind,
        from: way.from,
        to: way.to,
        bytes,
    })
}

/// Hands out what waits for the sessions of these directions, in their order.
pub(crate) fn hand_out(
    node: &mut NetworkNode,
    transit: &mut Transit,
    ways: &[Direction],
    lines: &mut Lines,
) -> Result<(), NoMemory>
    requires peers { (over : Direction) → Among over ways.now → MayBePeer node.old over.kind over.to }
    requires unspent { spent_in node.old ≡ None }
    ensures handed { OnOk result ((state : AnyNode) → IsNode state node.old →
        HandsOut ways.now state node.new transit.old transit.new lines.old lines.new) }
    ensures unspent { spent_in node.new ≡ None }
    ensures placed { (scenario : Scenario) (n : NodeId) → IsPlacedAt scenario n node.old → IsPlacedAt scenario n node.new }
    ensures waits { (own : Core) → IsWaitingTowardRoots own (labels_in node.old) → IsWaitingTowardRoots own (labels_in node.new) }
{
    for way in ways {
        hand_over(node, transit, *way, lines)?;
    }
    Ok(())
}
