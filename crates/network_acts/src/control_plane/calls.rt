//! What comes of a call of a node: what it puts is handed out (RFC 4271 section 9.2, RFC 5036 section 3.5).
ghost use Rattle.std.specs.Prelude.{[], OnOk};
ghost use Rattle.network_nodes.specs.Edges.{IsOneOf};
ghost use Rattle.network_acts.specs.control_plane.Acted.{HandsOutAt, IsSomeMidway, Settles};
ghost use Rattle.network_acts.specs.control_plane.Plane.{KeepsPlaces};

use crate::control_plane::handing;
use crate::control_plane::plane::{ActAnswer, ControlPlane, halt_of};
use mldp_node::NodeFault;
use mv_base::{NoMemory, NodeId};
use network_nodes::EdgeFault;
use scenario_defs::Lines;

impl ControlPlane {
    /// Node n hands out what it has put, over its directions in order.
    pub(crate) fn hand_out(&mut self, n: NodeId, lines: &mut Lines) -> Result<(), NoMemory>
        requires { IsSomeMidway n self.old }
        ensures acts { HandsOutAt n self.old self.new lines.old lines.new result }
        ensures places { KeepsPlaces self.old self.new }
    {
        let at = usize::from(n.0);
        let ways = self.ways.as_slice()[at].as_slice();
        handing::hand_out(&mut self.nodes[at], &mut self.transit, ways, lines)
    }

    /// What comes of an act of node n, by what the node answered.
    pub(crate) fn settle(
        &mut self,
        n: NodeId,
        answer: Result<(), EdgeFault>,
        lines: &mut Lines,
    ) -> ActAnswer
        requires midway { OnOk answer (IsSomeMidway n self.old) }
        requires spends { IsOneOf [] answer }
        ensures acts { Settles n answer self.old self.new lines.old lines.new result }
        ensures places { KeepsPlaces self.old self.new }
    {
        match answer {
            Ok(()) => match self.hand_out(n, lines) {
                Ok(()) => Ok(()),
                Err(_) => Err(NodeFault::NoMemory),
            },
            Err(fault) => Err(halt_of(fault)),
        }
    }
}
