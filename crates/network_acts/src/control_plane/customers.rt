//! Calls of customers and of the operator, at the edge of an interface or of a VRF (RFC 7761 section 4.5, RFC 6514 sections 12.1 and 14).
ghost use Rattle.std.specs.Prelude.{[], ◌∷◌, OnOk};
ghost use Rattle.network_nodes.specs.Edges.{IsOneOf};
ghost use Rattle.network_nodes.specs.Faults as faults;
ghost use Rattle.network_acts.specs.control_plane.Acted.{IsSomeMidway};
ghost use Rattle.network_acts.specs.control_plane.Customers.{SettlesCustomer};
ghost use Rattle.network_acts.specs.control_plane.Plane.{KeepsPlaces};

use crate::control_plane::plane::ControlPlane;
use mldp_node::NodeFault;
use mv_base::NodeId;
use network_nodes::EdgeFault;
use scenario_defs::Lines;

/// What became of a call for which there may be no room.
#[derive(Clone, Copy, PartialEq, Eq)]
pub enum Verdict {
    /// The call was made.
    Made,
    /// There is no room for it, and nothing changed.
    Full,
}

impl ControlPlane {
    /// What comes of a call of a customer or of the operator at node n, by what the node answered.
    pub(crate) fn settle_customer(
        &mut self,
        n: NodeId,
        answer: Result<(), EdgeFault>,
        lines: &mut Lines,
    ) -> Result<Verdict, NodeFault>
        requires midway { OnOk answer (IsSomeMidway n self.old) }
        requires only { IsOneOf (faults.Full ∷ []) answer }
        ensures acts { SettlesCustomer n answer self.old self.new lines.old lines.new result }
        ensures places { KeepsPlaces self.old self.new }
    {
        if let Err(EdgeFault::Full) = answer {
            return Ok(Verdict::Full);
        }
        match self.settle(n, answer, lines) {
            Ok(()) => Ok(Verdict::Made),
            Err(halt) => Err(halt),
        }
    }
}
