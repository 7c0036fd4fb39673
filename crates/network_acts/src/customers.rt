//! Calls of customers and of the operator, at the edge of an interface or of a VRF (RFC 7761 section 4.5, RFC 6514 sections 12.1 and 14).
ghost use Rattle.network_nodes.specs.Edges.{customer_call};
ghost use Rattle.network_acts.specs.control_plane.Customers.{FitsAt};
ghost use Rattle.network_acts.specs.Customers.{CustomerActsAs};
ghost use Rattle.network_acts.specs.Instant.{IsSome, OfPlane};

use crate::control_plane::{CustomerCall, Verdict};
use crate::network::Network;
use mldp_node::NodeFault;
use mv_base::NodeId;
use network_nodes::{EdgeCall, NetworkNode};
use scenario_defs::Lines;

impl Network {
    /// Makes the call of a customer or of the operator at node n.
    pub fn call(
        &mut self,
        n: NodeId,
        call: CustomerCall<'_>,
        lines: &mut Lines,
    ) -> Result<Verdict, NodeFault>
        requires network { IsSome (OfPlane (FitsAt n (customer_call call))) self.old }
        ensures { CustomerActsAs n (customer_call call.entry) self.old self.new lines.old lines.new result }
    {
        let plane = &mut self.plane;
        match &mut plane.nodes[usize::from(n.0)] {
            NetworkNode::Edge(edge) => {
                let answer = edge.call(EdgeCall::Customer(call), plane.clock, &plane.core);
                plane.settle_customer(n, answer, lines)
            }
            NetworkNode::CoreNode(_) => unreachable!(),
        }
    }
}
