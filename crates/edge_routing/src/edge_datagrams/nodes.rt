//! The nodes of an edge's scenario, and the prefixes that the edge knows.
ghost use Rattle.std.specs.Prelude.{◌≡◌, ◌<◌, ◌≤◌, length, position, IfSome};
ghost use Rattle.mv_base.specs.Address.{same_addr};
ghost use Rattle.edge_defs.specs.Place.{node_with};
ghost use Rattle.edge_routing.specs.edge_datagrams.Datagrams.{AreOfOctets};

use edge_control::EdgeControl;
use mldp::mldp_fec::Fec;
use mv_base::{Addr, NodeId};
use scenario_defs::{Node, Scenario};

/// The place of the first of the nodes that has the address.
fn position_of(nodes: &[Node], addr: Addr) -> Option<usize>
    ensures value { result ≡ position (λ node. same_addr node.addr addr) nodes.now }
    ensures within { IfSome result (λ place. place < length nodes.now) }
{
    nodes.iter().position(|node| node.addr == addr)
}

/// The node that is the root of the tunnel.
pub fn root_of(scenario: &Scenario, fec: &Fec) -> Option<NodeId>
    requires { length scenario.now.nodes ≤ 64 }
    ensures { result ≡ node_with scenario.now fec.now.root }
{
    match position_of(scenario.nodes.as_slice(), fec.root) {
        None => None,
        Some(place) => Some(NodeId(place as u16)),
    }
}

/// Shows that the prefixes that the edge has, and those that it took, are of octets.
pub(crate) fn are_of_octets(control: &EdgeControl)
    ensures { AreOfOctets control.now }
{
    let home = control.home();
    let _ = home.scenario();
    let _ = control.taken().entries(home.me());
}
