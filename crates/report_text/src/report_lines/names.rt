//! The nodes and interfaces that texts name.
ghost use Rattle.std.specs.Prelude.{◌≡◌, position, nat_eq};
ghost use Rattle.std.specs.Cmp.Lexicographic.{pointwise};
ghost use Rattle.report_text.specs.report_lines.Fields.{is_node_named, is_iface_named, node_named, iface_named};

use mv_base::{IfaceId, NodeId};
use scenario_defs::{Iface, Node, Scenario};

fn is_node_named(text: &[u8], node: &Node) -> bool
    ensures { result ≡ is_node_named text.now node.now }
{
    node.name.octets() == text
}

fn is_iface_named(text: &[u8], iface: &Iface) -> bool
    ensures { result ≡ is_iface_named text.now iface.now }
{
    iface.name.octets() == text
}

fn node_place(text: &[u8], nodes: &[Node]) -> Option<usize>
    ensures { result ≡ position (is_node_named text.now) nodes.now }
{
    nodes.iter().position(|node| is_node_named(text, node))
}

fn iface_place(text: &[u8], ifaces: &[Iface]) -> Option<usize>
    ensures { result ≡ position (is_iface_named text.now) ifaces.now }
{
    ifaces.iter().position(|iface| is_iface_named(text, iface))
}

/// The node that a text names.
#[tactic(auto, unfolding(crate::specs::report_lines::Fields::node_named))]
pub fn node_named(scenario: &Scenario, text: &[u8]) -> Option<NodeId>
    ensures { result ≡ node_named scenario.now text.now }
{
    let place = node_place(text, scenario.nodes.as_slice())?;
    Some(NodeId(u16::try_from(place).ok()?))
}

/// The interface that a text names.
#[tactic(auto, unfolding(crate::specs::report_lines::Fields::iface_named))]
pub fn iface_named(scenario: &Scenario, text: &[u8]) -> Option<IfaceId>
    ensures { result ≡ iface_named scenario.now text.now }
{
    let place = iface_place(text, scenario.ifaces.as_slice())?;
    Some(IfaceId(u16::try_from(place).ok()?))
}
