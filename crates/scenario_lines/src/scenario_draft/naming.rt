//! The words that declare or name a thing: what each says, given what the lines before it declared, or the fault at it.
ghost use Rattle.std.specs.Prelude.{◌≡◌};
ghost use Rattle.std.specs.List.{list_any};
ghost use Rattle.line_words.specs.Words.{placed_word};
ghost use Rattle.scenario_lines.specs.scenario_draft.Naming.{node_of, vrf_of, site_of, iface_of, node_named, edge_named, vrf_named, site_named};
ghost use Rattle.scenario_lines.specs.scenario_draft.Naming.{iface_named, new_name, node_at, edge_at, vrf_at, site_at, iface_at, is_of_iface, is_at};
ghost use Rattle.scenario_lines.specs.scenario_draft.Naming.{node_addr_at, has_number, vrf_number_at, has_rd, rd_at, joins, other_end_at};

use crate::scenario_draft::draft::Draft;
use line_words::{
    Reason, Row, TextFault, Word, fault_at, ipv4_at, is_name, is_unicast, or_fault, rd_of,
    same_family, vrf_number_of,
};
use mv_base::{Addr, IfaceId, Link, NodeId, Rd, SiteId, VrfId};
use scenario_defs::{Name, Node, Thing, Vrf};

fn node_of(thing: Thing) -> Option<NodeId>
    ensures { result ≡ node_of thing }
{
    match thing {
        Thing::Node(id) => Some(id),
        _ => None,
    }
}

fn vrf_of(thing: Thing) -> Option<VrfId>
    ensures { result ≡ vrf_of thing }
{
    match thing {
        Thing::Vrf(id) => Some(id),
        _ => None,
    }
}

fn site_of(thing: Thing) -> Option<SiteId>
    ensures { result ≡ site_of thing }
{
    match thing {
        Thing::Site(id) => Some(id),
        _ => None,
    }
}

fn iface_of(thing: Thing) -> Option<IfaceId>
    ensures { result ≡ iface_of thing }
{
    match thing {
        Thing::Iface(id) => Some(id),
        _ => None,
    }
}

#[tactic(auto, unfolding(crate::specs::scenario_draft::Naming::node_named))]
fn node_named(draft: &Draft, text: &[u8]) -> Option<NodeId>
    ensures { result ≡ node_named draft.now text.now }
{
    let id = node_of(draft.named(text)?)?;
    let _node = draft.scenario().nodes.as_slice().get(usize::from(id.0))?;
    Some(id)
}

#[tactic(auto, unfolding(crate::specs::scenario_draft::Naming::edge_named))]
fn edge_named(draft: &Draft, text: &[u8]) -> Option<NodeId>
    ensures { result ≡ edge_named draft.now text.now }
{
    let id = node_of(draft.named(text)?)?;
    let node = draft.scenario().nodes.as_slice().get(usize::from(id.0))?;
    if node.edge { Some(id) } else { None }
}

#[tactic(auto, unfolding(crate::specs::scenario_draft::Naming::vrf_named))]
fn vrf_named(draft: &Draft, text: &[u8]) -> Option<VrfId>
    ensures { result ≡ vrf_named draft.now text.now }
{
    let id = vrf_of(draft.named(text)?)?;
    let _vrf = draft.scenario().vrfs.as_slice().get(usize::from(id.0))?;
    Some(id)
}

#[tactic(auto, unfolding(crate::specs::scenario_draft::Naming::site_named))]
fn site_named(draft: &Draft, text: &[u8]) -> Option<SiteId>
    ensures { result ≡ site_named draft.now text.now }
{
    let id = site_of(draft.named(text)?)?;
    let _site = draft.scenario().sites.as_slice().get(usize::from(id.0))?;
    Some(id)
}

#[tactic(auto, unfolding(crate::specs::scenario_draft::Naming::iface_named))]
fn iface_named(draft: &Draft, text: &[u8]) -> Option<IfaceId>
    ensures { result ≡ iface_named draft.now text.now }
{
    let id = iface_of(draft.named(text)?)?;
    let _iface = draft.scenario().ifaces.as_slice().get(usize::from(id.0))?;
    Some(id)
}

/// A name that is not declared: `Name` where the word does not have the form of one, `Again` where a thing has it.
#[tactic(auto, unfolding(crate::specs::scenario_draft::Naming::new_name))]
pub fn new_name(draft: &Draft, row: Row, word: &Word) -> Result<Name, TextFault>
    ensures { result ≡ new_name draft.now row (placed_word word.now) }
{
    if !is_name(word.text) {
        return Err(fault_at(row.number, word.column, Reason::Name));
    }
    if draft.named(word.text).is_some() {
        return Err(fault_at(row.number, word.column, Reason::Again));
    }
    match Name::of(word.text) {
        Some(name) => Ok(name),
        None => unreachable!(),
    }
}

/// The node that a word names, or `Unknown`.
#[tactic(auto, unfolding(crate::specs::scenario_draft::Naming::node_at))]
pub fn node_at(draft: &Draft, row: Row, word: &Word) -> Result<NodeId, TextFault>
    ensures { result ≡ node_at draft.now row (placed_word word.now) }
{
    or_fault(node_named(draft, word.text), row, word, Reason::Unknown)
}

/// The edge that a word names, or `Unknown`.
#[tactic(auto, unfolding(crate::specs::scenario_draft::Naming::edge_at))]
pub fn edge_at(draft: &Draft, row: Row, word: &Word) -> Result<NodeId, TextFault>
    ensures { result ≡ edge_at draft.now row (placed_word word.now) }
{
    or_fault(edge_named(draft, word.text), row, word, Reason::Unknown)
}

/// The VRF that a word names, or `Unknown`.
#[tactic(auto, unfolding(crate::specs::scenario_draft::Naming::vrf_at))]
pub fn vrf_at(draft: &Draft, row: Row, word: &Word) -> Result<VrfId, TextFault>
    ensures { result ≡ vrf_at draft.now row (placed_word word.now) }
{
    or_fault(vrf_named(draft, word.text), row, word, Reason::Unknown)
}

/// The site that a word names, or `Unknown`.
#[tactic(auto, unfolding(crate::specs::scenario_draft::Naming::site_at))]
pub fn site_at(draft: &Draft, row: Row, word: &Word) -> Result<SiteId, TextFault>
    ensures { result ≡ site_at draft.now row (placed_word word.now) }
{
    or_fault(site_named(draft, word.text), row, word, Reason::Unknown)
}

/// The interface that a word names, or `Unknown`.
#[tactic(auto, unfolding(crate::specs::scenario_draft::Naming::iface_at))]
pub fn iface_at(draft: &Draft, row: Row, word: &Word) -> Result<IfaceId, TextFault>
    ensures { result ≡ iface_at draft.now row (placed_word word.now) }
{
    or_fault(iface_named(draft, word.text), row, word, Reason::Unknown)
}

/// Whether the group is of the family of the interface's address.
pub fn is_of_iface(draft: &Draft, iface: IfaceId, group: Addr) -> bool
    ensures { result ≡ is_of_iface draft.now iface group }
{
    match draft.scenario().ifaces.as_slice().get(usize::from(iface.0)) {
        Some(own) => same_family(own.addr, group),
        None => false,
    }
}

fn is_at_any(addr: Addr, nodes: &[Node]) -> bool
    ensures { result ≡ list_any (is_at addr) nodes.now }
{
    nodes.iter().any(|node| node.addr.same(addr))
}

/// The address of a new node, of IPv4: `Address` where the word writes none, or one that is not unicast; `Again` where a
/// node has it.
#[tactic(auto, unfolding(crate::specs::scenario_draft::Naming::node_addr_at))]
pub fn node_addr_at(draft: &Draft, row: Row, word: &Word) -> Result<Addr, TextFault>
    ensures { result ≡ node_addr_at draft.now row (placed_word word.now) }
{
    let addr = ipv4_at(row, word)?;
    if !is_unicast(addr) {
        return Err(fault_at(row.number, word.column, Reason::Address));
    }
    if is_at_any(addr, draft.scenario().nodes.as_slice()) {
        return Err(fault_at(row.number, word.column, Reason::Again));
    }
    Ok(addr)
}

fn has_number(edge: NodeId, number: u16, vrf: &Vrf) -> bool
    ensures { result ≡ has_number edge number vrf.now }
{
    vrf.edge.0 == edge.0 && vrf.number == number
}

fn is_number_taken(edge: NodeId, number: u16, vrfs: &[Vrf]) -> bool
    ensures { result ≡ list_any (has_number edge number) vrfs.now }
{
    vrfs.iter().any(|vrf| has_number(edge, number, vrf))
}

/// The number of a new VRF at the edge: `Number` where the word writes none of 1 to 4,095, `Again` where a VRF of the edge
/// has it.
#[tactic(auto, unfolding(crate::specs::scenario_draft::Naming::vrf_number_at))]
pub fn vrf_number_at(draft: &Draft, row: Row, edge: NodeId, word: &Word) -> Result<u16, TextFault>
    ensures { result ≡ vrf_number_at draft.now row edge (placed_word word.now) }
{
    let number = or_fault(vrf_number_of(word.text), row, word, Reason::Number)?;
    if is_number_taken(edge, number, draft.scenario().vrfs.as_slice()) {
        return Err(fault_at(row.number, word.column, Reason::Again));
    }
    Ok(number)
}

fn has_rd(edge: NodeId, rd: Rd, vrf: &Vrf) -> bool
    ensures { result ≡ has_rd edge rd vrf.now }
{
    vrf.edge.0 == edge.0 && vrf.rd.0 == rd.0
}

fn is_rd_taken(edge: NodeId, rd: Rd, vrfs: &[Vrf]) -> bool
    ensures { result ≡ list_any (has_rd edge rd) vrfs.now }
{
    vrfs.iter().any(|vrf| has_rd(edge, rd, vrf))
}

/// The route distinguisher of a new VRF at the edge: `Rd` where the word writes none, `Again` where a VRF of the edge has it.
#[tactic(auto, unfolding(crate::specs::scenario_draft::Naming::rd_at))]
pub fn rd_at(draft: &Draft, row: Row, edge: NodeId, word: &Word) -> Result<Rd, TextFault>
    ensures { result ≡ rd_at draft.now row edge (placed_word word.now) }
{
    let rd = or_fault(rd_of(word.text), row, word, Reason::Rd)?;
    if is_rd_taken(edge, rd, draft.scenario().vrfs.as_slice()) {
        return Err(fault_at(row.number, word.column, Reason::Again));
    }
    Ok(rd)
}

fn joins(a: NodeId, b: NodeId, link: &Link) -> bool
    ensures { result ≡ joins a b link.now }
{
    (link.a.0 == a.0 && link.b.0 == b.0) || (link.a.0 == b.0 && link.b.0 == a.0)
}

/// Whether a link joins both nodes, in either order.
pub fn are_joined(a: NodeId, b: NodeId, links: &[Link]) -> bool
    ensures { result ≡ list_any (joins a b) links.now }
{
    links.iter().any(|link| joins(a, b, link))
}

/// The other end of a new link: `Unknown` where the word names no node, `Again` where a link joins both.
#[tactic(auto, unfolding(crate::specs::scenario_draft::Naming::other_end_at))]
pub fn other_end_at(draft: &Draft, row: Row, a: NodeId, word: &Word) -> Result<NodeId, TextFault>
    ensures { result ≡ other_end_at draft.now row a (placed_word word.now) }
{
    let b = node_at(draft, row, word)?;
    if are_joined(a, b, draft.scenario().links.as_slice()) {
        return Err(fault_at(row.number, word.column, Reason::Again));
    }
    Ok(b)
}
