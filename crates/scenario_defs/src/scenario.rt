//! The things that a scenario declares.
use mv_base::route_targets::Targets;
use mv_base::{Addr, IfaceId, Inline, Link, NodeId, Prefix, Rd, Rule, Seq, SiteId, VrfId};

/// The most octets of a name.
pub const NAME_LIMIT: usize = 16;

/// A name of a node, VRF, site or interface: 1 to 16 letters, digits, underscores and hyphens, a letter first.
pub type Name = Inline<16>;

/// A node of the provider: an edge (a PE router, RFC 4364 section 1.2), or a core node.
#[derive(Clone, Copy)]
pub struct Node {
    pub name: Name,
    pub addr: Addr,
    pub edge: bool,
}

/// A VRF of an edge.
#[derive(Clone, Copy)]
pub struct Vrf {
    pub name: Name,
    pub edge: NodeId,
    pub number: u16,
    pub rd: Rd,
    pub targets: Targets,
    pub rule: Rule,
}

/// A customer site, with the prefixes of its hosts.
#[derive(Drop)]
pub struct Site {
    pub name: Name,
    pub prefixes: Prefixes,
}

/// An interface that attaches a site to a VRF.
#[derive(Clone, Copy)]
pub struct Iface {
    pub name: Name,
    pub vrf: VrfId,
    pub site: SiteId,
    pub addr: Addr,
}

/// A thing that a scenario declares, by its number.
#[derive(Clone, Copy)]
pub enum Thing {
    Node(NodeId),
    Vrf(VrfId),
    Site(SiteId),
    Iface(IfaceId),
}

/// A prefix of a site that is attached to a VPN: what the VPN's unicast routes tell.
#[derive(Clone, Copy, PartialEq, Eq)]
pub struct Route {
    pub prefix: Prefix,
    pub site: SiteId,
}

pub type Nodes = Seq<Node>;

pub type Links = Seq<Link>;

pub type Vrfs = Seq<Vrf>;

pub type Prefixes = Seq<Prefix>;

pub type Sites = Seq<Site>;

pub type Ifaces = Seq<Iface>;

pub type IfaceList = Seq<IfaceId>;

/// A provider's network and its customers. Things are numbered from 0 in order of declaration.
#[derive(Drop)]
pub struct Scenario {
    /// Ticks that a copy may spend on a link.
    pub life: u64,
    /// Ticks before a root sends on a newly selected tunnel.
    pub delay: u64,
    /// Label numbers of a node.
    pub labels: u32,
    /// The autonomous system.
    pub system: u16,
    pub nodes: Nodes,
    pub links: Links,
    pub vrfs: Vrfs,
    pub sites: Sites,
    pub ifaces: Ifaces,
}
