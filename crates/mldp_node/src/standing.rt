//! Where a node stands.
ghost use Rattle.std.specs.Prelude.{◌≡◌, ◌<◌, ◌≤◌, ◌&&◌, length, position, IfSome};
ghost use Rattle.std.specs.List.{list_any};
ghost use Rattle.mv_base.specs.Address.{same_addr};
ghost use Rattle.mv_base.specs.core_walks.Core.{Core as Walks, IsCoreOf};
ghost use Rattle.mldp.specs.mldp_msgs.Spelling.{IsRouter};
ghost use Rattle.label_defs.specs.Node.{NodePlace, is_p2mp, node_at, addr_in, place_in};
ghost use Rattle.mldp_node.specs.Standing.{IsPlace};

use core_paths::Core;
use mldp::mldp_fec::{Fec, FecKind};
use mv_base::{Addr, NodeId, Seq};
use std::alloc::Global;
use std::marker::Model;

/// Which of the nodes it is, the addresses of all nodes by number, and how long a copy may be on a link, in ticks.
#[derive(Drop)]
pub(crate) struct Standing {
    me: NodeId,
    addrs: Seq<Addr>,
    life: u64,
}

impl Model for Standing {
    ghost use Rattle.label_defs.specs.Node.{NodePlace};
    ghost use Rattle.mldp_node.specs.Standing.{place_code, IsPlace};

    ghost Value = { NodePlace };

    ghost coded = { place_code };

    ghost view = { λ s. record { me = s.me; addrs = s.addrs; life = s.life } };

    ghost invariant = { λ s. IsPlace (record { me = s.me; addrs = s.addrs; life = s.life }) };
}

/// Whether both are one address. Most addresses of IPv4 differ in their last octet, so that one is looked at first.
fn is_addr(own: &Addr, addr: &Addr) -> bool
    ensures { result ≡ same_addr own.now addr.now }
{
    match (own, addr) {
        (Addr::V4([a, b, c, d]), Addr::V4([e, f, g, h])) => d == h && c == g && b == f && a == e,
        _ => own.same(*addr),
    }
}

/// The place of the address.
fn place_of(addrs: &[Addr], addr: Addr) -> Option<usize>
    ensures value { result ≡ position (λ own. same_addr own addr) addrs.now }
    ensures within { IfSome result (λ place. place < length addrs.now) }
{
    addrs.iter().position(|own| is_addr(own, &addr))
}

/// The node of the address, among so many.
fn node_at(addrs: &[Addr], count: u16, addr: Addr) -> Option<NodeId>
    requires { length addrs.now ≡ count }
    ensures value { result ≡ node_at addrs.now addr }
    ensures within { IfSome result (λ node. node.0 < length addrs.now) }
{
    match place_of(addrs, addr) {
        None => None,
        Some(number) => Some(NodeId(number as u16)),
    }
}

/// Whether one of the nodes has the address.
fn has_node(addrs: &[Addr], addr: Addr) -> bool
    ensures { result ≡ list_any (λ own. same_addr own addr) addrs.now }
{
    addrs.iter().any(|own| is_addr(own, &addr))
}

impl Standing {
    pub(crate) fn of(me: NodeId, addrs: Seq<Addr>, life: u64) -> Standing
        requires { IsPlace (record { me = me; addrs = addrs; life = life }) }
        ensures { result ≡ record { me = me; addrs = addrs; life = life } }
    {
        Standing { me, addrs, life }
    }

    /// The allocator of the node.
    pub(crate) fn alloc(&self) -> Global {
        self.addrs.alloc()
    }

    /// How long a copy may be on a link.
    pub(crate) fn life(&self) -> u64
        ensures value { result ≡ self.now.life }
        ensures short { self.now.life ≤ 1000 }
    {
        self.life
    }

    /// The node's own address.
    pub(crate) fn addr(&self) -> Addr
        ensures value { result ≡ addr_in self.now }
        ensures router { IsRouter result }
    {
        self.addrs.as_slice()[usize::from(self.me.0)]
    }

    /// Whether the FEC is one of a tree.
    pub(crate) fn is_tree(&self, fec: &Fec) -> bool
        ensures { result ≡ (is_p2mp fec.now.kind && list_any (λ own. same_addr own fec.now.root) self.now.addrs) }
    {
        fec.kind == FecKind::P2mp && has_node(self.addrs.as_slice(), fec.root)
    }

    /// The neighbour towards the root of the tree, none where the root is no node's or the node itself.
    pub(crate) fn upstream(&self, core: &Core, fec: &Fec) -> Option<NodeId>
        requires { core.now.nodes ≡ length self.now.addrs }
        ensures { (own : Walks) → IsCoreOf core.now.nodes core.now.links own → result ≡ (place_in self.now own).upstream fec.now }
    {
        match node_at(self.addrs.as_slice(), core.nodes(), fec.root) {
            None => None,
            Some(root) => core.toward(self.me, root),
        }
    }
}
