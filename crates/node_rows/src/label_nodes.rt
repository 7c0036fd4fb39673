//! Label nodes that hand octets to each other: E1 is the root of a tree, E2 a leaf, and C is between them.
ghost use Rattle.std.specs.Prelude.{◌≡◌, ◌<◌, IfOk, IfSome};
ghost use Rattle.mv_base.specs.core_walks.Topology.{IsTopology};
ghost use Rattle.mldp_node.specs.Parts.{IsSpelled};
ghost use Rattle.node_rows.specs.Sites.{three_addrs, IsTree};

use core_paths::Core;
use mldp::mldp_fec::{Fec, FecKind, decode};
use mldp::mldp_msgs::{LabelMessage, Stream};
use mldp_node::{Addrs, LdpNode};
use mv_base::{Addr, Bytes, Link, NoMemory, NodeId, Seq};
use std::alloc::Global;
use std::marker::Model;
use std::process::Abort;
use std::test::*;

/// What E2 puts first: it maps label 16 to the tree.
const MAPPING: [u8; 47] = [
    0, 1, 0, 0x2b, 0xc0, 0, 2, 2, 0, 0, 4, 0, 0, 0x21, 0, 0, 0, 1, 1, 0, 0, 0x11, 6, 0, 1, 4, 0xc0,
    0, 2, 1, 0, 7, 1, 0, 4, 0, 0x10, 0, 0, 2, 0, 0, 4, 0, 0, 0, 0x10,
];

/// E1 and E2 have a link to C each.
const ROW: [Link; 2] = [
    Link {
        a: NodeId(0),
        b: NodeId(2),
        cost: 1,
    },
    Link {
        a: NodeId(1),
        b: NodeId(2),
        cost: 1,
    },
];

/// E1 and E2 have one with each other too.
const TRIANGLE: [Link; 3] = [
    Link {
        a: NodeId(0),
        b: NodeId(2),
        cost: 1,
    },
    Link {
        a: NodeId(1),
        b: NodeId(2),
        cost: 1,
    },
    Link {
        a: NodeId(0),
        b: NodeId(1),
        cost: 5,
    },
];

/// The last octet of the address of the node of that number.
fn last_octet(number: u8) -> u8 {
    match number {
        0 => 1,
        1 => 2,
        _ => 9,
    }
}

fn addrs(alloc: Global) -> Result<Addrs, NoMemory>
    ensures { IfOk result (λ addrs. addrs ≡ three_addrs) }
{
    let mut addrs = Seq::new(alloc);
    addrs.push(Addr::V4([192, 0, 2, 1]))?;
    addrs.push(Addr::V4([192, 0, 2, 2]))?;
    addrs.push(Addr::V4([192, 0, 2, 9]))?;
    Ok(addrs)
}

/// The tree that the mapping names.
fn tree() -> Option<Fec>
    ensures { IfSome result (λ tree. IsTree tree) }
{
    match decode(&MAPPING[22..]) {
        Err(_) => None,
        Ok((tree, _)) => {
            if tree.kind == FecKind::P2mp && tree.root == Addr::V4([192, 0, 2, 1]) {
                Some(tree)
            } else {
                None
            }
        }
    }
}

/// The message, where it is of the tree, with a label.
fn of_tree(message: &LabelMessage, tree: &Fec) -> Option<LabelMessage>
    requires { IsTree tree.now }
    ensures { IfSome result (λ own. IsSpelled own) }
{
    match message {
        LabelMessage::Mapping(fec, label) if fec == tree && 16 <= *label && *label < 1048576 => {
            Some(LabelMessage::Mapping(*tree, *label))
        }
        LabelMessage::Withdraw(fec, label) if fec == tree && 16 <= *label && *label < 1048576 => {
            Some(LabelMessage::Withdraw(*tree, *label))
        }
        LabelMessage::Release(fec, label) if fec == tree && 16 <= *label && *label < 1048576 => {
            Some(LabelMessage::Release(*tree, *label))
        }
        _ => None,
    }
}

/// What a node does.
#[derive(Clone, Copy)]
enum Act {
    Raise(u8),
    Lose(u8),
    Timers,
    Want,
    Unwant,
}

/// One of three nodes, with the core that it knows, and the tree. It must be closed.
struct Site {
    me: NodeId,
    node: LdpNode,
    core: Core,
    tree: Fec,
}

impl Model for Site {
    ghost use Rattle.mldp_node.specs.NodeData.{NodeData, node_code};
    ghost use Rattle.node_rows.specs.Sites.{IsSite};

    ghost Value = { NodeData };

    ghost coded = { node_code };

    ghost view = { λ s. s.node };

    ghost invariant = { λ s. IsSite s.me s.node.place s.core.nodes s.tree };
}

impl Site {
    fn of(alloc: Global, me: NodeId, core: Core, tree: Fec) -> Result<Site, NoMemory>
        requires within { me.0 < 3 }
        requires nodes { core.nodes ≡ 3 }
        requires tree { IsTree tree }
    {
        let addrs = addrs(alloc)?;
        let node = LdpNode::of(alloc, me, &addrs, 64, 2)?;
        Ok(Site {
            me,
            node,
            core,
            tree,
        })
    }

    fn raise(&mut self, peer: NodeId, now: u64) -> bool {
        !self.node.is_up(peer) && self.node.raised(peer, now, &self.core).is_ok()
    }

    fn lose(&mut self, peer: NodeId, now: u64) -> bool {
        self.node.noticed(peer, now, &self.core).is_ok()
    }

    fn timers(&mut self, now: u64) -> bool {
        self.node.timers(now, &self.core).is_ok()
    }

    fn want(&mut self, now: u64) -> bool {
        self.me.0 != 0 && self.node.want(self.tree, now, &self.core).is_ok()
    }

    fn unwant(&mut self, now: u64) -> bool {
        self.node.unwant(self.tree, now, &self.core).is_ok()
    }

    fn act(&mut self, act: Act, now: u64) -> bool {
        match act {
            Act::Raise(peer) => self.raise(NodeId(u16::from(peer)), now),
            Act::Lose(peer) => self.lose(NodeId(u16::from(peer)), now),
            Act::Timers => self.timers(now),
            Act::Want => self.want(now),
            Act::Unwant => self.unwant(now),
        }
    }

    /// The direct way of E1 and E2 costs 1 from now on.
    fn reroute(&mut self, now: u64) -> bool {
        self.core.set_cost(NodeId(0), NodeId(1), 1).is_ok()
            && self.node.rerouted(now, &self.core).is_ok()
    }

    fn take_message(&mut self, from: NodeId, message: &LabelMessage, now: u64) -> bool {
        match of_tree(message, &self.tree) {
            None => false,
            Some(own) => now < 1000 && self.node.take(from, own, now, &self.core).is_ok(),
        }
    }

    /// The node takes the messages in the octets, three at most.
    fn take(&mut self, alloc: Global, from: NodeId, octets: &[u8], now: u64) -> bool {
        let mut stream = Stream::of(alloc);
        let mut taken = stream.feed(octets).is_ok();
        for _ in 0..3 {
            if let Some(message) = stream.next() {
                taken = self.take_message(from, &message, now) && taken;
            }
        }
        taken
    }

    fn take_out(&mut self, peer: NodeId) -> Bytes {
        self.node.take_out(peer)
    }

    /// Whether the node has one branch of the tree.
    fn has_branch(&self) -> bool {
        self.node.fib().push(&self.tree).len() == 1
    }

    /// Whether it looks up the neighbour's label 16.
    fn forwards(&self, from: NodeId) -> bool {
        self.node.fib().lookup(from, 16).is_some()
    }

    /// How many labels rest, and how many holds are not over.
    fn resting(&self) -> u64 {
        self.node.due(1000)
    }

    fn close(self) {
        let Site {
            me: _,
            node,
            core: _,
            tree: _,
        } = self;
        node.close();
    }
}

/// E1, E2 and C.
struct Net {
    root: Site,
    leaf: Site,
    middle: Site,
}

fn act_at(net: &mut Net, node: u8, act: Act, now: u64) -> bool {
    match node {
        0 => net.root.act(act, now),
        1 => net.leaf.act(act, now),
        _ => net.middle.act(act, now),
    }
}

fn take_out(net: &mut Net, node: u8, peer: u8) -> Bytes {
    match node {
        0 => net.root.take_out(NodeId(u16::from(peer))),
        1 => net.leaf.take_out(NodeId(u16::from(peer))),
        _ => net.middle.take_out(NodeId(u16::from(peer))),
    }
}

fn take(net: &mut Net, alloc: Global, node: u8, from: u8, octets: &[u8], now: u64) -> bool {
    match node {
        0 => net.root.take(alloc, NodeId(u16::from(from)), octets, now),
        1 => net.leaf.take(alloc, NodeId(u16::from(from)), octets, now),
        _ => net.middle.take(alloc, NodeId(u16::from(from)), octets, now),
    }
}

/// The neighbours, each two both ways.
const LINKS: [(u8, u8); 4] = [(1, 2), (2, 0), (2, 1), (0, 2)];

/// Notes the octets, where there are some, with their sender and taker.
fn note(seen: &mut Vec<u8>, from: u8, to: u8, octets: &[u8]) -> Result<(), NoMemory> {
    if !octets.is_empty() {
        seen.push(from)?;
        seen.push(to)?;
        seen.extend_from_slice(octets)?;
    }
    Ok(())
}

/// Hands over what waits, and notes it with its sender and taker.
fn carry(net: &mut Net, from: u8, to: u8, now: u64, seen: &mut Vec<u8>) -> Result<bool, NoMemory> {
    let octets = take_out(net, from, to);
    note(seen, from, to, octets.as_slice())?;
    let alloc = *seen.allocator();
    Ok(take(net, alloc, to, from, octets.as_slice(), now))
}

/// Hands over what waits at all of them.
fn carry_all(net: &mut Net, now: u64, seen: &mut Vec<u8>) -> Result<bool, NoMemory> {
    let mut taken = true;
    for link in LINKS.iter() {
        let (from, to) = *link;
        taken = carry(net, from, to, now, seen)? && taken;
    }
    Ok(taken)
}

/// What is put: the low octet of the message's type, its id, and its label.
type Said = (u8, u8, u8, u8, u8);

/// The octets of all that is put, each with its sender and taker.
fn spelled(alloc: Global, said: &[Said]) -> Result<Vec<u8>, NoMemory> {
    let mut octets = Vec::new(alloc);
    for one in said.iter() {
        let (from, to, kind, id, label) = *one;
        let mut pdu = MAPPING;
        pdu[7] = last_octet(from);
        pdu[11] = kind;
        pdu[17] = id;
        pdu[46] = label;
        octets.push(from)?;
        octets.push(to)?;
        octets.extend_from_slice(&pdu)?;
    }
    Ok(octets)
}

/// How the nodes stand: whether E1 has a branch, whether C and E2 forward copies under label 16, and how many labels and holds C
/// waits for.
type Standing = (bool, bool, bool, u64);

/// A node, its clock and what it does; what is put then, and how the nodes stand after it.
type Row = (u8, u64, Act, &'static [Said], Standing);

/// A mapping is 0, a withdraw 2, and a release 3.
const ROWS: [Row; 20] = [
    (1, 0, Act::Raise(2), &[], (false, false, false, 0)),
    (2, 0, Act::Raise(1), &[], (false, false, false, 1)),
    (2, 0, Act::Raise(0), &[], (false, false, false, 2)),
    (0, 0, Act::Raise(2), &[], (false, false, false, 2)),
    (1, 3, Act::Timers, &[], (false, false, false, 2)),
    (2, 3, Act::Timers, &[], (false, false, false, 0)),
    (
        1,
        3,
        Act::Want,
        &[(1, 2, 0, 1, 16), (2, 0, 0, 1, 16)],
        (true, true, true, 0),
    ),
    (
        1,
        10,
        Act::Unwant,
        &[
            (1, 2, 2, 2, 16),
            (2, 0, 2, 2, 16),
            (2, 1, 3, 1, 16),
            (0, 2, 3, 1, 16),
        ],
        (false, false, false, 1),
    ),
    (1, 12, Act::Timers, &[], (false, false, false, 1)),
    (
        1,
        12,
        Act::Want,
        &[(1, 2, 0, 3, 17), (2, 0, 0, 3, 17)],
        (true, false, false, 1),
    ),
    (
        1,
        12,
        Act::Unwant,
        &[
            (1, 2, 2, 4, 17),
            (2, 0, 2, 4, 17),
            (2, 1, 3, 2, 17),
            (0, 2, 3, 2, 17),
        ],
        (false, false, false, 2),
    ),
    (1, 13, Act::Timers, &[], (false, false, false, 2)),
    (2, 13, Act::Timers, &[], (false, false, false, 1)),
    (
        1,
        13,
        Act::Want,
        &[(1, 2, 0, 5, 16), (2, 0, 0, 5, 16)],
        (true, true, true, 1),
    ),
    (2, 14, Act::Lose(0), &[], (true, false, true, 1)),
    (0, 14, Act::Lose(2), &[], (false, false, true, 1)),
    (2, 14, Act::Raise(0), &[], (false, false, true, 2)),
    (0, 14, Act::Raise(2), &[], (false, false, true, 2)),
    (2, 16, Act::Timers, &[], (false, false, true, 1)),
    (
        2,
        17,
        Act::Timers,
        &[(2, 0, 0, 1, 16)],
        (true, true, true, 0),
    ),
];

fn stand(net: &Net) -> Standing {
    (
        net.root.has_branch(),
        net.middle.forwards(NodeId(0)),
        net.leaf.forwards(NodeId(2)),
        net.middle.resting(),
    )
}

/// Whether all is as the row says.
fn is_so(net: &mut Net, alloc: Global, row: &Row) -> Result<bool, NoMemory> {
    let (node, now, own, said, thereafter) = *row;
    let done = act_at(net, node, own, now);
    let mut seen = Vec::new(alloc);
    let taken = carry_all(net, now, &mut seen)?;
    let said = spelled(alloc, said)?;
    Ok(done && taken && seen.as_slice() == said.as_slice() && stand(net) == thereafter)
}

/// How many rows from the first on are so.
fn so_far(net: &mut Net, alloc: Global) -> Result<usize, NoMemory> {
    let mut count = 0usize;
    for row in ROWS.iter() {
        if !is_so(net, alloc, row)? {
            return Ok(count);
        }
        count = count.saturating_add(1);
    }
    Ok(count)
}

fn new_site(rt: &impl Abort, alloc: Global, number: u16, links: &[Link]) -> Site
    requires within { number < 3 }
    requires links { IsTopology 3 links.now }
{
    let tree = tree().expect(rt, "the mapping names a tree");
    match Core::of(alloc, 3, links) {
        Err(_) => panic!(rt; "there is no core"),
        Ok(core) => match Site::of(alloc, NodeId(number), core, tree) {
            Err(_) => panic!(rt; "there is no memory"),
            Ok(site) => site,
        },
    }
}

fn in_row(rt: &impl Abort, alloc: Global, number: u16) -> Site
    requires { number < 3 }
{
    new_site(rt, alloc, number, ROW.as_slice())
}

#[test]
fn three_nodes(rt: HostRuntime) -> Result<(), Fail> {
    let alloc = rt.alloc();
    let mut net = Net {
        root: in_row(&rt, alloc, 0),
        leaf: in_row(&rt, alloc, 1),
        middle: in_row(&rt, alloc, 2),
    };
    let count = so_far(&mut net, alloc).ok();
    let Net { root, leaf, middle } = net;
    root.close();
    leaf.close();
    middle.close();
    assert_eq!(rt; count, Some(ROWS.len()));
    Ok(())
}

/// E2 maps a label to C, and moves to E1.
fn moved(leaf: &mut Site, alloc: Global) -> Result<Vec<u8>, NoMemory> {
    let done = leaf.raise(NodeId(0), 0) && leaf.raise(NodeId(2), 0) && leaf.timers(3);
    let mapped = leaf.want(3);
    let mut seen = Vec::new(alloc);
    note(&mut seen, 1, 2, leaf.take_out(NodeId(2)).as_slice())?;
    let moved = leaf.reroute(4);
    note(&mut seen, 1, 2, leaf.take_out(NodeId(2)).as_slice())?;
    note(&mut seen, 1, 0, leaf.take_out(NodeId(0)).as_slice())?;
    if done && mapped && moved {
        Ok(seen)
    } else {
        Err(NoMemory)
    }
}

#[test]
fn moves(rt: HostRuntime) -> Result<(), Fail> {
    let alloc = rt.alloc();
    let mut leaf = new_site(&rt, alloc, 1, TRIANGLE.as_slice());
    let seen = moved(&mut leaf, alloc);
    leaf.close();
    let said = spelled(
        alloc,
        &[(1, 2, 0, 1, 16), (1, 2, 2, 2, 16), (1, 0, 0, 1, 17)],
    )?;
    assert_eq!(rt; seen?.as_slice(), said.as_slice());
    Ok(())
}
