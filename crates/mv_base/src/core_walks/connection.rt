//! Whether the core is connected.
ghost use Rattle.std.specs.Prelude.{◌≡◌, ◌↔◌, ◌<◌, IsTrue, All, Bool};
ghost use Rattle.std.specs.List.{list_all};
ghost use Rattle.mv_base.specs.core_walks.Topology.{HasEnds, IsTopology, IsConnected};
ghost use Rattle.mv_base.specs.core_walks.Reached.{is_connected};
ghost use Rattle.mv_base.specs.core_walks.Marks.{first_marks, marked, marked_link, next_marks};

use crate::{Link, NodeId};

/// The most nodes that a topology has.
const NODE_LIMIT: usize = 64;

/// The marks before the first round: node 0 alone.
fn first_marks() -> [bool; NODE_LIMIT]
    ensures { result ≡ first_marks }
{
    let mut marks = [false; NODE_LIMIT];
    marks[0] = true;
    marks
}

/// Marks the node, if the other one was marked.
fn mark(next: &mut [bool; NODE_LIMIT], marks: &[bool; NODE_LIMIT], node: NodeId, other: NodeId)
    requires node { node.0 < 64 }
    requires other { other.0 < 64 }
    ensures { next.new ≡ marked marks.now next.old node.0 other.0 }
{
    if marks[usize::from(other.0)] {
        next[usize::from(node.0)] = true;
    }
}

fn mark_link(next: &mut [bool; NODE_LIMIT], marks: &[bool; NODE_LIMIT], link: Link)
    requires { HasEnds 64 link }
    ensures { next.new ≡ marked_link marks.now next.old link }
{
    mark(next, marks, link.a, link.b);
    mark(next, marks, link.b, link.a);
}

/// The marks, and those of each node that a link joins to a marked one.
fn next_marks(marks: &[bool; NODE_LIMIT], links: &[Link]) -> [bool; NODE_LIMIT]
    requires { All (HasEnds 64) links.now }
    ensures { result ≡ next_marks marks.now links.now }
{
    let mut next = *marks;
    for link in links {
        mark_link(&mut next, marks, *link);
    }
    next
}

fn all_marked(marks: &[bool]) -> bool
    ensures { result ≡ list_all (λ (mark : Bool). mark) marks.now }
{
    marks.iter().all(|mark| *mark)
}

/// Whether each of so many nodes is reached from node 0.
pub fn is_connected(nodes: usize, links: &[Link]) -> bool
    requires { IsTopology nodes links.now }
    ensures value { result ≡ is_connected nodes links.now }
    ensures walks { IsTrue result ↔ IsConnected nodes links.now }
{
    let mut marks = first_marks();
    for round in 0..nodes {
        marks = next_marks(&marks, links);
    }
    all_marked(&marks[..nodes])
}
