//! The labels of a node, from a mapping to a release and a loss.
use label_trees::label_uses::LabelUses;
use mldp::mldp_fec::{Fec, FecKind, Opaque};
use mv_base::{Addr, NodeId};
use std::process::Abort;
use std::test::*;
use tunnel_bindings::Incarnation;

fn tree(last: u8) -> Result<Fec, &'static str> {
    let opaque = Opaque::of(&[1, 0, 4, 0, 0, 0, last]).ok_or("the octets fit")?;
    Ok(Fec {
        kind: FecKind::P2mp,
        root: Addr::V4([192, 0, 2, 1]),
        opaque,
    })
}

/// The session with the neighbour comes up. It is down, and there is memory.
fn raise(rt: &impl Abort, uses: &mut LabelUses, peer: NodeId) {
    if uses.is_up(peer) {
        panic!(rt; "the session is up");
    }
    if uses.raise(peer, Incarnation(1)).is_err() {
        panic!(rt; "there is no memory");
    }
}

/// Maps a label to the tree, which has none. The session is up, and there is memory.
fn map(rt: &impl Abort, uses: &mut LabelUses, fec: &Fec, upstream: NodeId) -> Option<u32> {
    if !uses.is_up(upstream) || uses.mapped(fec).is_some() {
        panic!(rt; "the session is down, or the tree has a label");
    }
    match uses.map(fec, upstream) {
        Ok(label) => label,
        Err(_) => panic!(rt; "there is no memory"),
    }
}

/// Withdraws the label of the tree. It has one, and there is memory.
fn leave(rt: &impl Abort, uses: &mut LabelUses, fec: &Fec) {
    let label = uses.mapped(fec).expect(rt, "the tree has a label");
    let upstream = uses.upstream(label).expect(rt, "the label is mapped");
    if uses.leave(label, fec, upstream).is_err() {
        panic!(rt; "there is no memory");
    }
}

#[test]
fn maps_leaves_and_rests(rt: HostRuntime) -> Result<(), Fail> {
    let (first, second, third) = (tree(1)?, tree(2)?, tree(3)?);
    let mut uses = match LabelUses::of(rt.alloc(), 2, 5) {
        Ok(uses) => uses,
        Err(_) => panic!(rt; "there is no memory"),
    };
    raise(&rt, &mut uses, NodeId(3));
    raise(&rt, &mut uses, NodeId(4));
    let labels = (
        map(&rt, &mut uses, &first, NodeId(3)),
        map(&rt, &mut uses, &second, NodeId(4)),
        map(&rt, &mut uses, &third, NodeId(3)),
    );
    leave(&rt, &mut uses, &first);
    let left = (uses.mapped(&first), uses.upstream(16));
    uses.release(NodeId(4), &first, 16, 10);
    let kept = uses.upstream(16);
    uses.release(NodeId(3), &first, 16, 10);
    let due = (uses.due(15), uses.due(16));
    let waits = uses.wait(&third, NodeId(3)).is_ok();
    uses.wake(16);
    let again = map(&rt, &mut uses, &third, NodeId(3));
    let lost = uses.lose(NodeId(3)).is_ok();
    let thereafter = (
        uses.mapped(&third),
        uses.mapped(&second),
        uses.is_up(NodeId(3)),
    );
    uses.close();
    assert_eq!(rt; labels.0, Some(16));
    assert_eq!(rt; labels.1, Some(17));
    assert_eq!(rt; labels.2, None);
    assert_eq!(rt; left.0, None);
    assert_eq!(rt; left.1, Some(NodeId(3)));
    assert_eq!(rt; kept, Some(NodeId(3)));
    assert_eq!(rt; due.0, 0);
    assert_eq!(rt; due.1, 1);
    assert_eq!(rt; waits, true);
    assert_eq!(rt; again, Some(16));
    assert_eq!(rt; lost, true);
    assert_eq!(rt; thereafter.0, None);
    assert_eq!(rt; thereafter.1, Some(17));
    assert_eq!(rt; thereafter.2, false);
    Ok(())
}
