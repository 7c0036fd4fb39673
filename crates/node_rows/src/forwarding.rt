//! Packets that were spelled by hand.
use label_forwarding::{Branch, Fib, read_packet};
use mldp::mldp_fec::{Fec, FecKind, Opaque};
use mv_base::{Addr, NodeId};
use std::test::*;

/// From 192.0.2.1 to 233.252.0.1, with a router alert and two octets of data.
const FOUR: [u8; 26] = [
    0x46, 0, 0, 26, 0, 1, 0, 0, 64, 17, 0x39, 0xcf, 192, 0, 2, 1, 233, 252, 0, 1, 0x94, 4, 0, 0,
    0xab, 0xcd,
];

#[test]
fn reads_four(rt: HostRuntime) -> Result<(), Fail> {
    let datagram = read_packet(&FOUR).ok().ok_or("the octets are a packet")?;
    assert_eq!(rt; datagram.source(), Addr::V4([192, 0, 2, 1]));
    assert_eq!(rt; datagram.group(), Addr::V4([233, 252, 0, 1]));
    assert_eq!(rt; datagram.bytes(), FOUR.as_slice());
    Ok(())
}

#[test]
fn reads_six(rt: HostRuntime) -> Result<(), Fail> {
    let mut bytes = [0; 42];
    bytes[0] = 0x60;
    bytes[5] = 2;
    bytes[8] = 0x20;
    bytes[24] = 0xff;
    bytes[25] = 0x3e;
    let datagram = read_packet(&bytes).ok().ok_or("the octets are a packet")?;
    let mut source = [0; 16];
    source[0] = 0x20;
    assert_eq!(rt; datagram.source(), Addr::V6(source));
    let mut group = [0; 16];
    group[0] = 0xff;
    group[1] = 0x3e;
    assert_eq!(rt; datagram.group(), Addr::V6(group));
    Ok(())
}

fn tree(last: u8) -> Result<Fec, &'static str> {
    let opaque = Opaque::of(&[1, 0, 4, 0, 0, 0, last]).ok_or("the octets fit")?;
    Ok(Fec {
        kind: FecKind::P2mp,
        root: Addr::V4([192, 0, 2, 1]),
        opaque,
    })
}

#[test]
fn forwards(rt: HostRuntime) -> Result<(), Fail> {
    let fec = tree(1)?;
    let near = Branch {
        node: NodeId(2),
        label: 40,
    };
    let far = Branch {
        node: NodeId(7),
        label: 16,
    };
    let mut fib = Fib::of(rt.alloc());
    fib.map(NodeId(1), 17, fec)?;
    fib.branch(fec, far)?;
    fib.branch(fec, near)?;
    fib.branch(fec, far)?;
    assert_eq!(rt; fib.push(&fec), [near, far].as_slice());
    fib.set_leaf(fec, true)?;
    assert!(rt; fib.lookup(NodeId(1), 17).is_some_and(|entry| entry.leaf));
    fib.unbranch(&fec, near);
    fib.unbranch(&fec, far);
    fib.set_leaf(fec, false)?;
    assert!(rt; fib.lookup(NodeId(1), 17).is_some());
    fib.unmap(NodeId(1), 17);
    assert!(rt; fib.lookup(NodeId(1), 17).is_none());
    assert!(rt; fib.push(&fec).is_empty());
    Ok(())
}
