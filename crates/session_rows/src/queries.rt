//! What is asked of an edge: timers, selections, and where datagrams go.
use crate::joins::JOIN;
use crate::two_edges::{C, EdgeInCore, carry, first_edge, meet, second_edge};
use edge_core::Fate;
use label_defs::Branch;
use label_forwarding::read_packet;
use mv_base::{Addr, Pattern};
use std::alloc::Global;
use std::test::*;

const OF_FLOW: Pattern = Pattern {
    source: Some(Addr::V4([10, 1, 0, 9])),
    group: Some(Addr::V4([232, 1, 1, 1])),
};

/// A datagram without data from 10.1.0.9 to 232.1.1.1 (RFC 791 section 3.1).
pub(crate) const DATAGRAM: [u8; 20] = [
    0x45, 0, 0, 20, 0, 0, 0, 0, 64, 17, 0x87, 0xcd, 10, 1, 0, 9, 232, 1, 1, 1,
];

/// C maps label 16 to the inclusive tunnel of V1 (RFC 6388 section 2.3, RFC 5036 section 3.5.7).
const MAPPING: [u8; 47] = [
    0, 1, 0, 0x2b, 0xc0, 0, 2, 9, 0, 0, 4, 0, 0, 0x21, 0, 0, 0, 1, 1, 0, 0, 0x11, 6, 0, 1, 4, 0xc0,
    0, 2, 1, 0, 7, 1, 0, 4, 0, 0x10, 0, 0, 2, 0, 0, 4, 0, 0, 0, 0x10,
];

/// The hold of an end that came up at 5 is due once copies that were on the link are gone.
#[test]
fn a_hold_is_due(rt: HostRuntime) -> Result<(), Fail> {
    let mut first = first_edge(&rt, rt.alloc());
    let raised = first.raise_ldp();
    let before = (first.holds(), first.due(7), first.due(8));
    let run = first.run_timers();
    let after = (first.holds(), first.due(8));
    first.close();
    assert!(rt; raised);
    assert_eq!(rt; before, (true, 0, 1));
    assert!(rt; run);
    assert_eq!(rt; after, (false, 0));
    Ok(())
}

/// A selection at 8 waits for the delay.
#[test]
fn a_flow_is_selected(rt: HostRuntime) -> Result<(), Fail> {
    let mut first = first_edge(&rt, rt.alloc());
    let before = first.selected(OF_FLOW);
    let selects = first.select(OF_FLOW);
    let thereafter = (first.selected(OF_FLOW), first.due(10), first.due(11));
    let unselects = first.unselect(OF_FLOW);
    let after = (first.selected(OF_FLOW), first.due(11));
    first.close();
    assert_eq!(rt; before, (false, 0));
    assert!(rt; selects);
    assert_eq!(rt; thereafter, ((true, 1), 0, 1));
    assert!(rt; unselects);
    assert_eq!(rt; after, ((false, 0), 0));
    Ok(())
}

/// Whether the datagram leaves at no interface, and on that branch alone, or on none.
fn goes(fate: &Fate, branch: Option<u32>) -> bool {
    let outs = fate.outs.is_empty();
    match (fate.branches.as_slice(), branch) {
        ([], None) => outs,
        ([Branch { node, label, .. }], Some(wanted)) => outs && *node == C && *label == wanted,
        _ => false,
    }
}

/// Whether a datagram of X goes so.
fn enters(edge: &EdgeInCore, alloc: Global, branch: Option<u32>) -> bool {
    match read_packet(DATAGRAM.as_slice()) {
        Err(_) => false,
        Ok(datagram) => match edge.enter(alloc, &datagram) {
            None => false,
            Some(fate) => goes(&fate, branch),
        },
    }
}

/// Whether the flow is sent to E1, whose LDP session with C is up.
fn joins(first: &mut EdgeInCore, second: &mut EdgeInCore) -> bool {
    first.raise_ldp()
        && meet(first, second)
        && second.take_pim(JOIN.as_slice())
        && carry(second, first)
}

/// A flow that E2 joined is put on the inclusive tunnel, which has a branch once C has mapped a label to it.
#[test]
fn a_datagram_enters(rt: HostRuntime) -> Result<(), Fail> {
    let alloc = rt.alloc();
    let mut first = first_edge(&rt, alloc);
    let mut second = second_edge(&rt, alloc);
    let joined = joins(&mut first, &mut second);
    second.close();
    let before = enters(&first, alloc, None);
    let mapped = first.take_ldp(MAPPING.as_slice());
    let after = enters(&first, alloc, Some(16));
    first.close();
    assert!(rt; joined);
    assert!(rt; before);
    assert!(rt; mapped == Some(Ok(())));
    assert!(rt; after);
    Ok(())
}
