//! A source that sends is announced to the other edges, until it sends no more (RFC 6514 section 14).
use crate::two_edges::{EdgeInCore, first_edge};
use mv_base::Addr;
use std::test::*;

const SOURCE: Addr = Addr::V4([10, 1, 0, 9]);

const GROUP: Addr = Addr::V4([232, 1, 1, 1]);

/// How many octets E2 is sent: the Source Active A-D route, and what withdraws it.
fn told(edge: &mut EdgeInCore) -> (usize, usize) {
    let _first = edge.take_out();
    let noted = edge.active(SOURCE, GROUP);
    let route = edge.take_out().len();
    let ended = edge.idle(SOURCE, GROUP);
    let withdrawal = edge.take_out().len();
    if noted && ended {
        (route, withdrawal)
    } else {
        (0, 0)
    }
}

#[test]
fn a_note_is_told(rt: HostRuntime) -> Result<(), Fail> {
    let mut first = first_edge(&rt, rt.alloc());
    let raised = first.raise();
    let lengths = told(&mut first);
    let again = first.active(SOURCE, GROUP);
    let held = first.held();
    let rerouted = first.reroute();
    first.close();
    assert!(rt; raised);
    assert_eq!(rt; lengths, (80, 49));
    assert!(rt; again);
    assert_eq!(rt; held, (0, 1));
    assert!(rt; rerouted);
    Ok(())
}
