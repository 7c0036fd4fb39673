//! A fault of a session: octets in which there is no BGP message (RFC 4271 section 4.1).
use crate::two_edges::{E2, EdgeInCore, first_edge, second_edge};
use bgp_messages::bgp_update::StreamFault;
use edge_core::EdgeFault;
use edge_core::of_edge_streams::SessionReason;
use mv_base::Bytes;
use std::process::Abort;
use std::test::*;

/// A message begins with 16 octets 0xff.
const NO_MESSAGE: [u8; 19] = [0; 19];

/// The first message of E2 is taken, and the octets after it are none.
const FAULT: EdgeFault = EdgeFault::Session {
    peer: E2,
    place: 99,
    reason: SessionReason::Bgp(StreamFault::Marker),
};

/// A customer of E1 joins (10.2.0.9, 232.1.1.1) at X1 for 210 seconds (RFC 7761 section 4.9.5).
const JOIN: [u8; 34] = [
    0x23, 0x00, 0xd7, 0xdb, 0x01, 0x00, 0x0a, 0x01, 0x00, 0x01, 0x00, 0x01, 0x00, 0xd2, 0x01, 0x00,
    0x00, 0x20, 0xe8, 0x01, 0x01, 0x01, 0x00, 0x01, 0x00, 0x00, 0x01, 0x00, 0x04, 0x20, 0x0a, 0x02,
    0x00, 0x09,
];

/// What E2 puts to E1 first: its unicast route and its Intra-AS I-PMSI A-D route, in a message of 99 octets each.
fn first_octets(rt: &impl Abort, edge: &mut EdgeInCore) -> Bytes {
    if !edge.raise() {
        panic!(rt; "E2 has no session");
    }
    edge.take_out()
}

/// Whether the fault is answered at once, and again to whatever comes.
fn is_faulty(edge: &mut EdgeInCore, more: &[u8]) -> bool {
    let fault = Some(Err(FAULT));
    edge.take(NO_MESSAGE.as_slice()) == fault && edge.take(more) == fault && edge.take(&[]) == fault
}

/// Whether the join is sent to E2.
fn tells_join(edge: &mut EdgeInCore) -> bool {
    let before = edge.take_out();
    let taken = edge.take_pim(JOIN.as_slice());
    let after = edge.take_out();
    taken && !before.is_empty() && !after.is_empty()
}

/// Whether the session takes octets again once it was lost and is up.
fn starts_again(edge: &mut EdgeInCore, octets: &[u8]) -> bool {
    edge.notice() && edge.raise() && edge.take(octets) == Some(Ok(()))
}

#[test]
fn a_fault_ends_a_stream(rt: HostRuntime) -> Result<(), Fail> {
    let alloc = rt.alloc();
    let mut first = first_edge(&rt, alloc);
    let mut second = second_edge(&rt, alloc);
    let told = first_octets(&rt, &mut second);
    second.close();
    let (route, more) = told
        .as_slice()
        .split_at_checked(99)
        .expect(&rt, "E2 puts 198 octets");
    let taken = first.raise() && first.take(route) == Some(Ok(()));
    let faulty = is_faulty(&mut first, more);
    let tells = tells_join(&mut first);
    let again = starts_again(&mut first, told.as_slice());
    first.close();
    assert_eq!(rt; told.len(), 198);
    assert!(rt; taken);
    assert!(rt; faulty);
    assert!(rt; tells);
    assert!(rt; again);
    Ok(())
}
