//! Copies that arrive on the inclusive tunnel of another edge.
use crate::joins::JOIN;
use crate::queries::DATAGRAM;
use crate::two_edges::{EdgeInCore, first_edge, meet, second_edge};
use label_forwarding::read_packet;
use mldp::mldp_fec::{Fec, FecKind, Opaque};
use mv_base::{Addr, IfaceId};
use std::alloc::Global;
use std::test::*;

/// The inclusive tunnel of V1, which E1 announces.
fn tunnel() -> Option<Fec> {
    let opaque = Opaque::of(&[1, 0, 4, 0, 0x10, 0, 0])?;
    Some(Fec {
        kind: FecKind::P2mp,
        root: Addr::V4([192, 0, 2, 1]),
        opaque,
    })
}

/// The interface at which a copy from C under label 16 leaves, where it goes there alone.
fn leaves_at(edge: &EdgeInCore, alloc: Global) -> Option<IfaceId> {
    match read_packet(DATAGRAM.as_slice()) {
        Err(_) => None,
        Ok(datagram) => match edge.arrive(alloc, 16, &datagram)?.outs.as_slice() {
            [only] => Some(*only),
            _ => None,
        },
    }
}

/// Whether the LDP session with C is up, its hold is run, and a customer joined the flow.
fn waits(edge: &mut EdgeInCore) -> bool {
    edge.raise_ldp() && edge.run_timers() && edge.take_pim(JOIN.as_slice())
}

/// E2 becomes a leaf of the tunnel, and a copy leaves at the interface where the flow is joined.
#[test]
fn a_copy_arrives(rt: HostRuntime) -> Result<(), Fail> {
    let alloc = rt.alloc();
    let fec = tunnel().expect(&rt, "the octets fit");
    let mut first = first_edge(&rt, alloc);
    let mut second = second_edge(&rt, alloc);
    let waits = waits(&mut second);
    let before = second.imports(&fec);
    let met = meet(&mut first, &mut second);
    first.close();
    let after = second.imports(&fec);
    let out = leaves_at(&second, alloc);
    let held = second.held();
    second.close();
    assert!(rt; waits && met);
    assert_eq!(rt; before, (false, false, false));
    assert_eq!(rt; after, (true, true, true));
    assert_eq!(rt; out, Some(IfaceId(1)));
    assert_eq!(rt; held, (1, 0));
    Ok(())
}
