//! Worked roots and egresses.
use mldp::mldp_fec::{Fec, FecKind, Opaque};
use mv_base::{Addr, NodeId, Pattern, Rd};
use selective::{LeafTunnels, RootTunnels};
use std::test::Fail;

const SOURCE: Addr = Addr::V4([10, 0, 0, 1]);

const GROUP: Addr = Addr::V4([232, 1, 1, 1]);

const OF_SOURCE: Pattern = Pattern {
    source: Some(SOURCE),
    group: None,
};

const OF_FLOW: Pattern = Pattern {
    source: Some(SOURCE),
    group: Some(GROUP),
};

const ROOT: NodeId = NodeId(7);

const DISTINGUISHER: Rd = Rd([0, 0, 0, 1, 0, 0, 0, 1]);

#[test]
fn root_moves_flow_after_delay(rt: HostRuntime) -> Result<(), Fail> {
    let mut tunnels = RootTunnels::of(rt.alloc(), 3, 5);
    let wide = tunnels.select(OF_SOURCE, 0)?;
    assert_eq!(rt; wide, (3 << 20) + 1);
    assert_eq!(rt; tunnels.transmit(SOURCE, GROUP), 3 << 20);
    assert_eq!(rt; tunnels.due(5), 1);
    tunnels.timers(5);
    assert_eq!(rt; tunnels.due(5), 0);
    assert_eq!(rt; tunnels.transmit(SOURCE, GROUP), wide);
    assert!(rt; tunnels.is_selected(OF_SOURCE));
    assert_eq!(rt; tunnels.unselect(OF_SOURCE), Some(wide));
    assert_eq!(rt; tunnels.unselect(OF_SOURCE), None);
    assert_eq!(rt; tunnels.selections(), 0);
    Ok(())
}

#[test]
fn egress_keeps_old_tunnel_until_delay(rt: HostRuntime) -> Result<(), Fail> {
    let wide = fec(1).ok_or("the opaque value is short")?;
    let narrow = fec(2).ok_or("the opaque value is short")?;
    let mut tunnels = LeafTunnels::of(rt.alloc(), 5);
    tunnels.learn(ROOT, DISTINGUISHER, OF_SOURCE, wide, 0)?;
    tunnels.timers(5);
    tunnels.learn(ROOT, DISTINGUISHER, OF_FLOW, narrow, 6)?;
    let both = tunnels.wanted(rt.alloc(), ROOT, SOURCE, GROUP)?;
    assert_eq!(rt; both.len(), 2);
    assert_eq!(rt; tunnels.due(11), 1);
    tunnels.timers(11);
    let one = tunnels.wanted(rt.alloc(), ROOT, SOURCE, GROUP)?;
    assert_eq!(rt; one.len(), 1);
    tunnels.forget(ROOT, DISTINGUISHER, OF_FLOW);
    let old = tunnels.wanted(rt.alloc(), ROOT, SOURCE, GROUP)?;
    assert_eq!(rt; old.len(), 1);
    tunnels.forget_peer(ROOT);
    let none = tunnels.wanted(rt.alloc(), ROOT, SOURCE, GROUP)?;
    assert!(rt; none.is_empty());
    Ok(())
}

fn fec(number: u8) -> Option<Fec> {
    Some(Fec {
        kind: FecKind::P2mp,
        root: Addr::V4([192, 0, 2, 7]),
        opaque: Opaque::of(&[1, 0, 4, 0, 0, 0, number])?,
    })
}

#[test]
fn laws_are_called() {
    selective::routes_in_order();
    selective::tests_are();
}
