//! Calls that take memory, where there is some, and what an interface asks for.
use mv_base::{Addr, IfaceId};
use pim_defs::join_of;
use pim_state::Downstream;
use scenario_defs::JoinEntry;
use std::test::*;

const IFACE: IfaceId = IfaceId(3);

const NEIGHBOUR: Addr = Addr::V4([10, 2, 0, 1]);

const SOURCE: Addr = Addr::V4([10, 1, 0, 9]);

const GROUP: Addr = Addr::V4([232, 1, 1, 1]);

/// A join of (*,G) is held for 210 seconds. While it is held it asks for a source that is known to send, and for no other.
#[test]
fn shared_tree(rt: HostRuntime) -> Result<(), Fail> {
    let alloc = rt.alloc();
    let mut state = Downstream::of(alloc);
    let entry = JoinEntry::Star { group: GROUP };
    let message = join_of(alloc, NEIGHBOUR, &entry).ok().ok_or("memory")?;
    let after = state.entries_after(alloc, IFACE, &message, 5);
    assert_eq!(rt; after.ok(), Some(1));
    state.take(IFACE, &message, 5).ok().ok_or("taken")?;
    assert!(rt; state.asks(IFACE, SOURCE, GROUP, true, 214));
    assert!(rt; !state.asks(IFACE, SOURCE, GROUP, false, 214));
    assert_eq!(rt; state.due(215), 1);
    state.timers(215);
    assert_eq!(rt; state.len(), 0);
    Ok(())
}
