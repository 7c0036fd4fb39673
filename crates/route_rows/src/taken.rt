//! Routes that are taken from a peer: each call that takes memory.
ghost use Rattle.std.specs.Prelude.{◌≡◌};
ghost use Rattle.bgp_messages.specs.bgp_update.Written.{IsWritableKey};

use bgp_messages::bgp_attributes::Key;
use bgp_values::mvpn_nlri::{Afi, Route};
use edge_routes::route_order::TakenKey;
use edge_tables::taken_tables::{RouteValue, TakenTables};
use mv_base::route_targets::ExtComm;
use mv_base::{Addr, NoMemory, NodeId, Rd};
use std::alloc::Global;
use std::test::*;

const ACTIVE: Route = Route::Active {
    rd: Rd([0, 0, 0xfd, 0xe8, 0, 0, 0, 1]),
    source: Addr::V4([10, 1, 0, 9]),
    group: Addr::V4([232, 1, 1, 1]),
};

fn active() -> Key
    ensures { IsWritableKey result }
{
    Key::Mcast(Afi::Ipv4, ACTIVE)
}

/// A value with one community.
fn value(alloc: Global, hop: u8) -> Result<RouteValue, NoMemory> {
    let comms = [ExtComm([1, 2, 0xc0, 0, 2, 1, 0, 1])];
    RouteValue::of(alloc, Addr::V4([192, 0, 2, hop]), &comms, &None)
}

/// The clock at which the route was learned.
fn since(tables: &TakenTables, key: &TakenKey) -> Option<u64> {
    match tables.get(NodeId(1), key.kept()) {
        None => None,
        Some(entry) => Some(entry.since()),
    }
}

/// A route is taken where there was none of its key, and where the session is down nothing is taken.
#[test]
fn takes(rt: HostRuntime) -> Result<(), Fail> {
    let mut tables = TakenTables::of(rt.alloc());
    let peer = NodeId(1);
    let active = active();
    let key = TakenKey::of(rt.alloc(), &active)?;
    assert!(rt; tables.enter(peer, &key, &value(rt.alloc(), 2)?, 4)?);
    assert_eq!(rt; since(&tables, &key), None);
    tables.raise(peer)?;
    assert!(rt; tables.enter(peer, &key, &value(rt.alloc(), 2)?, 5)?);
    assert!(rt; !tables.enter(peer, &key, &value(rt.alloc(), 3)?, 6)?);
    assert_eq!(rt; since(&tables, &key), Some(5));
    tables.forget(peer, &key);
    assert!(rt; tables.enter(peer, &key, &value(rt.alloc(), 3)?, 7)?);
    assert_eq!(rt; since(&tables, &key), Some(7));
    assert!(rt; tables.entries(peer).is_some());
    tables.run_delays(&[], &[], 1000, 2000);
    tables.forget(peer, &key);
    assert_eq!(rt; since(&tables, &key), None);
    tables.lose(peer);
    assert!(rt; !tables.is_up(peer));
    Ok(())
}
