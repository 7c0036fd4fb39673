//! A small core.
use core_paths::Core;
use mv_base::{Link, NodeId};
use std::test::*;

/// The way over node 1 costs what the link between 0 and 2 costs.
const TRIANGLE: [Link; 3] = [
    Link {
        a: NodeId(2),
        b: NodeId(0),
        cost: 20,
    },
    Link {
        a: NodeId(0),
        b: NodeId(1),
        cost: 13,
    },
    Link {
        a: NodeId(1),
        b: NodeId(2),
        cost: 7,
    },
];

/// Of two ways of one cost the lower first step counts.
#[test]
fn tie(rt: HostRuntime) -> Result<(), Fail> {
    let core = Core::of(rt.alloc(), 3, TRIANGLE.as_slice())
        .ok()
        .ok_or("core")?;
    assert_eq!(rt; core.cost(NodeId(0), NodeId(2)), 20);
    assert_eq!(rt; core.toward(NodeId(0), NodeId(2)), Some(NodeId(1)));
    Ok(())
}
