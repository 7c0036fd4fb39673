//! A small core.
use mv_base::core_walks::is_connected;
use mv_base::{Link, NodeId};
use std::test::*;

const LINKS: [Link; 1] = [Link {
    a: NodeId(1),
    b: NodeId(0),
    cost: 1,
}];

#[test]
fn cores(rt: HostRuntime) -> Result<(), Fail> {
    assert_eq!(rt; is_connected(2, LINKS.as_slice()), true);
    assert_eq!(rt; is_connected(3, LINKS.as_slice()), false);
    Ok(())
}
