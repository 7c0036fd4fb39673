//! Routes of a VRF: each call that takes memory.
use mv_base::{Addr, NodeId, Prefix, Rd, Rule, SiteId};
use std::test::*;
use umh_select::{Learned, Umh};

#[test]
fn takes_routes(rt: HostRuntime) -> Result<(), Fail> {
    let prefix = Prefix {
        addr: Addr::V4([10, 1, 0, 0]),
        bits: 16,
    };
    let route = Learned {
        rd: Rd([0, 0, 0xfd, 0xe8, 0, 0, 0, 1]),
        prefix,
        import: (Addr::V4([192, 0, 2, 1]), 1),
        source_as: 65000,
    };
    let mut umh = Umh::of(rt.alloc(), Rule::Nearest);
    umh.learn(NodeId(1), route)?;
    umh.attach(prefix, SiteId(4))?;
    umh.forget(NodeId(1), route.rd, prefix);
    umh.forget_peer(NodeId(1));
    Ok(())
}
