//! The functions over histories.
use mv_base::{Addr, IfaceId, Seq, SiteId, VrfId};
use mvpn_model::{History, asks, home, receivers};
use scenario_text::read;
use std::test::Fail;

const TEXT: &[u8] = b"edge E 192.0.2.1\n\
    vrf V E 1 1:1 1:1 highest\n\
    site X 10.1.0.0/16\n\
    site Y 10.2.0.0/16\n\
    iface I V X 10.1.0.1\n\
    iface J V Y 10.2.0.1\n\
    events\n\
    join J 10.1.0.9 232.1.1.1";

const SOURCE: Addr = Addr::V4([10, 1, 0, 9]);

const GROUP: Addr = Addr::V4([232, 1, 1, 1]);

#[test]
fn a_history_tells_homes_and_receivers(rt: HostRuntime) -> Result<(), Fail> {
    let script = read(rt.alloc(), TEXT)?;
    let refused = Seq::new(rt.alloc());
    let history = History {
        script: &script,
        upto: 1,
        refused: &refused,
    };
    assert!(rt; script.events.len() >= 1);
    assert_eq!(rt; home(&history, VrfId(0), SOURCE), Some(SiteId(0)));
    assert!(rt; asks(rt.alloc(), &history, IfaceId(1), SOURCE, GROUP)?);
    let found = receivers(rt.alloc(), &history, SiteId(0), SOURCE, GROUP)?;
    assert_eq!(rt; found.as_slice(), [IfaceId(1)].as_slice());
    Ok(())
}
