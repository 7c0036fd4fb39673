//! Calls that take memory, where there is some.
use mv_base::Addr;
use pim_joinprune::{JpSource, SourceKind, decode, encode};
use std::test::*;

/// (10.1.0.9, 232.1.1.1) is joined, at neighbour 10.2.0.1, for a second.
const JOIN: [u8; 34] = [
    0x23, 0, 0xd8, 0xac, 1, 0, 10, 2, 0, 1, 0, 1, 0, 1, 1, 0, 0, 32, 232, 1, 1, 1, 0, 1, 0, 0, 1,
    0, 4, 32, 10, 1, 0, 9,
];

#[test]
fn reads_and_writes(rt: HostRuntime) -> Result<(), Fail> {
    let alloc = rt.alloc();
    let message = decode(alloc, &JOIN).ok().ok_or("the octets are a message")?;
    assert_eq!(rt; message.neighbour, Addr::V4([10, 2, 0, 1]));
    assert_eq!(rt; message.holdtime, 1);
    assert_eq!(rt; message.groups.len(), 1);
    for group in message.groups.as_slice() {
        assert_eq!(rt; group.group, Addr::V4([232, 1, 1, 1]));
        assert!(rt; group.prunes.is_empty());
        let source = JpSource {
            kind: SourceKind::Sg,
            addr: Addr::V4([10, 1, 0, 9]),
        };
        assert!(rt; group.joins.as_slice() == [source].as_slice());
    }
    let octets = encode(alloc, &message).ok().ok_or("there is memory")?;
    assert_eq!(rt; octets.as_slice(), JOIN.as_slice());
    Ok(())
}
