//! Octets of sessions that come in pieces, their first faults, and sessions that come up again.
use bgp_messages::bgp_update::{Message, StreamFault};
use edge_streams::{EdgeStreams, SessionReason};
use mldp::mldp_fec::FecKind;
use mldp::mldp_msgs::{LabelMessage, LdpFault};
use mv_base::NodeId;
use scenario_defs::Kind;
use std::test::*;

/// A KEEPALIVE message.
const KEEPALIVE: [u8; 19] = [
    0xff, 0xff, 0xff, 0xff, 0xff, 0xff, 0xff, 0xff, 0xff, 0xff, 0xff, 0xff, 0xff, 0xff, 0xff, 0xff,
    0x00, 0x13, 0x04,
];

/// A mapping of the label 16.
const MAPPING: &[u8] =
    b"\0\x01\0\x24\xc0\0\x02\x02\0\0\x04\0\0\x1a\0\0\0\x01\x01\0\0\x0a\x06\0\x01\x04\xc0\0\x02\x01\0\0\x02\0\0\x04\0\0\0\x10";

const PEER: NodeId = NodeId(2);

fn is_keepalive(message: Option<Message>) -> bool {
    match message {
        Some(Message::Other(kind)) => kind == 4,
        _ => false,
    }
}

fn is_mapping(message: Option<LabelMessage>) -> bool {
    match message {
        Some(LabelMessage::Mapping(fec, label)) => fec.kind == FecKind::P2mp && label == 16,
        _ => false,
    }
}

/// A message is cut in two, and after it stands no marker. The fault stays until the session comes up again.
#[test]
fn messages(rt: HostRuntime) -> Result<(), Fail> {
    let mut streams = EdgeStreams::of(rt.alloc());
    streams.raise(Kind::Bgp, PEER)?;
    streams.feed_bgp(PEER, &KEEPALIVE[..10])?;
    assert!(rt; streams.next_bgp(PEER).is_none());
    streams.feed_bgp(PEER, &KEEPALIVE[10..])?;
    streams.feed_bgp(PEER, &[0; 19])?;
    streams.feed_bgp(PEER, &KEEPALIVE)?;
    let fault = Some((19, SessionReason::Bgp(StreamFault::Marker)));
    assert!(rt; streams.fault(Kind::Bgp, PEER) == fault);
    assert!(rt; is_keepalive(streams.next_bgp(PEER)));
    assert!(rt; streams.next_bgp(PEER).is_none());
    streams.lose(Kind::Bgp, PEER);
    streams.raise(Kind::Bgp, PEER)?;
    streams.feed_bgp(PEER, &KEEPALIVE)?;
    assert!(rt; streams.fault(Kind::Bgp, PEER).is_none());
    assert!(rt; is_keepalive(streams.next_bgp(PEER)));
    Ok(())
}

/// A PDU is cut in two, and after it stands one of another version.
#[test]
fn label_messages(rt: HostRuntime) -> Result<(), Fail> {
    let mut streams = EdgeStreams::of(rt.alloc());
    streams.raise(Kind::Ldp, PEER)?;
    streams.feed_ldp(PEER, &MAPPING[..20])?;
    assert!(rt; streams.next_ldp(PEER).is_none());
    streams.feed_ldp(PEER, &MAPPING[20..])?;
    streams.feed_ldp(PEER, &[0; 19])?;
    let fault = Some((40, SessionReason::Ldp(LdpFault::Version)));
    assert!(rt; streams.fault(Kind::Ldp, PEER) == fault);
    assert!(rt; is_mapping(streams.next_ldp(PEER)));
    assert!(rt; streams.fault(Kind::Bgp, PEER).is_none());
    streams.lose(Kind::Ldp, PEER);
    streams.feed_ldp(PEER, MAPPING)?;
    assert!(rt; streams.next_ldp(PEER).is_none());
    Ok(())
}
