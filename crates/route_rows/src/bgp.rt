//! Calls that take memory, where there is some, and octets that come in pieces.
ghost use Rattle.std.specs.Prelude.{IfOk};
ghost use Rattle.bgp_messages.specs.bgp_attributes.Spelling.{AreComms};
ghost use Rattle.bgp_messages.specs.bgp_update.Written.{IsWritable, IsWritableKey};

use bgp_messages::bgp_update::{Advert, Change, Comms, EncodeFault, Key, Message, Stream, encode};
use bgp_values::mvpn_nlri::{Afi, Route};
use edge_routes::route_order::{TableKey, TableValue};
use edge_tables::EdgeTables;
use mv_base::route_targets::ExtComm;
use mv_base::{Addr, NodeId, Rd, Seq};
use std::alloc::{AllocError, Global};
use std::test::*;

/// A source tree join with one community, as an edge announces it.
const ADVERT: [u8; 84] = [
    0xff, 0xff, 0xff, 0xff, 0xff, 0xff, 0xff, 0xff, 0xff, 0xff, 0xff, 0xff, 0xff, 0xff, 0xff, 0xff,
    0x00, 0x54, 0x02, 0x00, 0x00, 0x00, 0x3d, 0x40, 0x01, 0x01, 0x00, 0x40, 0x02, 0x00, 0x40, 0x05,
    0x04, 0x00, 0x00, 0x00, 0x64, 0x80, 0x0e, 0x21, 0x00, 0x01, 0x05, 0x04, 0xc0, 0x00, 0x02, 0x02,
    0x00, 0x07, 0x16, 0x00, 0x00, 0xfd, 0xe8, 0x00, 0x00, 0x00, 0x01, 0x00, 0x00, 0xfd, 0xe8, 0x20,
    0x0a, 0x01, 0x00, 0x09, 0x20, 0xe8, 0x01, 0x01, 0x01, 0xc0, 0x10, 0x08, 0x01, 0x02, 0xc0, 0x00,
    0x02, 0x01, 0x00, 0x01,
];

/// What withdraws the join.
const WITHDRAWAL: [u8; 53] = [
    0xff, 0xff, 0xff, 0xff, 0xff, 0xff, 0xff, 0xff, 0xff, 0xff, 0xff, 0xff, 0xff, 0xff, 0xff, 0xff,
    0x00, 0x35, 0x02, 0x00, 0x00, 0x00, 0x1e, 0x80, 0x0f, 0x1b, 0x00, 0x01, 0x05, 0x07, 0x16, 0x00,
    0x00, 0xfd, 0xe8, 0x00, 0x00, 0x00, 0x01, 0x00, 0x00, 0xfd, 0xe8, 0x20, 0x0a, 0x01, 0x00, 0x09,
    0x20, 0xe8, 0x01, 0x01, 0x01,
];

const RD: Rd = Rd([0, 0, 0xfd, 0xe8, 0, 0, 0, 1]);

const JOIN: Route = Route::SourceJoin {
    rd: RD,
    source_as: 65000,
    source: Addr::V4([10, 1, 0, 9]),
    group: Addr::V4([232, 1, 1, 1]),
};

const COMM: ExtComm = ExtComm([1, 2, 0xc0, 0, 2, 1, 0, 1]);

fn join() -> Key
    ensures { IsWritableKey result }
{
    Key::Mcast(Afi::Ipv4, JOIN)
}

/// The change that announces the join with these communities.
fn announcement(comms: Comms) -> Change
    requires { AreComms comms }
    ensures { IsWritable result }
{
    Change::Reach(Advert {
        key: join(),
        next_hop: Addr::V4([192, 0, 2, 2]),
        comms,
        pmsi: None,
    })
}

/// 510 communities.
fn many(alloc: Global) -> Result<Comms, AllocError>
    ensures { IfOk result (λ comms. AreComms comms) }
{
    Ok(Seq::from_vec(Vec::from_array(alloc, [COMM; 510])?))
}

/// Whether the message announces the join alone, with one community.
fn announces(message: Option<Message>) -> bool {
    match message {
        Some(Message::Update(update)) => match update.reach.as_slice() {
            [advert] => {
                advert.key == join()
                    && advert.next_hop == Addr::V4([192, 0, 2, 2])
                    && advert.comms.as_slice() == [COMM].as_slice()
                    && advert.pmsi.is_none()
                    && update.unreach.is_empty()
            }
            _ => false,
        },
        _ => false,
    }
}

#[test]
fn in_pieces(rt: HostRuntime) -> Result<(), Fail> {
    for size in [1, 7, 84].iter() {
        let mut stream = Stream::of(rt.alloc());
        for piece in ADVERT.chunks(*size) {
            assert_eq!(rt; stream.feed(piece), Ok(()));
        }
        assert!(rt; announces(stream.next()));
        assert!(rt; stream.next().is_none());
    }
    Ok(())
}

#[test]
fn writes(rt: HostRuntime) -> Result<(), Fail> {
    let mut comms = Seq::new(rt.alloc());
    comms.push(COMM)?;
    let octets = encode(rt.alloc(), &announcement(comms))?;
    assert_eq!(rt; octets.as_slice(), ADVERT.as_slice());
    Ok(())
}

#[test]
fn too_long(rt: HostRuntime) -> Result<(), Fail> {
    let change = announcement(many(rt.alloc())?);
    let fault = encode(rt.alloc(), &change).err();
    assert_eq!(rt; fault, Some(EncodeFault::TooLong));
    Ok(())
}

/// A peer is sent a route once its session is up, and that it ended; a peer that is down is sent nothing.
#[test]
fn tells_peers(rt: HostRuntime) -> Result<(), Fail> {
    let mut tables = EdgeTables::of(rt.alloc(), &[NodeId(1), NodeId(2)])?;
    let key = TableKey::of(join());
    let value = TableValue::of(Addr::V4([192, 0, 2, 2]), &[COMM], None).ok_or("many communities")?;
    tables.set(&key, &value)?;
    tables.raise(NodeId(2))?;
    tables.put()?;
    assert!(rt; tables.take_out(NodeId(1)).is_empty());
    assert_eq!(rt; tables.take_out(NodeId(2)).as_slice(), ADVERT.as_slice());
    tables.unset(&key)?;
    tables.put()?;
    assert_eq!(rt;
        tables.take_out(NodeId(2)).as_slice(),
        WITHDRAWAL.as_slice()
    );
    Ok(())
}
