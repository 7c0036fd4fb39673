//! Calls that take memory, where there is some, and octets that come in pieces.
use mldp::mldp_fec::{Fec, FecKind, Opaque, decode};
use mldp::mldp_msgs::{LabelMessage, Stream, encode, is_mapped};
use mv_base::{Addr, Bytes, NoMemory};
use std::alloc::Global;
use std::test::*;

/// A mapping of the label 16.
const MAPPING: &[u8] =
    b"\0\x01\0\x24\xc0\0\x02\x02\0\0\x04\0\0\x1a\0\0\0\x01\x01\0\0\x0a\x06\0\x01\x04\xc0\0\x02\x01\0\0\x02\0\0\x04\0\0\0\x10";

fn lsp() -> Option<Fec> {
    let opaque = Opaque::of(&[])?;
    Some(Fec {
        kind: FecKind::P2mp,
        root: Addr::V4([192, 0, 2, 1]),
        opaque,
    })
}

fn mapping() -> Option<LabelMessage> {
    Some(LabelMessage::Mapping(lsp()?, 16))
}

/// Whether the label 16 is mapped after the message.
fn is_mapped_after(message: Option<LabelMessage>) -> Option<bool> {
    Some(is_mapped(&[message?], &lsp()?, 16))
}

#[test]
fn in_pieces(rt: HostRuntime) -> Result<(), Fail> {
    for size in [1, 7, 40].iter() {
        let mut stream = Stream::of(rt.alloc());
        for piece in MAPPING.chunks(*size) {
            assert_eq!(rt; stream.feed(piece), Ok(()));
        }
        assert!(rt; stream.next() == mapping());
        assert!(rt; stream.next().is_none());
    }
    Ok(())
}

/// A PDU with a mapping of the label 16 to the element that stands there.
fn mapping_of(alloc: Global, element: &[u8]) -> Result<Bytes, NoMemory> {
    match decode(element) {
        Ok((fec, _)) => encode(
            alloc,
            Addr::V4([192, 0, 2, 2]),
            1,
            &LabelMessage::Mapping(fec, 16),
        ),
        Err(_) => Ok(Bytes::new(alloc)),
    }
}

#[test]
fn writes(rt: HostRuntime) -> Result<(), Fail> {
    let octets = mapping_of(rt.alloc(), &MAPPING[22..])?;
    assert_eq!(rt; octets.as_slice(), MAPPING);
    Ok(())
}

#[test]
fn maps(rt: HostRuntime) {
    assert_eq!(rt; is_mapped_after(mapping()), Some(true));
}
