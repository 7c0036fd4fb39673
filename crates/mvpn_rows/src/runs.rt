//! A whole run of each kind, and runs whose source or sink fails.
use mv_base::{Bytes, NoMemory, Seq};
use mv_io::{CallNumbers, MemSink, MemSource};
use mvpn_tool::{End, run};
use std::alloc::Global;
use std::test::Fail;

/// Two edges with a core node between them, and two customers with the same addresses. Both join a flow, the first one's gets a
/// tunnel of its own, and a datagram of each is sent.
const CORE: &[u8] =
    b"edge E 192.0.2.1\nedge F 192.0.2.2\ncore C 192.0.2.9\nlink E C 1\nlink F C 1\n";

const VRFS: &[u8] =
    b"vrf V E 1 1:1 1:1 highest\nvrf W F 1 1:1 1:1 highest\nvrf T E 2 1:2 1:2 highest\nvrf U F 2 1:2 1:2 highest\n";

const SITES: &[u8] =
    b"site X 10.1.0.0/24\nsite Y 10.2.0.0/24\nsite P 10.1.0.0/24\nsite Q 10.2.0.0/24\n";

const IFACES: &[u8] =
    b"iface I V X 10.1.0.1\niface J W Y 10.2.0.1\niface K T P 10.1.0.1\niface L U Q 10.2.0.1\n";

const JOINS: &[u8] =
    b"events\nheal\nsettle\ntick 3\nsettle\njoin J 10.1.0.9 232.1.1.1\njoin L 10.1.0.9 232.1.1.1\nsettle\n";

const FLOWS: &[u8] =
    b"select V 10.1.0.9 232.1.1.1\nsettle\ntick 3\nsettle\nsend X 10.1.0.9 232.1.1.1 aa\nsend P 10.1.0.9 232.1.1.1 bb\n";

const LAST: &[u8] = b"drain\nstate\n";

/// The events of it that have lines, with those of the wire: each is one write.
const WRITES: u64 = 12;

fn network(alloc: Global) -> Result<Bytes, NoMemory> {
    let mut text = Seq::new(alloc);
    text.extend(CORE)?;
    text.extend(VRFS)?;
    text.extend(SITES)?;
    text.extend(IFACES)?;
    text.extend(JOINS)?;
    text.extend(FLOWS)?;
    text.extend(LAST)?;
    Ok(text)
}

fn words_of(alloc: Global, words: &[&str]) -> Result<Vec<String>, Fail> {
    let mut list = Vec::new(alloc);
    for word in words {
        list.push(String::from_str(alloc, word)?)?;
    }
    Ok(list)
}

/// The status of a run whose source and sink fail at those calls, and what it wrote.
fn outcome(
    alloc: Global,
    words: &[&str],
    input: &[u8],
    reads: &[u64],
    writes: &[u64],
) -> Result<(u8, Bytes), Fail> {
    let reads: CallNumbers = Seq::from_vec(Vec::from_slice(alloc, reads)?);
    let writes: CallNumbers = Seq::from_vec(Vec::from_slice(alloc, writes)?);
    let mut octets = Seq::new(alloc);
    octets.extend(input)?;
    let mut source = MemSource::of(octets, reads);
    let mut sink = MemSink::of(alloc, 16_384, writes)?;
    let words = words_of(alloc, words)?;
    let End { status, world } = run(alloc, &words, &mut source, &mut sink);
    if let Some(world) = world {
        world.close();
    }
    let mut written = Seq::new(alloc);
    written.extend(sink.bytes())?;
    Ok((status, written))
}

#[test]
fn a_script_is_replayed(rt: HostRuntime) -> Result<(), Fail> {
    let (status, written) = outcome(rt.alloc(), &["replay"], b"events\nstate", &[], &[])?;
    assert_eq!(rt; status, 0);
    assert_eq!(rt; written.as_slice(), b"state 0 0 0 0 0\n".as_slice());
    Ok(())
}

#[test]
fn octets_are_decoded(rt: HostRuntime) -> Result<(), Fail> {
    let (status, written) = outcome(rt.alloc(), &["decode", "nlri"], b"0900", &[], &[])?;
    assert_eq!(rt; status, 0);
    assert_eq!(rt; written.as_slice(), b"other 9 -\n".as_slice());
    Ok(())
}

#[test]
fn a_source_fails(rt: HostRuntime) -> Result<(), Fail> {
    let (status, written) = outcome(rt.alloc(), &["replay"], b"events\nstate", &[2], &[])?;
    assert_eq!(rt; status, 4);
    assert_eq!(rt; written.as_slice(), b"".as_slice());
    Ok(())
}

#[test]
fn a_sink_fails(rt: HostRuntime) -> Result<(), Fail> {
    let (status, written) = outcome(rt.alloc(), &["replay"], b"events\nstate\nstate", &[], &[2])?;
    assert_eq!(rt; status, 5);
    assert_eq!(rt; written.as_slice(), b"state 0 0 0 0 0\n".as_slice());
    Ok(())
}

/// The status of a replay of the network with the lines of the wire, where a read fails or a write, and what it wrote.
fn network_outcome(alloc: Global, reads: &[u64], writes: &[u64]) -> Result<(u8, Bytes), Fail> {
    let text = network(alloc)?;
    outcome(alloc, &["replay", "--wire"], text.as_slice(), reads, writes)
}

/// The first read has the whole text, and the second one its end. There is no third one.
#[test]
fn each_read_of_a_network_fails(rt: HostRuntime) -> Result<(), Fail> {
    for number in 1..3 {
        let (status, written) = network_outcome(rt.alloc(), &[number], &[])?;
        assert_eq!(rt; status, 4);
        assert_eq!(rt; written.as_slice(), b"".as_slice());
    }
    let (status, written) = network_outcome(rt.alloc(), &[3], &[])?;
    assert_eq!(rt; status, 0);
    assert!(rt; !written.is_empty());
    Ok(())
}

#[test]
fn each_write_of_a_network_fails(rt: HostRuntime) -> Result<(), Fail> {
    let (status, whole) = network_outcome(rt.alloc(), &[], &[])?;
    assert_eq!(rt; status, 0);
    for number in 1..WRITES + 1 {
        let (status, written) = network_outcome(rt.alloc(), &[], &[number])?;
        assert_eq!(rt; status, 5);
        assert!(rt; written.len() < whole.len());
        assert!(rt; whole.as_slice().starts_with(written.as_slice()));
    }
    let (status, written) = network_outcome(rt.alloc(), &[], &[WRITES + 1])?;
    assert_eq!(rt; status, 0);
    assert_eq!(rt; written.as_slice(), whole.as_slice());
    Ok(())
}
