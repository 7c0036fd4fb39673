//! Tests over memory that is really taken.
use mv_base::{Bytes, NoMemory};
use mv_io::{
    CallNumbers, MemSink, MemSource, Sink, SinkFailed, Source, SourceFailed, SureSink, SureSource,
    write_all,
};
use std::alloc::Global;

fn bytes(alloc: Global, octets: &[u8]) -> Result<Bytes, NoMemory> {
    let mut bytes = Bytes::new(alloc);
    bytes.extend(octets)?;
    Ok(bytes)
}

fn calls(alloc: Global, number: u64) -> Result<CallNumbers, NoMemory> {
    let mut calls = CallNumbers::new(alloc);
    calls.push(number)?;
    Ok(calls)
}

#[test]
fn sink_fails_at_its_number(rt: HostRuntime) {
    let alloc = rt.alloc();
    let failing = calls(alloc, 2).expect(&rt, "memory for the numbers");
    let mut sink = MemSink::of(alloc, 8, failing).expect(&rt, "memory for the sink");
    assert_eq!(rt; write_all(&mut sink, b"one"), Ok(()));
    assert_eq!(rt; write_all(&mut sink, b"two"), Err(SinkFailed));
    assert_eq!(rt; write_all(&mut sink, b"three"), Ok(()));
    assert_eq!(rt; sink.bytes(), b"onethree".as_slice());
}

#[test]
fn source_fails_at_its_number(rt: HostRuntime) {
    let alloc = rt.alloc();
    let failing = calls(alloc, 1).expect(&rt, "memory for the numbers");
    let octets = bytes(alloc, b"abcdef").expect(&rt, "memory for the octets");
    let mut source = MemSource::of(octets, failing);
    let mut buf = [0; 4];
    assert_eq!(rt; source.read(&mut buf), Err(SourceFailed));
    assert_eq!(rt; source.read(&mut buf), Ok(4));
    assert_eq!(rt; buf, *b"abcd");
    assert_eq!(rt; source.read(&mut buf), Ok(2));
    assert_eq!(rt; source.read(&mut buf), Ok(0));
}

#[test]
fn sure_kinds_go_on(rt: HostRuntime) {
    let alloc = rt.alloc();
    let mut source = SureSource::of(bytes(alloc, b"abc").expect(&rt, "memory for the octets"));
    let mut buf = [0; 2];
    assert_eq!(rt; source.read(&mut buf), Ok(2));
    let mut sink = SureSink::of(alloc, 4).expect(&rt, "memory for the sink");
    assert_eq!(rt; write_all(&mut sink, &buf), Ok(()));
    assert_eq!(rt; write_all(&mut sink, b"past"), Ok(()));
    assert_eq!(rt; sink.bytes(), b"ab".as_slice());
}
