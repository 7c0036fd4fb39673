//! Writing a file, the most significant octet of each number first.
ghost use Rattle.std.specs.Prelude.{◌≡◌, ◌++◌, ◌/◌, ◌<◌, ◌^◌, All, IfOk, None, OnErr, OnOk};
ghost use Rattle.core_pcap.specs.Answers.{IsOnly};
ghost use Rattle.core_pcap.specs.Spelling.{IsHop, frame_text, hop_text, labelled_text, time_text, written_file, written_header};
ghost use Rattle.core_pcap.specs.Words.{node_octets, word};
ghost use Rattle.core_pcap.specs.declared.order.ByteOrder.TheVariants as orders;

use crate::hop::{CoreHop, CoreHops, PcapRead};
use crate::reading::read;
use crate::record::FRONT;
use mv_base::{Bytes, NoMemory, NodeId};
use std::alloc::Global;

/// The magic number, version 2.4, time zone and accuracy 0, frames of at most 65,535 octets, and network 1, Ethernet.
const HEADER: [u8; 24] = [
    0xa1, 0xb2, 0xc3, 0xd4, 0, 2, 0, 4, 0, 0, 0, 0, 0, 0, 0, 0, 0, 0, 0xff, 0xff, 0, 0, 0, 1,
];

fn push_word(number: u32, out: &mut Bytes) -> Result<(), NoMemory>
    ensures { OnOk result (out.new ≡ out.old ++ word orders.BigEndian number) }
{
    out.extend(&number.to_be_bytes())
}

fn push_node(node: NodeId, out: &mut Bytes) -> Result<(), NoMemory>
    ensures { OnOk result (out.new ≡ out.old ++ node_octets node) }
{
    out.extend(&[2, 0, 0, 0])?;
    out.extend(&node.0.to_be_bytes())
}

/// Seconds and microseconds, of a clock in milliseconds.
fn push_time(tick: u64, out: &mut Bytes) -> Result<(), NoMemory>
    requires { tick / 1000 < 2 ^ 32 }
    ensures { OnOk result (out.new ≡ out.old ++ time_text orders.BigEndian tick) }
{
    push_word((tick / 1000) as u32, out)?;
    push_word((tick % 1000 * 1000) as u32, out)
}

/// The length of a frame, twice.
fn push_lengths(len: u32, out: &mut Bytes) -> Result<(), NoMemory>
    ensures { OnOk result (out.new ≡ out.old ++ (word orders.BigEndian len ++ word orders.BigEndian len)) }
{
    push_word(len, out)?;
    push_word(len, out)
}

/// The destination and the source.
fn push_ends(to: NodeId, from: NodeId, out: &mut Bytes) -> Result<(), NoMemory>
    ensures { OnOk result (out.new ≡ out.old ++ (node_octets to ++ node_octets from)) }
{
    push_node(to, out)?;
    push_node(from, out)?;
    Ok(())
}

/// The type of a frame, and its label stack entry.
fn push_label(label: u32, ttl: u8, out: &mut Bytes) -> Result<(), NoMemory>
    requires { label < 2 ^ 20 }
    ensures { OnOk result (out.new ≡ out.old ++ labelled_text label ttl) }
{
    out.extend(&[0x88, 0x47])?;
    push_word(label * 4096 + 256 + u32::from(ttl), out)
}

#[tactic(auto, using(crate::proofs::Appends::three))]
fn push_frame(hop: &CoreHop, out: &mut Bytes) -> Result<(), NoMemory>
    requires { IsHop hop.now }
    ensures { OnOk result (out.new ≡ out.old ++ frame_text hop.now) }
{
    push_ends(hop.to, hop.from, out)?;
    push_label(hop.label, hop.ttl, out)?;
    out.extend(hop.bytes.as_slice())?;
    Ok(())
}

fn push_hop(hop: &CoreHop, out: &mut Bytes) -> Result<(), NoMemory>
    requires { IsHop hop.now }
    ensures { OnOk result (out.new ≡ out.old ++ hop_text orders.BigEndian hop.now) }
{
    push_time(hop.tick, out)?;
    push_lengths(FRONT + hop.bytes.len() as u32, out)?;
    push_frame(hop, out)?;
    Ok(())
}

/// Appends the header of a file.
pub fn write_header(out: &mut Bytes) -> Result<(), NoMemory>
    ensures ok { OnOk result (out.new ≡ out.old ++ written_header) }
    ensures err { OnErr result (out.new ≡ out.old) }
{
    out.extend(&HEADER)
}

/// Appends the record of a hop.
pub fn write_hop(hop: &CoreHop, out: &mut Bytes) -> Result<(), NoMemory>
    requires { IsHop hop.now }
    ensures ok { OnOk result (out.new ≡ out.old ++ hop_text orders.BigEndian hop.now) }
    ensures err { OnErr result (out.new ≡ out.old) }
{
    let mut text = Bytes::new(out.alloc());
    push_hop(hop, &mut text)?;
    out.extend(text.as_slice())
}

/// The file of the hops.
fn file_of(alloc: Global, hops: &CoreHops) -> Result<Bytes, NoMemory>
    requires { All IsHop hops.now }
    ensures { IfOk result (λ octets. octets ≡ written_file hops.now) }
{
    let mut out = Bytes::new(alloc);
    write_header(&mut out)?;
    let items = hops.as_slice();
    for hop in items {
        write_hop(hop, &mut out)?;
    }
    Ok(out)
}

/// What was written is read again, unless memory runs out.
pub fn round_trip(alloc: Global, hops: &CoreHops) -> Result<PcapRead, NoMemory>
    requires { All IsHop hops.now }
    ensures { IsOnly result hops.now None }
{
    let octets = file_of(alloc, hops)?;
    read(alloc, octets.as_slice())
}
