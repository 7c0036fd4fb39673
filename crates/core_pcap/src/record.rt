//! The record of a hop.
ghost use Rattle.std.specs.Prelude.{◌≡◌};
ghost use Rattle.core_pcap.specs.Answers.{Gives};
ghost use Rattle.core_pcap.specs.Reading.{millis_of, length_of, node_of, shim_of, millis_at, length_at, node_at, shim_at};
ghost use Rattle.core_pcap.specs.Reading.{time_at, lengths_at, ends_at, label_at, hop_at};

use crate::fault::{PcapFault, ReadFault};
use crate::field::{known, read_array, read_bytes, read_known_half, read_known_word, read_word};
use crate::hop::CoreHop;
use crate::order::ByteOrder;
use mv_base::NodeId;
use std::alloc::Global;

/// The octets of a frame in front of the datagram: two addresses, a type, and a label stack entry.
pub(crate) const FRONT: u32 = 18;

/// The longest frame.
const LONGEST: u32 = 65535;

/// MPLS (RFC 3032 section 5).
const MPLS: u16 = 0x8847;

/// The front of each node's address. It is none that a manufacturer gives.
const ADDRESS: u32 = 0x02000000;

/// The lowest label that is not reserved (RFC 3032 section 2.1).
const LOWEST: u32 = 16;

/// The milliseconds of so many microseconds.
fn millis_of(micros: u32) -> Option<u32>
    ensures { result ≡ millis_of micros }
{
    if micros % 1000 == 0 && micros < 1000000 {
        Some(micros / 1000)
    } else {
        None
    }
}

/// The octets of the datagram in a frame of so many octets.
fn length_of(frame: u32) -> Option<u16>
    ensures { result ≡ length_of frame }
{
    if frame < FRONT || frame > LONGEST {
        None
    } else {
        Some((frame - FRONT) as u16)
    }
}

/// The node of an address.
fn node_of(field: [u8; 6]) -> Option<NodeId>
    ensures { result ≡ node_of field }
{
    if u32::from_be_bytes([field[0], field[1], field[2], field[3]]) == ADDRESS {
        Some(NodeId(u16::from_be_bytes([field[4], field[5]])))
    } else {
        None
    }
}

/// The label and the TTL of a label stack entry (RFC 3032 section 2.1) of traffic class 0 at the bottom of its stack.
fn shim_of(entry: u32) -> Option<(u32, u8)>
    ensures { result ≡ shim_of entry }
{
    let label = entry / 4096;
    let ttl = entry % 256;
    if entry / 256 % 16 == 1 && label >= LOWEST && ttl != 0 {
        Some((label, ttl as u8))
    } else {
        None
    }
}

#[tactic(auto, unfolding(crate::specs::Reading::field_at))]
fn read_millis(order: ByteOrder, octets: &[u8]) -> Result<(u32, &[u8]), ReadFault>
    ensures { Gives (λ x. (x.0, x.1.now)) result (millis_at order octets.now) }
{
    let (field, rest) = read_array(octets)?;
    known(
        millis_of(order.word(field)),
        octets.len(),
        PcapFault::Time,
        rest,
    )
}

#[tactic(auto, unfolding(crate::specs::Reading::field_at))]
fn read_length(order: ByteOrder, octets: &[u8]) -> Result<(u16, &[u8]), ReadFault>
    ensures { Gives (λ x. (x.0, x.1.now)) result (length_at order octets.now) }
{
    let (field, rest) = read_array(octets)?;
    known(
        length_of(order.word(field)),
        octets.len(),
        PcapFault::Length,
        rest,
    )
}

#[tactic(auto, unfolding(crate::specs::Reading::field_at))]
fn read_node(octets: &[u8]) -> Result<(NodeId, &[u8]), ReadFault>
    ensures { Gives (λ x. (x.0, x.1.now)) result (node_at octets.now) }
{
    let (field, rest) = read_array(octets)?;
    known(node_of(field), octets.len(), PcapFault::Address, rest)
}

#[tactic(auto, unfolding(crate::specs::Reading::field_at))]
fn read_shim(octets: &[u8]) -> Result<((u32, u8), &[u8]), ReadFault>
    ensures { Gives (λ x. (x.0, x.1.now)) result (shim_at octets.now) }
{
    let (field, rest) = read_array(octets)?;
    known(
        shim_of(u32::from_be_bytes(field)),
        octets.len(),
        PcapFault::Shim,
        rest,
    )
}

/// Seconds and microseconds.
#[tactic(auto, unfolding(crate::specs::Reading::time_at))]
fn read_time(order: ByteOrder, octets: &[u8]) -> Result<(u64, &[u8]), ReadFault>
    ensures { Gives (λ x. (x.0, x.1.now)) result (time_at order octets.now) }
{
    let (seconds, rest) = read_word(order, octets)?;
    let (millis, rest) = read_millis(order, rest)?;
    Ok((u64::from(seconds) * 1000 + u64::from(millis), rest))
}

/// The length of the frame, twice.
#[tactic(auto, unfolding(crate::specs::Reading::lengths_at))]
fn read_lengths(order: ByteOrder, octets: &[u8]) -> Result<(u16, &[u8]), ReadFault>
    ensures { Gives (λ x. (x.0, x.1.now)) result (lengths_at order octets.now) }
{
    let (len, rest) = read_length(order, octets)?;
    let rest = read_known_word(order, FRONT + u32::from(len), PcapFault::Length, rest)?;
    Ok((len, rest))
}

/// The destination and the source.
#[tactic(auto, unfolding(crate::specs::Reading::ends_at))]
fn read_ends(octets: &[u8]) -> Result<((NodeId, NodeId), &[u8]), ReadFault>
    ensures { Gives (λ x. (x.0, x.1.now)) result (ends_at octets.now) }
{
    let (to, rest) = read_node(octets)?;
    let (from, rest) = read_node(rest)?;
    Ok(((to, from), rest))
}

/// The type of the frame, and the label and the TTL.
#[tactic(auto, unfolding(crate::specs::Reading::label_at))]
fn read_label(octets: &[u8]) -> Result<((u32, u8), &[u8]), ReadFault>
    ensures { Gives (λ x. (x.0, x.1.now)) result (label_at octets.now) }
{
    let rest = read_known_half(ByteOrder::BigEndian, MPLS, 0, PcapFault::EtherType, octets)?;
    read_shim(rest)
}

/// A record.
#[tactic(auto, unfolding(crate::specs::Reading::hop_at))]
pub(crate) fn read_hop(
    alloc: Global,
    order: ByteOrder,
    octets: &[u8],
) -> Result<(CoreHop, &[u8]), ReadFault>
    ensures { Gives (λ x. (x.0, x.1.now)) result (hop_at order octets.now) }
{
    let (tick, rest) = read_time(order, octets)?;
    let (len, rest) = read_lengths(order, rest)?;
    let ((to, from), rest) = read_ends(rest)?;
    let ((label, ttl), rest) = read_label(rest)?;
    let (bytes, rest) = read_bytes(alloc, usize::from(len), rest)?;
    Ok((
        CoreHop {
            tick,
            from,
            to,
            label,
            ttl,
            bytes,
        },
        rest,
    ))
}
