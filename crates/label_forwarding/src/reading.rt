//! Reading a packet.
ghost use Rattle.std.specs.Prelude.{◌≡◌, ◌+◌, ◌*◌, ◌%◌, ◌<◌, ◌≤◌, ◌^◌, List, ℕ, length, IfOk, IfErr};
ghost use Rattle.mv_base.specs.Checksum.{checksum};
ghost use Rattle.mv_base.specs.declared.addr.Addr.{Addr};
ghost use Rattle.label_forwarding.specs.Spelling.{IsPacket};
ghost use Rattle.label_forwarding.specs.FirstFault.{FirstFault};
ghost use Rattle.label_forwarding.specs.Reading.{octets_in, number_at, header_len, unsummed};
ghost use Rattle.label_forwarding.specs.Reading.{four_fault, six_fault, four_of, six_of, packet_of};

use crate::datagram::Datagram;
use crate::fault::PacketFault;
use mv_base::{Addr, ones_sum};

/// The octets of an IPv4 header without options.
const FOUR_HEADER: usize = 20;

/// The octets of an IPv6 header.
const SIX_HEADER: usize = 40;

/// `N` octets at a place.
fn array_at<const N: usize>(bytes: &[u8], place: usize) -> [u8; N]
    requires { place + N ≤ length bytes.now }
    ensures { result ≡ octets_in N place bytes.now }
{
    let mut array = [0; N];
    array.copy_from_slice(&bytes[place..place + N]);
    array
}

/// The number of the two octets at a place.
fn number_at(bytes: &[u8], place: usize) -> usize
    requires { place + 2 ≤ length bytes.now }
    ensures value { result ≡ number_at place bytes.now }
    ensures below { result < 2 ^ 16 }
{
    u16::from_be_bytes(array_at(bytes, place)) as usize
}

/// The checksum of the IPv4 header of that length: that of its octets with zeros in place of the checksum.
fn header_sum(bytes: &[u8], len: usize) -> usize
    requires fixed { FOUR_HEADER ≤ len }
    requires most { len ≤ 60 }
    requires within { len ≤ length bytes.now }
    ensures { result ≡ checksum (unsummed len bytes.now) }
{
    let mut room = [0; 60];
    let (header, _spare) = room.split_at_mut(len);
    header.copy_from_slice(&bytes[..len]);
    header[10] = 0;
    header[11] = 0;
    ones_sum(header) as usize
}

#[tactic(auto, unfolding(crate::specs::Reading::four_fault))]
fn four_fault(bytes: &[u8]) -> Option<(u32, PacketFault)>
    requires { FOUR_HEADER ≤ length bytes.now }
    ensures { result ≡ four_fault bytes.now }
{
    let len = usize::from(bytes[0] % 16) * 4;
    if len < FOUR_HEADER || bytes.len() < len {
        return Some((0, PacketFault::HeaderLength));
    }
    if number_at(bytes, 2) != bytes.len() {
        return Some((2, PacketFault::TotalLength));
    }
    if number_at(bytes, 10) != header_sum(bytes, len) {
        return Some((10, PacketFault::Checksum));
    }
    if bytes[16] < 224 || bytes[16] > 239 {
        return Some((16, PacketFault::NotMulticast));
    }
    if bytes[16] == 224 && bytes[17] == 0 && bytes[18] == 0 {
        return Some((16, PacketFault::LinkLocal));
    }
    None
}

#[tactic(auto, unfolding(crate::specs::Reading::six_fault))]
fn six_fault(bytes: &[u8]) -> Option<(u32, PacketFault)>
    requires { SIX_HEADER ≤ length bytes.now }
    ensures { result ≡ six_fault bytes.now }
{
    if number_at(bytes, 4) + SIX_HEADER != bytes.len() {
        return Some((4, PacketFault::TotalLength));
    }
    if bytes[24] != 0xff {
        return Some((24, PacketFault::NotMulticast));
    }
    if bytes[25] % 16 < 3 {
        return Some((24, PacketFault::LinkLocal));
    }
    None
}

#[tactic(auto, unfolding(crate::specs::Reading::four_of))]
fn read_four(bytes: &[u8]) -> Result<Datagram<'_>, (u32, PacketFault)>
    requires { FOUR_HEADER ≤ length bytes.now }
    ensures { result ≡ four_of bytes.now }
{
    match four_fault(bytes) {
        Some(fault) => Err(fault),
        None => {
            let source = Addr::V4(array_at(bytes, 12));
            let group = Addr::V4(array_at(bytes, 16));
            Ok(Datagram::of(source, group, bytes))
        }
    }
}

#[tactic(auto, unfolding(crate::specs::Reading::six_of))]
fn read_six(bytes: &[u8]) -> Result<Datagram<'_>, (u32, PacketFault)>
    ensures { result ≡ six_of bytes.now }
{
    if bytes.len() < SIX_HEADER {
        return Err((bytes.len() as u32, PacketFault::Short));
    }
    match six_fault(bytes) {
        Some(fault) => Err(fault),
        None => {
            let source = Addr::V6(array_at(bytes, 8));
            let group = Addr::V6(array_at(bytes, 24));
            Ok(Datagram::of(source, group, bytes))
        }
    }
}

#[tactic(auto, unfolding(crate::specs::Reading::packet_of))]
fn read(bytes: &[u8]) -> Result<Datagram<'_>, (u32, PacketFault)>
    ensures { result ≡ packet_of bytes.now }
{
    if bytes.len() < FOUR_HEADER {
        return Err((bytes.len() as u32, PacketFault::Short));
    }
    match bytes[0] / 16 {
        4 => read_four(bytes),
        6 => read_six(bytes),
        _ => Err((0, PacketFault::Version)),
    }
}

/// The packet that all the octets are, of IPv4 (RFC 791 section 3.1) or of IPv6 (RFC 8200 section 3), to a multicast group that
/// is not link-local; or the place of their first fault, counted from 0, and the fault.
pub fn read_packet(bytes: &[u8]) -> Result<Datagram<'_>, (u32, PacketFault)>
    // It is what reading gives.
    ensures exact { result ≡ packet_of bytes.now }
    // What is read is spelled, and its octets are these.
    ensures spelled { IfOk result (λ packet. IsPacket packet.source packet.group bytes.now × (packet.octets ≡ bytes.now)) }
    // What is spelled is read.
    ensures only_spelled { (source group : Addr) → IsPacket source group bytes.now →
        result ≡ Ok (record { source = source; group = group; octets = bytes.now }) }
    // A fault is the first one.
    ensures first { IfErr result (λ fault. FirstFault bytes.now fault) }
    // The first fault is answered.
    ensures only_first { (fault : ℕ × PacketFault) → FirstFault bytes.now fault → result ≡ Err fault }
{
    read(bytes)
}
