//! The packet that a send makes (RFC 791 section 3.1, RFC 8200 section 3).
ghost use Rattle.std.specs.Prelude.{◌≡◌, ◌++◌, ◌+◌, ◌<◌, ◌^◌, length, IfOk};
ghost use Rattle.label_forwarding.specs.Written.{four_header, four_written, six_written};
ghost use Rattle.mvpn_model.specs.Packet.{packet};

use mv_base::{Addr, Bytes, NoMemory, Seq, ones_sum};
use std::alloc::Global;

const FOUR_HEADER_LEN: usize = 20;

/// The header of IPv4, with that total length and checksum.
fn four_header(
    alloc: Global,
    source: Addr,
    group: Addr,
    total: u16,
    sum: u16,
) -> Result<Bytes, NoMemory>
    ensures { IfOk result (λ octets. octets ≡ four_header source group total sum) }
{
    let mut octets = Seq::new(alloc);
    octets.extend(&[0x45, 0])?;
    octets.extend(&total.to_be_bytes())?;
    octets.extend(&[0, 0, 0, 0, 64, 17])?;
    octets.extend(&sum.to_be_bytes())?;
    octets.extend(source.octets())?;
    octets.extend(group.octets())?;
    Ok(octets)
}

fn four_packet(alloc: Global, source: Addr, group: Addr, payload: &[u8]) -> Result<Bytes, NoMemory>
    requires { length payload.now + FOUR_HEADER_LEN < 2 ^ 16 }
    ensures { IfOk result (λ octets. octets ≡ four_written source group payload.now) }
{
    let total = (FOUR_HEADER_LEN + payload.len()) as u16;
    let unsummed = four_header(alloc, source, group, total, 0)?;
    let mut octets = four_header(alloc, source, group, total, ones_sum(unsummed.as_slice()))?;
    octets.extend(payload)?;
    Ok(octets)
}

fn six_packet(alloc: Global, source: Addr, group: Addr, payload: &[u8]) -> Result<Bytes, NoMemory>
    requires { length payload.now < 2 ^ 16 }
    ensures { IfOk result (λ octets. octets ≡ six_written source group payload.now) }
{
    let len = payload.len() as u16;
    let mut octets = Seq::new(alloc);
    octets.extend(&[0x60, 0, 0, 0])?;
    octets.extend(&len.to_be_bytes())?;
    octets.extend(&[17, 64])?;
    octets.extend(source.octets())?;
    octets.extend(group.octets())?;
    octets.extend(payload)?;
    Ok(octets)
}

/// The packet of this payload, of the family of its source.
pub fn packet(alloc: Global, source: Addr, group: Addr, payload: &[u8]) -> Result<Bytes, NoMemory>
    requires { length payload.now + FOUR_HEADER_LEN < 2 ^ 16 }
    ensures { IfOk result (λ octets. octets ≡ packet source group payload.now) }
{
    match source {
        Addr::V4(_) => four_packet(alloc, source, group, payload),
        Addr::V6(_) => six_packet(alloc, source, group, payload),
    }
}
