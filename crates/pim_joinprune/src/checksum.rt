//! The checksum of a message.
ghost use Rattle.std.specs.Prelude.{◌≡◌, ◌∷◌, ◌++◌, length, IfOk};
ghost use Rattle.std.specs.Int.{w16, to_be_bytes};
ghost use Rattle.pim_joinprune.specs.Checksums.{pseudo_header, pseudo_of, sum_of};

use crate::family::IPV6;
use mv_base::{Bytes, NoMemory, ones_sum};
use std::alloc::Global;

/// fe80::1, the address of each customer's router towards the network.
const ROUTER: [u8; 16] = [0xfe, 0x80, 0, 0, 0, 0, 0, 0, 0, 0, 0, 0, 0, 0, 0, 1];

/// ff02::d, all PIM routers (RFC 7761 section 4.9).
const ALL_PIM_ROUTERS: [u8; 16] = [0xff, 2, 0, 0, 0, 0, 0, 0, 0, 0, 0, 0, 0, 0, 0, 0x0d];

/// The protocol number of PIM (RFC 7761 section 4.9).
const PIM: u8 = 103;

/// The pseudo-header of IPv6 in front of a message of so many octets (RFC 8200 section 8.1).
fn pseudo_header(alloc: Global, len: usize) -> Result<Bytes, NoMemory>
    ensures { IfOk result (λ octets. octets ≡ pseudo_header len) }
{
    let low = (len % 0x1_0000_0000) as u32;
    let mut octets = Bytes::new(alloc);
    octets.extend(&ROUTER)?;
    octets.extend(&ALL_PIM_ROUTERS)?;
    octets.extend(&low.to_be_bytes())?;
    octets.extend(&[0, 0, 0, PIM])?;
    Ok(octets)
}

/// What the checksum covers in front of a message with those octets after it.
fn pseudo_of(alloc: Global, fields: &[u8]) -> Result<Bytes, NoMemory>
    ensures { IfOk result (λ octets. octets ≡ pseudo_of fields.now) }
{
    match fields {
        [family, rest @ ..] if *family == IPV6 => pseudo_header(alloc, 5 + rest.len()),
        _ => Ok(Bytes::new(alloc)),
    }
}

/// The checksum of a message with those octets after it.
#[tactic(auto, unfolding(crate::specs::Checksums::sum_of))]
pub(crate) fn sum_of(alloc: Global, first: u8, reserved: u8, fields: &[u8]) -> Result<u16, NoMemory>
    ensures { IfOk result (λ sum. sum ≡ sum_of first reserved fields.now) }
{
    let mut octets = pseudo_of(alloc, fields)?;
    octets.extend(&[first, reserved, 0, 0])?;
    octets.extend(fields)?;
    Ok(ones_sum(octets.as_slice()))
}

/// The octets of a message with that checksum.
pub(crate) fn with_checksum(
    alloc: Global,
    first: u8,
    reserved: u8,
    sum: u16,
    rest: &[u8],
) -> Result<Bytes, NoMemory>
    ensures { IfOk result (λ octets. octets ≡ first ∷ reserved ∷ (to_be_bytes w16 sum ++ rest.now)) }
{
    let [high, low] = sum.to_be_bytes();
    let mut octets = Bytes::new(alloc);
    octets.extend(&[first, reserved, high, low])?;
    octets.extend(rest)?;
    Ok(octets)
}
