//! Fields at the front of octets. Each reader answers the field's value and the octets after it.
ghost use Rattle.std.specs.Prelude.{◌≡◌, length};
ghost use Rattle.pim_joinprune.specs.Answers.{Gives};
ghost use Rattle.pim_joinprune.specs.Reading.{octet_at, known_at, number_at, octets_at, address_at, family_at, unicast_at};
ghost use Rattle.pim_joinprune.specs.Families.{named_family};

use crate::family::Family;
use crate::fault::{PimFault, ReadFault};
use mv_base::Addr;

/// The native encoding of an address (RFC 7761 section 4.9.1).
pub(crate) const NATIVE: u8 = 0;

/// Fewer octets are left than a field needs.
fn short(octets: &[u8]) -> ReadFault
    ensures { result ≡ ReadFault.Bad (length octets.now) PimFault.Short }
{
    ReadFault::Bad {
        left: octets.len(),
        fault: PimFault::Short,
    }
}

pub(crate) fn read_octet(octets: &[u8]) -> Result<(u8, &[u8]), ReadFault>
    ensures { Gives (λ x. (x.0, x.1.now)) result (octet_at octets.now) }
{
    match octets {
        [octet, rest @ ..] => Ok((*octet, rest)),
        [] => Err(short(octets)),
    }
}

/// Takes an octet that has one value alone, or else has this fault.
#[tactic(auto, unfolding(crate::specs::Reading::known_at))]
pub(crate) fn read_known(
    octets: &[u8],
    value: u8,
    fault: PimFault,
) -> Result<(u8, &[u8]), ReadFault>
    ensures { Gives (λ x. (x.0, x.1.now)) result (known_at value fault octets.now) }
{
    let (octet, rest) = read_octet(octets)?;
    if octet != value {
        return Err(ReadFault::Bad {
            left: octets.len(),
            fault,
        });
    }
    Ok((octet, rest))
}

pub(crate) fn read_number(octets: &[u8]) -> Result<(u16, &[u8]), ReadFault>
    ensures { Gives (λ x. (x.0, x.1.now)) result (number_at octets.now) }
{
    match octets {
        [high, low, rest @ ..] => Ok((u16::from_be_bytes([*high, *low]), rest)),
        _ => Err(short(octets)),
    }
}

/// Takes `N` octets.
fn read_array<const N: usize>(octets: &[u8]) -> Result<([u8; N], &[u8]), ReadFault>
    ensures { Gives (λ x. (x.0, x.1.now)) result (octets_at N octets.now) }
{
    if octets.len() < N {
        return Err(short(octets));
    }
    let (front, rest) = octets.split_at(N);
    let mut array = [0; N];
    array.copy_from_slice(front);
    Ok((array, rest))
}

/// Takes an address of that family.
#[tactic(auto, unfolding(crate::specs::Reading::address_at))]
pub(crate) fn read_address(family: Family, octets: &[u8]) -> Result<(Addr, &[u8]), ReadFault>
    ensures { Gives (λ x. (x.0, x.1.now)) result (address_at family octets.now) }
{
    match family {
        Family::Ipv4 => {
            let (addr, rest) = read_array(octets)?;
            Ok((Addr::V4(addr), rest))
        }
        Family::Ipv6 => {
            let (addr, rest) = read_array(octets)?;
            Ok((Addr::V6(addr), rest))
        }
    }
}

/// The family that an octet names.
fn named_family(octet: u8) -> Option<Family>
    ensures { result ≡ named_family octet }
{
    match octet {
        1 => Some(Family::Ipv4),
        2 => Some(Family::Ipv6),
        _ => None,
    }
}

/// Takes the octet that names the family of the message.
#[tactic(auto, unfolding(crate::specs::Reading::family_at))]
fn read_family(octets: &[u8]) -> Result<(Family, &[u8]), ReadFault>
    ensures { Gives (λ x. (x.0, x.1.now)) result (family_at octets.now) }
{
    let (octet, rest) = read_octet(octets)?;
    match named_family(octet) {
        Some(family) => Ok((family, rest)),
        None => Err(ReadFault::Bad {
            left: octets.len(),
            fault: PimFault::Family,
        }),
    }
}

/// An Encoded-Unicast address (RFC 7761 section 4.9.1).
#[tactic(auto, unfolding(crate::specs::Reading::unicast_at))]
pub(crate) fn read_unicast(octets: &[u8]) -> Result<(Addr, &[u8]), ReadFault>
    ensures { Gives (λ x. (x.0, x.1.now)) result (unicast_at octets.now) }
{
    let (family, rest) = read_family(octets)?;
    let (_, rest) = read_known(rest, NATIVE, PimFault::Encoding)?;
    read_address(family, rest)
}
