//! Fields at the front of octets. Each reader answers the field's value and the octets after it, or the octets alone.
ghost use Rattle.std.specs.Prelude.{◌≡◌, ◌+◌, ◌<◌, ◌^◌, length};
ghost use Rattle.core_pcap.specs.Answers.{Gives};
ghost use Rattle.core_pcap.specs.Reading.{octets_at, known_or, word_at, known_word_at, known_half_at};

use crate::fault::{PcapFault, ReadFault};
use crate::order::ByteOrder;
use mv_base::Bytes;
use std::alloc::Global;

/// Fewer octets are left than a field needs.
fn short(octets: &[u8]) -> ReadFault
    ensures { result ≡ ReadFault.Bad (length octets.now) PcapFault.Short }
{
    ReadFault::Bad {
        left: octets.len(),
        fault: PcapFault::Short,
    }
}

/// Takes `N` octets.
pub(crate) fn read_array<const N: usize>(octets: &[u8]) -> Result<([u8; N], &[u8]), ReadFault>
    ensures { Gives (λ x. (x.0, x.1.now)) result (octets_at N octets.now) }
{
    if octets.len() < N {
        return Err(short(octets));
    }
    let (front, rest) = octets.split_at(N);
    let mut array = [0; N];
    array.copy_from_slice(front);
    Ok((array, rest))
}

/// Takes so many octets.
pub(crate) fn read_bytes(
    alloc: Global,
    count: usize,
    octets: &[u8],
) -> Result<(Bytes, &[u8]), ReadFault>
    ensures { Gives (λ x. (x.0, x.1.now)) result (octets_at count octets.now) }
{
    if octets.len() < count {
        return Err(short(octets));
    }
    let (front, rest) = octets.split_at(count);
    let mut bytes = Bytes::new(alloc);
    bytes.extend(front)?;
    Ok((bytes, rest))
}

/// The value of a field, where it has one, or else the fault.
pub(crate) fn known<T: Copy>(
    value: Option<T>,
    left: usize,
    fault: PcapFault,
    rest: &[u8],
) -> Result<(T, &[u8]), ReadFault>
    ensures { Gives (λ x. (x.0, x.1.now)) result (known_or value (left, fault) rest.now) }
{
    match value {
        Some(value) => Ok((value, rest)),
        None => Err(ReadFault::Bad { left, fault }),
    }
}

/// Takes a number of four octets.
#[tactic(auto, unfolding(crate::specs::Reading::field_at))]
pub(crate) fn read_word(order: ByteOrder, octets: &[u8]) -> Result<(u32, &[u8]), ReadFault>
    ensures { Gives (λ x. (x.0, x.1.now)) result (word_at order octets.now) }
{
    let (field, rest) = read_array(octets)?;
    Ok((order.word(field), rest))
}

/// Takes a number of four octets that has one value alone.
#[tactic(auto, unfolding(crate::specs::Reading::field_at))]
pub(crate) fn read_known_word(
    order: ByteOrder,
    value: u32,
    fault: PcapFault,
    octets: &[u8],
) -> Result<&[u8], ReadFault>
    ensures { Gives (λ rest. (tt, rest.now)) result (known_word_at order value fault octets.now) }
{
    let (field, rest) = read_array(octets)?;
    if order.word(field) != value {
        return Err(ReadFault::Bad {
            left: octets.len(),
            fault,
        });
    }
    Ok(rest)
}

/// Takes a number of two octets that has one value alone. Its fault stands so many octets before it.
#[tactic(auto, unfolding(crate::specs::Reading::field_at))]
pub(crate) fn read_known_half(
    order: ByteOrder,
    value: u16,
    before: usize,
    fault: PcapFault,
    octets: &[u8],
) -> Result<&[u8], ReadFault>
    requires { length octets.now + before < 2 ^ 64 }
    ensures { Gives (λ rest. (tt, rest.now)) result (known_half_at order value before fault octets.now) }
{
    let (field, rest) = read_array(octets)?;
    if order.half(field) != value {
        return Err(ReadFault::Bad {
            left: octets.len() + before,
            fault,
        });
    }
    Ok(rest)
}
