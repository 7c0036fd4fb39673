//! The header of a file.
ghost use Rattle.std.specs.Prelude.{◌≡◌};
ghost use Rattle.core_pcap.specs.Answers.{Gives};
ghost use Rattle.core_pcap.specs.Reading.{magic_of, magic_at, version_at, passed_at, header_at};

use crate::fault::{PcapFault, ReadFault};
use crate::field::{known, read_array, read_known_half, read_known_word};
use crate::order::ByteOrder;

/// The first four octets, the most significant first.
const MAGIC: u32 = 0xa1b2c3d4;

/// The two parts of the version.
const MAJOR: u16 = 2;

const MINOR: u16 = 4;

/// Ethernet.
const NETWORK: u32 = 1;

/// The order of octets in which these four are the magic number.
fn magic_of(field: [u8; 4]) -> Option<ByteOrder>
    ensures { result ≡ magic_of field }
{
    let number = u32::from_be_bytes(field);
    if number == MAGIC {
        Some(ByteOrder::BigEndian)
    } else if number == MAGIC.swap_bytes() {
        Some(ByteOrder::LittleEndian)
    } else {
        None
    }
}

#[tactic(auto, unfolding(crate::specs::Reading::field_at))]
fn read_magic(octets: &[u8]) -> Result<(ByteOrder, &[u8]), ReadFault>
    ensures { Gives (λ x. (x.0, x.1.now)) result (magic_at octets.now) }
{
    let (field, rest) = read_array(octets)?;
    known(magic_of(field), octets.len(), PcapFault::Magic, rest)
}

/// Both parts of the version. The fault of either stands at the first.
#[tactic(auto, unfolding(crate::specs::Reading::version_at))]
fn read_version(order: ByteOrder, octets: &[u8]) -> Result<&[u8], ReadFault>
    ensures { Gives (λ rest. (tt, rest.now)) result (version_at order octets.now) }
{
    let rest = read_known_half(order, MAJOR, 0, PcapFault::Version, octets)?;
    read_known_half(order, MINOR, 2, PcapFault::Version, rest)
}

/// The time zone, the accuracy and the longest frame, which may be anything.
#[tactic(auto, unfolding(crate::specs::Reading::passed_at))]
fn read_passed(octets: &[u8]) -> Result<&[u8], ReadFault>
    ensures { Gives (λ rest. (tt, rest.now)) result (passed_at octets.now) }
{
    let (_, rest) = read_array::<4>(octets)?;
    let (_, rest) = read_array::<4>(rest)?;
    let (_, rest) = read_array::<4>(rest)?;
    Ok(rest)
}

/// The header. It tells the order of octets.
#[tactic(auto, unfolding(crate::specs::Reading::header_at))]
pub(crate) fn read_header(octets: &[u8]) -> Result<(ByteOrder, &[u8]), ReadFault>
    ensures { Gives (λ x. (x.0, x.1.now)) result (header_at octets.now) }
{
    let (order, rest) = read_magic(octets)?;
    let rest = read_version(order, rest)?;
    let rest = read_passed(rest)?;
    let rest = read_known_word(order, NETWORK, PcapFault::Network, rest)?;
    Ok((order, rest))
}
