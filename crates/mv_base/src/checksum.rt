//! The checksum of the Internet protocols (RFC 1071 section 1).
ghost use Rattle.std.specs.Prelude.{◌≡◌, ◌+◌, ◌*◌, ◌<◌, ◌^◌};
ghost use Rattle.mv_base.specs.Checksum.{ones_add, checksum};

/// One's complement addition: the carry is added to the sum.
fn ones_add(a: u16, b: u16) -> u16
    ensures { result ≡ ones_add a b }
{
    let sum = u32::from(a) + u32::from(b);
    if sum < 0x1_0000 {
        sum as u16
    } else {
        (sum - 0xffff) as u16
    }
}

/// The one's complement of the one's complement sum of the 16-bit words of the octets. An odd last octet is the high
/// half of a word.
pub fn ones_sum(octets: &[u8]) -> u16
    ensures { result ≡ checksum octets.now }
{
    let mut sum = 0;
    let mut rest = octets;
    'words: while let [high, low, more @ ..] = rest {
        sum = ones_add(sum, u16::from_be_bytes([*high, *low]));
        rest = more;
    }
    if let [high] = rest {
        sum = ones_add(sum, u16::from_be_bytes([*high, 0]));
    }
    0xffff - sum
}
