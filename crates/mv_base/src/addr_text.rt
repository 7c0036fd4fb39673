//! Addresses in text.
ghost use Rattle.std.specs.Prelude.{◌≡◌, IfSome, Some, option_map};
ghost use Rattle.mv_base.specs.AddrText.{IsAddrText, digit_of, digits_of, group_of, group_front_of, groups_of, addr_of, group_texts};

use crate::Addr;
use crate::addr::read_dotted;
use crate::number::cut_at;
use std::net::Ipv6Addr;

/// One hexadecimal digit.
fn read_digit(octet: u8) -> Option<u16>
    ensures { result ≡ digit_of octet }
{
    let digit = char::from(octet).to_digit(16)?;
    Some(digit as u16)
}

/// Four hexadecimal digits.
#[tactic(auto, unfolding(crate::specs::AddrText::digits_of))]
fn read_digits(a: u8, b: u8, c: u8, d: u8) -> Option<u16>
    ensures { result ≡ digits_of a b c d }
{
    let a = read_digit(a)?;
    let b = read_digit(b)?;
    let c = read_digit(c)?;
    let d = read_digit(d)?;
    Some(((a * 16 + b) * 16 + c) * 16 + d)
}

/// A group of one to four hexadecimal digits.
#[tactic(auto, unfolding(crate::specs::AddrText::group_of))]
fn read_group(text: &[u8]) -> Option<u16>
    ensures { result ≡ group_of text.now }
{
    match text {
        [d] => read_digits(b'0', b'0', b'0', *d),
        [c, d] => read_digits(b'0', b'0', *c, *d),
        [b, c, d] => read_digits(b'0', *b, *c, *d),
        [a, b, c, d] => read_digits(*a, *b, *c, *d),
        _ => None,
    }
}

/// A group that a colon follows, and the text after the colon.
#[tactic(auto, unfolding(crate::specs::AddrText::group_front_of))]
fn read_group_front(text: &[u8]) -> Option<(u16, &[u8])>
    ensures { option_map group_texts result ≡ group_front_of text.now }
{
    let (front, rest) = cut_at(text, b':')?;
    let group = read_group(front)?;
    Some((group, rest))
}

/// The octets of eight groups with colons between them.
#[tactic(auto, unfolding(crate::specs::AddrText::groups_of))]
fn read_groups(text: &[u8]) -> Option<[u8; 16]>
    ensures { result ≡ groups_of text.now }
{
    let (a, rest) = read_group_front(text)?;
    let (b, rest) = read_group_front(rest)?;
    let (c, rest) = read_group_front(rest)?;
    let (d, rest) = read_group_front(rest)?;
    let (e, rest) = read_group_front(rest)?;
    let (f, rest) = read_group_front(rest)?;
    let (g, rest) = read_group_front(rest)?;
    let h = read_group(rest)?;
    Some(Ipv6Addr::new(a, b, c, d, e, f, g, h).octets())
}

/// The address of either family that the octets write.
#[tactic(auto, unfolding(crate::specs::AddrText::addr_of))]
fn read_octets(text: &[u8]) -> Option<Addr>
    ensures { result ≡ addr_of text.now }
{
    match read_dotted(text) {
        Some(octets) => Some(Addr::V4(octets)),
        None => {
            let octets = read_groups(text)?;
            Some(Addr::V6(octets))
        }
    }
}

impl Addr {
    /// The address that the text writes: four decimal numbers without leading zeros and with dots between them, or
    /// eight groups of one to four hexadecimal digits with colons between them.
    pub fn read_text(text: &str) -> Option<Addr>
        ensures read { IfSome result (IsAddrText text.now) }
        ensures only { (addr : Addr) → IsAddrText text.now addr → result ≡ Some addr }
    {
        read_octets(text.as_bytes())
    }
}
