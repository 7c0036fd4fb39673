//! Octets in hexadecimal text.
ghost use Rattle.std.specs.Prelude.{◌≡◌, ℕ, ◌≤◌, ◌<◌, [], None, length, position, reverse, slice_index_or, IfOk, IfSome};
ghost use Rattle.std.specs.List.{count_by, after_last};
ghost use Rattle.hex.specs.Hex.{hex_digit_value};
ghost use Rattle.line_words.specs.Answers.{Gives};
ghost use Rattle.line_words.specs.declared.fault.Reason.TheVariants as reasons;
ghost use Rattle.decode_text.specs.HexText.{is_white, is_lf, fault_after, octets_of};
ghost use Rattle.decode_text.specs.HexReading.{TakesDigit};

use line_words::{ReadFault, Reason, TEXT_LIMIT, TextFault};
use mv_base::{Bytes, NoMemory};
use std::alloc::Global;

/// The value of a hexadecimal digit of either case.
fn digit_value(b: u8) -> Option<u8>
    ensures { result ≡ hex_digit_value b }
{
    match b {
        b'0'..=b'9' => Some(b - b'0'),
        b'a'..=b'f' => Some(b - b'a' + 10),
        b'A'..=b'F' => Some(b - b'A' + 10),
        _ => None,
    }
}

fn is_white(b: u8) -> bool
    ensures { result ≡ is_white b }
{
    matches!(b, b' ' | b'\t' | b'\r' | b'\n')
}

/// The value of each octet as a digit. A look-up in it costs less than comparisons.
fn digit_values() -> [Option<u8>; 256]
    ensures { (b : ℕ) → b < 256 → slice_index_or result b None ≡ hex_digit_value b }
{
    let mut values = [None; 256];
    for b in 0..256 {
        values[b] = digit_value(b as u8);
    }
    values
}

/// Takes the value of the next digit. Gives that of the digit that waits then for the second one of its pair.
fn take_digit(octets: &mut Bytes, high: Option<u8>, value: u8) -> Result<Option<u8>, NoMemory>
    requires high { IfSome high (λ high. high < 16) }
    requires low { value < 16 }
    ensures { IfOk result (λ waiting. TakesDigit octets.old high value octets.new waiting) }
{
    match high {
        None => Ok(Some(value)),
        Some(high) => {
            octets.push(high * 16 + value)?;
            Ok(None)
        }
    }
}

fn count_lines(front: &[u8]) -> usize
    ensures value { result ≡ count_by is_lf front.now }
{
    front.iter().filter(|b| **b == b'\n').count()
}

/// The place of the last LF, counted from the end.
fn last_lf(front: &[u8]) -> Option<usize>
    ensures { result ≡ position is_lf (reverse front.now) }
{
    front.iter().rev().position(|b| *b == b'\n')
}

/// How many octets stand after the last LF.
#[tactic(auto, using(crate::proofs::HexLemmas::octets_after_lf))]
fn count_after_lf(front: &[u8]) -> usize
    ensures { result ≡ length (after_last is_lf front.now) }
{
    last_lf(front).unwrap_or(front.len())
}

/// The fault after the front of a text.
fn fault_after(front: &[u8]) -> TextFault
    requires { length front.now ≤ TEXT_LIMIT }
    ensures { result ≡ fault_after front.now reasons.Hex }
{
    TextFault {
        line: count_lines(front) as u32 + 1,
        column: count_after_lf(front) as u32 + 1,
        reason: Reason::Hex,
    }
}

/// No octets, with room for so many.
fn with_room(alloc: Global, count: usize) -> Result<Bytes, NoMemory>
    ensures { IfOk result (λ octets. octets ≡ []) }
{
    let octets = Vec::with_capacity(alloc, count)?;
    Ok(Bytes::from_vec(octets))
}

/// The octets of the pairs of digits, or the fault of a text that is not too long. Its place is looked for only where
/// there is a fault.
fn read_pairs(alloc: Global, text: &[u8]) -> Result<Bytes, ReadFault>
    requires { length text.now ≤ TEXT_LIMIT }
    ensures { Gives result (octets_of text.now) }
{
    let values = digit_values();
    let mut octets = with_room(alloc, text.len() / 2)?;
    let mut high = None;
    for (place, b) in text.iter().enumerate() {
        match values[usize::from(*b)] {
            Some(value) => high = take_digit(&mut octets, high, value)?,
            None => {
                if !is_white(*b) {
                    return Err(ReadFault::Text(fault_after(&text[..place])));
                }
            }
        }
    }
    match high {
        None => Ok(octets),
        Some(_) => Err(ReadFault::Text(fault_after(text))),
    }
}

/// The octets that a text writes, two hexadecimal digits each, with white space between digits left out; or its first
/// fault. A text of more than 16,777,216 octets is `Long`. `Hex` stands at the first octet that is neither a digit nor
/// white space, or after the last octet where the number of digits is odd.
pub fn read_octets(alloc: Global, text: &[u8]) -> Result<Bytes, ReadFault>
    ensures { Gives result (octets_of text.now) }
{
    if text.len() > TEXT_LIMIT {
        return Err(ReadFault::Text(TextFault {
            line: 1,
            column: 1,
            reason: Reason::Long,
        }));
    }
    read_pairs(alloc, text)
}
