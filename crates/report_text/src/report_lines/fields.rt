//! The fields of a line: what a word says, and the text after the space that ends the word.
ghost use Rattle.std.specs.Prelude.{◌≡◌, IfOk, option_map};
ghost use Rattle.std.specs.List.{list_all};
ghost use Rattle.std.specs.Char.{is_ascii_digit};
ghost use Rattle.report_text.specs.report_lines.Fields.{number_of, short_number_of, ttl_of, octets_of, with_rest, number_field, short_field};
ghost use Rattle.report_text.specs.report_lines.Fields.{ttl_field, node_field, iface_field, kind_field};

use crate::report_lines::names::{iface_named, node_named};
use crate::report_lines::words::kind_of;
use hex::FromHexError;
use mv_base::{Bytes, IfaceId, NoMemory, NodeId, cut_at};
use scenario_defs::{Kind, Scenario};
use std::alloc::Global;
use std::str::from_utf8;

fn are_digits(text: &[u8]) -> bool
    ensures { result ≡ list_all is_ascii_digit text.now }
{
    text.iter().all(|octet| octet.is_ascii_digit())
}

/// The number below 2^64 that digits write.
#[tactic(auto, unfolding(crate::specs::report_lines::Fields::number_of))]
pub fn number_of(text: &[u8]) -> Option<u64>
    ensures { result ≡ number_of text.now }
{
    if !are_digits(text) {
        return None;
    }
    match from_utf8(text) {
        Ok(digits) => digits.parse().ok(),
        Err(_) => None,
    }
}

/// The number below 2^32 that digits write.
#[tactic(auto, unfolding(crate::specs::report_lines::Fields::short_number_of))]
pub fn short_number_of(text: &[u8]) -> Option<u32>
    ensures { result ≡ short_number_of text.now }
{
    u32::try_from(number_of(text)?).ok()
}

/// The number below 2^8 that digits write.
#[tactic(auto, unfolding(crate::specs::report_lines::Fields::ttl_of))]
fn ttl_of(text: &[u8]) -> Option<u8>
    ensures { result ≡ ttl_of text.now }
{
    u8::try_from(number_of(text)?).ok()
}

/// The octets that a text writes in hexadecimal digits, two each, or none as `-`.
pub fn octets_of(alloc: Global, text: &[u8]) -> Result<Option<Bytes>, NoMemory>
    ensures { IfOk result (λ found. found ≡ octets_of text.now) }
{
    if text == b"-".as_slice() {
        return Ok(Some(Bytes::new(alloc)));
    }
    match hex::decode(alloc, text) {
        Ok(octets) => Ok(Some(Bytes::from_vec(octets))),
        Err(FromHexError::OutOfMemory) => Err(NoMemory),
        Err(_) => Ok(None),
    }
}

#[tactic(auto, unfolding(crate::specs::report_lines::Fields::number_field))]
pub fn number_field(text: &[u8]) -> Option<(u64, &[u8])>
    ensures { option_map with_rest result ≡ number_field text.now }
{
    let (word, rest) = cut_at(text, b' ')?;
    let number = number_of(word)?;
    Some((number, rest))
}

#[tactic(auto, unfolding(crate::specs::report_lines::Fields::short_field))]
pub fn short_field(text: &[u8]) -> Option<(u32, &[u8])>
    ensures { option_map with_rest result ≡ short_field text.now }
{
    let (word, rest) = cut_at(text, b' ')?;
    let number = short_number_of(word)?;
    Some((number, rest))
}

#[tactic(auto, unfolding(crate::specs::report_lines::Fields::ttl_field))]
pub fn ttl_field(text: &[u8]) -> Option<(u8, &[u8])>
    ensures { option_map with_rest result ≡ ttl_field text.now }
{
    let (word, rest) = cut_at(text, b' ')?;
    let ttl = ttl_of(word)?;
    Some((ttl, rest))
}

#[tactic(auto, unfolding(crate::specs::report_lines::Fields::node_field))]
pub fn node_field<'a>(scenario: &Scenario, text: &'a [u8]) -> Option<(NodeId, &'a [u8])>
    ensures { option_map with_rest result ≡ node_field scenario.now text.now }
{
    let (word, rest) = cut_at(text, b' ')?;
    let node = node_named(scenario, word)?;
    Some((node, rest))
}

#[tactic(auto, unfolding(crate::specs::report_lines::Fields::iface_field))]
pub fn iface_field<'a>(scenario: &Scenario, text: &'a [u8]) -> Option<(IfaceId, &'a [u8])>
    ensures { option_map with_rest result ≡ iface_field scenario.now text.now }
{
    let (word, rest) = cut_at(text, b' ')?;
    let iface = iface_named(scenario, word)?;
    Some((iface, rest))
}

#[tactic(auto, unfolding(crate::specs::report_lines::Fields::kind_field))]
pub fn kind_field(text: &[u8]) -> Option<(Kind, &[u8])>
    ensures { option_map with_rest result ≡ kind_field text.now }
{
    let (word, rest) = cut_at(text, b' ')?;
    let kind = kind_of(word)?;
    Some((kind, rest))
}
