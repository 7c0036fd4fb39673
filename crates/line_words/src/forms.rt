//! The forms of the words: what a word writes, or the fault at it.
ghost use Rattle.std.specs.Prelude.{◌≡◌, ◌∷◌, ◌++◌};
ghost use Rattle.std.specs.Int.{w16, w32, to_be_bytes};
ghost use Rattle.std.specs.List.{list_all};
ghost use Rattle.mv_base.specs.Dotted.{dotted_of};
ghost use Rattle.mv_base.specs.AddrText.{addr_of};
ghost use Rattle.line_words.specs.Answers.{Gives};
ghost use Rattle.line_words.specs.Words.{placed_word};
ghost use Rattle.scenario_defs.specs.Names.{is_letter, is_name_octet as name_octet, is_name};
ghost use Rattle.line_words.specs.Forms.{or_fault, is_unicast_front, is_unicast, is_group, same_family, ipv4_at, addr_at, source_at};
ghost use Rattle.line_words.specs.Forms.{group_at, number_to, number_at, vrf_number_of, numbered_of, addressed_of, rd_of, target_of, rule_at};
ghost use Rattle.line_words.specs.Forms.{prefix_if, prefix_of, payload_at};

use crate::fault::fault_at;
use crate::{ReadFault, Reason, Row, TextFault, Word};
use hex::FromHexError;
use mv_base::route_targets::{ExtComm, Target};
use mv_base::{Addr, Bytes, Prefix, Rd, Rule, cut_at, read_number};
use scenario_defs::NAME_LIMIT;
use std::alloc::Global;

fn is_letter(b: u8) -> bool
    ensures { result ≡ is_letter b }
{
    matches!(b, b'A'..=b'Z' | b'a'..=b'z')
}

fn is_name_octet(b: u8) -> bool
    ensures { result ≡ name_octet b }
{
    matches!(b, b'A'..=b'Z' | b'a'..=b'z' | b'0'..=b'9' | b'_' | b'-')
}

fn are_name_octets(text: &[u8]) -> bool
    ensures { result ≡ list_all name_octet text.now }
{
    text.iter().all(|b| is_name_octet(*b))
}

/// Whether a text has the form of a name: 1 to 16 letters, digits, underscores and hyphens, a letter first.
pub fn is_name(text: &[u8]) -> bool
    ensures { result ≡ is_name text.now }
{
    let allowed = are_name_octets(text);
    !text.is_empty() && text.len() <= NAME_LIMIT && is_letter(text[0]) && allowed
}

/// The value, or the fault of that reason at the word.
pub fn or_fault<T: Drop>(
    value: Option<T>,
    row: Row,
    word: &Word,
    reason: Reason,
) -> Result<T, TextFault>
    ensures { result ≡ or_fault value row (placed_word word.now) reason }
{
    match value {
        Some(value) => Ok(value),
        None => Err(fault_at(row.number, word.column, reason)),
    }
}

/// Whether the octet begins an IPv6 address of 2000::/3 or of fc00::/7.
fn is_unicast_front(front: u8) -> bool
    ensures { result ≡ is_unicast_front front }
{
    (front >= 32 && front <= 63) || front == 252 || front == 253
}

/// Whether the address is unicast: of IPv4 with a first octet of 1 to 223, or of IPv6, global or local.
pub fn is_unicast(addr: Addr) -> bool
    ensures { result ≡ is_unicast addr }
{
    match addr {
        Addr::V4(octets) => octets[0] >= 1 && octets[0] <= 223,
        Addr::V6(octets) => is_unicast_front(octets[0]),
    }
}

fn is_group(addr: Addr) -> bool
    ensures { result ≡ is_group addr }
{
    match addr {
        Addr::V4(octets) => {
            let local = octets[0] == 224 && octets[1] == 0 && octets[2] == 0;
            octets[0] >= 224 && octets[0] <= 239 && !local
        }
        Addr::V6(octets) => octets[0] == 255 && octets[1] % 16 >= 3,
    }
}

/// Whether both addresses are of one family.
pub fn same_family(a: Addr, b: Addr) -> bool
    ensures { result ≡ same_family a b }
{
    match (a, b) {
        (Addr::V4(_), Addr::V4(_)) => true,
        (Addr::V6(_), Addr::V6(_)) => true,
        _ => false,
    }
}

/// The address of either family that a text writes.
pub(crate) fn addr_of(text: &[u8]) -> Option<Addr>
    ensures { result ≡ addr_of text.now }
{
    match std::str::from_utf8(text) {
        Ok(text) => Addr::read_text(text),
        Err(_) => None,
    }
}

/// The IPv4 address that a word writes in dotted form, or `Address`.
#[tactic(auto, unfolding(crate::specs::Forms::ipv4_at))]
pub fn ipv4_at(row: Row, word: &Word) -> Result<Addr, TextFault>
    ensures { result ≡ ipv4_at row (placed_word word.now) }
{
    or_fault(Addr::read_dotted(word.text), row, word, Reason::Address)
}

/// The address of either family that a word writes, or `Address`.
#[tactic(auto, unfolding(crate::specs::Forms::addr_at))]
pub fn addr_at(row: Row, word: &Word) -> Result<Addr, TextFault>
    ensures { result ≡ addr_at row (placed_word word.now) }
{
    or_fault(addr_of(word.text), row, word, Reason::Address)
}

/// The address of a source that a word writes: `Address` where it writes none, `Source` where it is not unicast.
#[tactic(auto, unfolding(crate::specs::Forms::source_at))]
pub fn source_at(row: Row, word: &Word) -> Result<Addr, TextFault>
    ensures { result ≡ source_at row (placed_word word.now) }
{
    let addr = addr_at(row, word)?;
    if !is_unicast(addr) {
        return Err(fault_at(row.number, word.column, Reason::Source));
    }
    Ok(addr)
}

/// The address of a group that a word writes: `Address` where it writes none, `Group` where it is not multicast, or one of
/// 224.0.0.0/24 or of a scope below 3 in IPv6, whose groups are not forwarded (RFC 5771 section 4, RFC 4291 section 2.7).
#[tactic(auto, unfolding(crate::specs::Forms::group_at))]
pub fn group_at(row: Row, word: &Word) -> Result<Addr, TextFault>
    ensures { result ≡ group_at row (placed_word word.now) }
{
    let addr = addr_at(row, word)?;
    if !is_group(addr) {
        return Err(fault_at(row.number, word.column, Reason::Group));
    }
    Ok(addr)
}

/// The number from 1 to the limit that a text writes.
#[tactic(auto, unfolding(crate::specs::Forms::number_to))]
fn number_to(text: &[u8], limit: u32) -> Option<u32>
    ensures { result ≡ number_to limit text.now }
{
    let number = read_number(text)?;
    if number >= 1 && number <= u64::from(limit) {
        Some(number as u32)
    } else {
        None
    }
}

/// The number from 1 to the limit that a word writes, or `Number`.
pub fn number_at(row: Row, word: &Word, limit: u32) -> Result<u32, TextFault>
    ensures { result ≡ number_at limit row (placed_word word.now) }
{
    or_fault(number_to(word.text, limit), row, word, Reason::Number)
}

/// The number of a VRF that a text writes: 1 to 4,095.
#[tactic(auto, unfolding(crate::specs::Forms::vrf_number_of))]
pub fn vrf_number_of(text: &[u8]) -> Option<u16>
    ensures { result ≡ vrf_number_of text.now }
{
    let number = read_number(text)?;
    if number >= 1 && number <= 4095 {
        Some(number as u16)
    } else {
        None
    }
}

fn numbered_octets(kind: u8, sub_kind: u8, n: u16, m: u32) -> [u8; 8]
    ensures { result ≡ kind ∷ sub_kind ∷ (to_be_bytes w16 n ++ to_be_bytes w32 m) }
{
    let [n0, n1] = n.to_be_bytes();
    let [m0, m1, m2, m3] = m.to_be_bytes();
    [kind, sub_kind, n0, n1, m0, m1, m2, m3]
}

/// All eight octets that `N:M` writes, the two of the kind first, where N is below 2^16 and M below 2^32.
#[tactic(auto, unfolding(crate::specs::Forms::numbered_of))]
fn numbered_of(kind: u8, sub_kind: u8, text: &[u8]) -> Option<[u8; 8]>
    ensures { result ≡ numbered_of kind sub_kind text.now }
{
    let (front, rest) = cut_at(text, b':')?;
    let n = read_number(front)?;
    let m = read_number(rest)?;
    if n <= 65535 && m <= 4294967295 {
        Some(numbered_octets(kind, sub_kind, n as u16, m as u32))
    } else {
        None
    }
}

/// The four octets that a dotted text writes.
fn dotted_of(text: &[u8]) -> Option<[u8; 4]>
    ensures { result ≡ dotted_of text.now }
{
    match Addr::read_dotted(text) {
        Some(Addr::V4(octets)) => Some(octets),
        _ => None,
    }
}

fn addressed_octets(kind: u8, sub_kind: u8, addr: [u8; 4], m: u16) -> [u8; 8]
    ensures { result ≡ kind ∷ sub_kind ∷ (addr ++ to_be_bytes w16 m) }
{
    let [a, b, c, d] = addr;
    let [m0, m1] = m.to_be_bytes();
    [kind, sub_kind, a, b, c, d, m0, m1]
}

/// All eight octets that `ADDR:M` writes, the two of the kind first, where M is below 2^16.
#[tactic(auto, unfolding(crate::specs::Forms::addressed_of))]
fn addressed_of(kind: u8, sub_kind: u8, text: &[u8]) -> Option<[u8; 8]>
    ensures { result ≡ addressed_of kind sub_kind text.now }
{
    let (front, rest) = cut_at(text, b':')?;
    let addr = dotted_of(front)?;
    let m = read_number(rest)?;
    if m <= 65535 {
        Some(addressed_octets(kind, sub_kind, addr, m as u16))
    } else {
        None
    }
}

/// The route distinguisher that a text writes: `N:M` one of type 0, `ADDR:M` one of type 1 (RFC 4364 section 4.2).
#[tactic(auto, unfolding(crate::specs::Forms::rd_of))]
pub fn rd_of(text: &[u8]) -> Option<Rd>
    ensures { result ≡ rd_of text.now }
{
    if let Some(octets) = numbered_of(0, 0, text) {
        return Some(Rd(octets));
    }
    let octets = addressed_of(0, 1, text)?;
    Some(Rd(octets))
}

/// The Route Target that a text writes: `N:M` one of a two-octet AS, `ADDR:M` one of an IPv4 address (RFC 4360 section 4).
#[tactic(auto, unfolding(crate::specs::Forms::target_of))]
pub fn target_of(text: &[u8]) -> Option<Target>
    ensures { result ≡ target_of text.now }
{
    if let Some(octets) = numbered_of(0, 2, text) {
        return Some(Target(ExtComm(octets)));
    }
    let octets = addressed_of(1, 2, text)?;
    Some(Target(ExtComm(octets)))
}

/// The rule for upstream hops that a word names, or `Choice`.
#[tactic(auto, unfolding(crate::specs::Forms::rule_at))]
pub fn rule_at(row: Row, word: &Word) -> Result<Rule, TextFault>
    ensures { result ≡ rule_at row (placed_word word.now) }
{
    if word.text == b"highest".as_slice() {
        Ok(Rule::Highest)
    } else if word.text == b"nearest".as_slice() {
        Ok(Rule::Nearest)
    } else if word.text == b"hash".as_slice() {
        Ok(Rule::Hash)
    } else {
        Err(fault_at(row.number, word.column, Reason::Choice))
    }
}

fn prefix_if(addr: Addr, bits: u64) -> Option<Prefix>
    ensures { result ≡ prefix_if addr bits }
{
    match addr {
        Addr::V4(_) if bits <= 32 => Prefix::of(addr, bits as u8),
        Addr::V6(_) if bits <= 128 => Prefix::of(addr, bits as u8),
        _ => None,
    }
}

/// The prefix of either family that a text `ADDR/N` writes, with no bit set after the first N.
#[tactic(auto, unfolding(crate::specs::Forms::prefix_of))]
pub(crate) fn prefix_of(text: &[u8]) -> Option<Prefix>
    ensures { result ≡ prefix_of text.now }
{
    let (front, rest) = cut_at(text, b'/')?;
    let addr = addr_of(front)?;
    let bits = read_number(rest)?;
    prefix_if(addr, bits)
}

/// The octets that a word writes in hexadecimal digits, two each, or none as `-`; else `Hex`, or want of memory.
#[tactic(auto, unfolding(crate::specs::Forms::payload_at))]
pub fn payload_at(alloc: Global, row: Row, word: &Word) -> Result<Bytes, ReadFault>
    ensures { Gives result (payload_at row (placed_word word.now)) }
{
    if word.text == b"-".as_slice() {
        return Ok(Bytes::new(alloc));
    }
    match hex::decode(alloc, word.text) {
        Ok(octets) => Ok(Bytes::from_vec(octets)),
        Err(FromHexError::OutOfMemory) => Err(ReadFault::NoMemory),
        Err(_) => Err(ReadFault::Text(fault_at(row.number, word.column, Reason::Hex))),
    }
}
