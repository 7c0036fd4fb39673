//! A line of a text: whether it says anything, and its words.
ghost use Rattle.std.specs.Prelude.{◌≡◌, ◌≤◌, length, map, position, IfErr, IfOk, Ok};
ghost use Rattle.std.specs.List.{list_any};
ghost use Rattle.line_words.specs.Answers.{Fails};
ghost use Rattle.line_words.specs.Lines.{are_spaces, is_blank, is_outside, row_of, words_in};
ghost use Rattle.line_words.specs.Words.{placed_word};

use crate::fault::{TEXT_LIMIT, fault_at};
use crate::words::words_of;
use crate::{ReadFault, Reason, Row, Word};
use std::alloc::Global;

/// The most octets of a line that says something.
const LINE_LIMIT: usize = 4096;

fn is_outside(b: u8) -> bool
    ensures { result ≡ is_outside b }
{
    b < 0x20 || b > 0x7e
}

/// Whether one of the octets is none from a space to a tilde. It looks at all of them, several at a time.
fn has_outside(octets: &[u8]) -> bool
    ensures { result ≡ list_any is_outside octets.now }
{
    let mut found = false;
    for octet in octets {
        found = found | is_outside(*octet);
    }
    found
}

/// The place of the first such octet. Most lines have none.
fn first_outside(octets: &[u8]) -> Option<usize>
    ensures { result ≡ position is_outside octets.now }
{
    if !has_outside(octets) {
        return None;
    }
    octets.iter().position(|b| is_outside(*b))
}

/// Whether all octets are spaces.
pub fn are_spaces(octets: &[u8]) -> bool
    ensures { result ≡ are_spaces octets.now }
{
    octets.iter().all(|octet| *octet == b' ')
}

/// Whether a line says nothing: it is a comment, or has spaces alone.
#[tactic(auto, unfolding(crate::specs::Lines::is_blank))]
fn is_blank(octets: &[u8]) -> bool
    ensures { result ≡ is_blank octets.now }
{
    let spaces = are_spaces(octets);
    match octets {
        [] => true,
        [first, ..] => *first == b'#' || spaces,
    }
}

/// The line of that number, beside its words.
pub fn row_of(number: u32, octets: &[u8]) -> Row
    requires { length octets.now ≤ TEXT_LIMIT }
    ensures { result ≡ row_of number octets.now }
{
    Row {
        number,
        after: octets.len() as u32 + 1,
    }
}

/// The words of the line of that number: none where it says nothing. `Line` where it is too long, and `Byte` at the first
/// octet that is none from a space to a tilde.
#[tactic(auto, unfolding(crate::specs::Lines::words_in))]
pub fn words_in<'a>(
    alloc: Global,
    number: u32,
    octets: &'a [u8],
) -> Result<Vec<Word<'a>>, ReadFault>
    ensures words { IfOk result (λ words. words_in number octets.now ≡ Ok (map placed_word words.items)) }
    ensures fault { IfErr result (λ stop. Fails stop (words_in number octets.now)) }
{
    if is_blank(octets) {
        return Ok(Vec::new(alloc));
    }
    if octets.len() > LINE_LIMIT {
        return Err(ReadFault::Text(fault_at(number, LINE_LIMIT as u32 + 1, Reason::Line)));
    }
    if let Some(place) = first_outside(octets) {
        return Err(ReadFault::Text(fault_at(number, place as u32 + 1, Reason::Byte)));
    }
    Ok(words_of(alloc, octets)?)
}
