//! The first line of a text, and the words of a line.
ghost use Rattle.std.specs.Prelude.{◌≡◌, ◌+◌, ◌<◌, ◌==◌, ◌≤◌, ◌∷◌, ℕ, length, map, position, IfOk};
ghost use Rattle.std.specs.Str.Lines.{lines, strip_carriage_return};
ghost use Rattle.line_words.specs.Words.{placed_word, unspaced, with_part, words_from, words_of};

use memchr::memchr;
use std::alloc::{AllocError, Global};

/// A word, with the column that it begins at.
#[derive(Clone, Copy)]
pub struct Word<'a> {
    pub column: u32,
    pub text: &'a [u8],
}

/// A line beside its words.
#[derive(Clone, Copy)]
pub struct Row {
    pub number: u32,
    /// The column after the last octet.
    pub after: u32,
}

/// The place of the first such octet, if there is one. It looks at several octets at a time.
pub fn place_of(octet: u8, text: &[u8]) -> Option<usize>
    ensures { result ≡ position (λ b. b == octet) text.now }
{
    memchr(octet, text)
}

/// The first line of a text, and the text after it.
pub fn split_line(text: &[u8]) -> (&[u8], &[u8])
    requires { 0 < length text.now }
    ensures line { lines text.now ≡ result.0.now ∷ lines result.1.now }
    ensures within { length result.0.now ≤ length text.now }
    ensures shorter { length result.1.now < length text.now }
{
    match place_of(b'\n', text) {
        Some(place) => (without_return(&text[..place]), &text[place + 1..]),
        None => (text, &[]),
    }
}

/// The line less the carriage return at its end, if it has one.
fn without_return(line: &[u8]) -> &[u8]
    ensures line { result.now ≡ strip_carriage_return line.now }
    ensures shorter { length result.now ≤ length line.now }
{
    if line.is_empty() || line[line.len() - 1] != b'\r' {
        return line;
    }
    &line[..line.len() - 1]
}

/// The octets of a line from the first one on that is no space.
pub fn unspaced(line: &[u8]) -> &[u8]
    ensures { result.now ≡ unspaced line.now }
{
    let mut rest = line;
    'spaces: while let [b' ', thereafter @ ..] = rest {
        rest = thereafter;
    }
    rest
}

/// The octets up to the first space, and those after it.
fn split_space(octets: &[u8]) -> (&[u8], &[u8])
    requires { 0 < length octets.now }
    ensures words { (column : ℕ) → words_from column octets.now ≡
        with_part column result.0.now (words_from (column + (length result.0.now + 1)) result.1.now) }
    ensures within { length result.0.now + length result.1.now ≤ length octets.now }
    ensures shorter { length result.1.now < length octets.now }
{
    match place_of(b' ', octets) {
        Some(place) => (&octets[..place], &octets[place + 1..]),
        None => (octets, &[]),
    }
}

/// The words of a line, with their columns.
#[tactic(auto, unfolding(crate::specs::Words::words_of))]
pub(crate) fn words_of<'a>(alloc: Global, line: &'a [u8]) -> Result<Vec<Word<'a>>, AllocError>
    requires { length line.now ≤ 4096 }
    ensures { IfOk result (λ v. map placed_word v.items ≡ words_of line.now) }
{
    let mut words = Vec::new(alloc);
    let mut column = 1;
    let mut rest = line;
    'words: while !rest.is_empty() {
        let (part, thereafter) = split_space(rest);
        if !part.is_empty() {
            words.push(Word { column, text: part })?;
        }
        column += part.len() as u32 + 1;
        rest = thereafter;
    }
    Ok(words)
}
