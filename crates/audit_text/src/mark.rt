//! The line `report` of a text.
ghost use Rattle.std.specs.Prelude.{◌≡◌, ◌≤◌, ◌+◌, false, length, IfOk, IfErr};
ghost use Rattle.std.specs.List.{list_any};
ghost use Rattle.std.specs.Str.Lines.{lines};
ghost use Rattle.audit_text.specs.Texts.{is_ended, is_mark};
ghost use Rattle.audit_text.specs.Cutting.{line_length, AreParts};

use line_words::{TEXT_LIMIT, are_spaces, place_of, split_line, unspaced};

/// The texts before and after a line `report`, and the number of that line.
#[derive(Clone, Copy)]
pub(crate) struct Parts<'a> {
    pub front: &'a [u8],
    pub number: u32,
    pub thereafter: &'a [u8],
}

/// Whether octets are `report` with nothing but spaces after.
fn is_ended(octets: &[u8]) -> bool
    ensures { result ≡ is_ended octets.now }
{
    match octets.strip_prefix(b"report".as_slice()) {
        Some(thereafter) => are_spaces(thereafter),
        None => false,
    }
}

/// Whether the only word of the line is `report`.
fn is_mark(line: &[u8]) -> bool
    ensures { result ≡ is_mark line.now }
{
    is_ended(unspaced(line))
}

/// How many octets the first line of a text has, with the line feed after it.
fn line_length(text: &[u8]) -> usize
    ensures { result ≡ line_length text.now }
{
    match place_of(b'\n', text) {
        Some(place) => place + 1,
        None => text.len(),
    }
}

/// The parts of a text before and after its first line `report`. Where there is none, answers the number of the line after the last.
pub(crate) fn parts_of(text: &[u8]) -> Result<Parts<'_>, u32>
    requires { length text.now ≤ TEXT_LIMIT }
    ensures parts { IfOk result (λ parts. AreParts text.now parts.front.now parts.thereafter.now parts.number) }
    ensures none { IfErr result (λ number. (list_any is_mark (lines text.now) ≡ false) × (number ≡ length (lines text.now) + 1)) }
{
    let mut place = 0;
    let mut number = 1;
    'lines: while place < text.len() {
        let rest = &text[place..];
        let (line, thereafter) = split_line(rest);
        if is_mark(line) {
            let front = &text[..place];
            return Ok(Parts {
                front,
                number,
                thereafter,
            });
        }
        number += 1;
        place += line_length(rest);
    }
    Err(number)
}
