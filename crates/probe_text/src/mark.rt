//! The line `probe` of a text.
ghost use Rattle.std.specs.Prelude.{◌≡◌, ◌<◌, ◌≤◌, length, position, IfErr, IfOk, None, Some};
ghost use Rattle.std.specs.Str.Lines.{lines};
ghost use Rattle.probe_text.specs.Grammar.{first_word, is_probe_line, up_to_space};

use line_words::{place_of, split_line, unspaced};

fn up_to_space(octets: &[u8]) -> &[u8]
    ensures { result.now ≡ up_to_space octets.now }
{
    match place_of(b' ', octets) {
        Some(place) => &octets[..place],
        None => octets,
    }
}

/// The first word of a line, whatever its octets are.
fn first_word(line: &[u8]) -> &[u8]
    ensures { result.now ≡ first_word line.now }
{
    up_to_space(unspaced(line))
}

/// Whether the first word of the line is `probe`.
fn is_probe_line(line: &[u8]) -> bool
    ensures { result ≡ is_probe_line line.now }
{
    first_word(line) == b"probe".as_slice()
}

/// The place of the first line `probe` among the lines of a text, or how many lines there are.
pub(crate) fn probe_place(text: &[u8]) -> Result<usize, usize>
    ensures found { IfOk result (λ place. position is_probe_line (lines text.now) ≡ Some place) }
    ensures none { IfErr result (λ count. (position is_probe_line (lines text.now) ≡ None) × (count ≡ length (lines text.now))) }
    ensures few { IfErr result (λ count. count ≤ length text.now) }
    ensures within { IfOk result (λ place. place < length text.now) }
{
    let mut place = 0;
    let mut rest = text;
    'lines: while !rest.is_empty() {
        let (line, thereafter) = split_line(rest);
        if is_probe_line(line) {
            return Ok(place);
        }
        place += 1;
        rest = thereafter;
    }
    Err(place)
}
