//! What lines of all kinds share: the number of one thing more, what a word out of a few means, and the fault of too few
//! words or too many.
ghost use Rattle.std.specs.Prelude.{◌≡◌, drop, map};
ghost use Rattle.line_words.specs.Words.{placed_word};
ghost use Rattle.scenario_lines.specs.Forms.{count_fault, meaning_of, next_number};

use line_words::{Reason, Row, TextFault, Word, fault_at};

/// The number of one thing more of a kind, or `Limit` at the first word where there are as many as there may be.
pub(crate) fn next_number(
    count: usize,
    limit: u16,
    row: Row,
    first: &Word,
) -> Result<u16, TextFault>
    ensures { result ≡ next_number count limit row (placed_word first.now) }
{
    if count >= usize::from(limit) {
        return Err(fault_at(row.number, first.column, Reason::Limit));
    }
    Ok(count as u16)
}

/// What the text means, by the words and their meanings.
pub fn meaning_of<T: Copy>(text: &[u8], words: &[(&'static [u8], T)]) -> Option<T>
    ensures { result ≡ meaning_of text.now words.now }
{
    for (word, meaning) in words {
        if text == *word {
            return Some(*meaning);
        }
    }
    None
}

/// The fault of a line that does not have so many words: at the first one that is too many, or after the last one.
pub fn count_fault(row: Row, words: &[Word], count: usize) -> TextFault
    ensures { result ≡ count_fault row (drop count (map placed_word words.now)) }
{
    match words.get(count) {
        Some(extra) => fault_at(row.number, extra.column, Reason::Count),
        None => fault_at(row.number, row.after, Reason::Count),
    }
}
