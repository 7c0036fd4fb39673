//! The lines of a text, by their words.
ghost use Rattle.std.specs.Prelude.{◌≡◌, map};
ghost use Rattle.mv_base.specs.Dotted.{dotted_of};
ghost use Rattle.line_words.specs.Answers.{Gives};
ghost use Rattle.line_words.specs.Words.{placed_word};
ghost use Rattle.ingress_text.specs.Grammar.{address_at, claimed, count_fault, distinct, first_line, from_line, from_words, is_other, label_of, leaf_line, leaf_words};
ghost use Rattle.ingress_text.specs.Grammar.{next_line, root_again, root_line, root_words, words_line};

use crate::draft::Draft;
use crate::input::{Label, Role, Root, Said, Step};
use crate::root::root_of;
use line_words::{ReadFault, Reason, Row, TextFault, Word, fault_at, or_fault, payload_at};
use mv_base::{Addr, read_number};
use std::alloc::Global;

/// The octets of the IPv4 address that a text writes in dotted form.
fn dotted_of(text: &[u8]) -> Option<[u8; 4]>
    ensures { result ≡ dotted_of text.now }
{
    match Addr::read_dotted(text) {
        Some(Addr::V4(octets)) => Some(octets),
        _ => None,
    }
}

/// The address of IPv4 that a word writes, or `Address`.
#[tactic(auto, unfolding(crate::specs::Grammar::address_at))]
fn address_at(row: Row, word: &Word) -> Result<[u8; 4], TextFault>
    ensures { result ≡ address_at row (placed_word word.now) }
{
    or_fault(dotted_of(word.text), row, word, Reason::Address)
}

/// The label that a text writes: 16 to 1,048,575.
#[tactic(auto, unfolding(crate::specs::Grammar::label_of))]
fn label_of(text: &[u8]) -> Option<Label>
    ensures { result ≡ label_of text.now }
{
    let number = read_number(text)?;
    if number >= 16 && number <= 1048575 {
        Some(Label::of(number as u32))
    } else {
        None
    }
}

/// The fault of a line that does not have two words after the first one: at the third of them, or after the last one.
fn count_fault(row: Row, words: &[Word]) -> TextFault
    ensures { result ≡ count_fault row (map placed_word words.now) }
{
    match words {
        [_, _, extra, ..] => fault_at(row.number, extra.column, Reason::Count),
        _ => fault_at(row.number, row.after, Reason::Count),
    }
}

/// The line of the root by the words after the first one.
#[tactic(auto, unfolding(crate::specs::Grammar::root_words))]
fn root_words(alloc: Global, row: Row, addr: &Word, octets: &Word) -> Result<Step, ReadFault>
    ensures { Gives result (root_words row (placed_word addr.now) (placed_word octets.now)) }
{
    let addr = address_at(row, addr)?;
    let bytes = payload_at(alloc, row, octets)?;
    let found = root_of(alloc, addr, bytes.as_slice())?;
    let root = or_fault(found, row, octets, Reason::Root)?;
    Ok(Step::Root(root))
}

#[tactic(auto, unfolding(crate::specs::Grammar::root_line))]
fn root_line(alloc: Global, row: Row, words: &[Word]) -> Result<Step, ReadFault>
    ensures { Gives result (root_line row (map placed_word words.now)) }
{
    let [addr, octets] = words else {
        return Err(ReadFault::Text(count_fault(row, words)));
    };
    root_words(alloc, row, addr, octets)
}

/// A further line of a root, which is a fault whatever its words are.
#[tactic(auto, unfolding(crate::specs::Grammar::root_again))]
fn root_again(row: Row, first: &Word, words: &[Word]) -> TextFault
    ensures { result ≡ root_again row (placed_word first.now) (map placed_word words.now) }
{
    match words {
        [_, _] => fault_at(row.number, first.column, Reason::Again),
        _ => count_fault(row, words),
    }
}

/// Whether a peer has that other part.
fn is_other(role: Role, found: Option<Role>) -> bool
    ensures { result ≡ is_other role found }
{
    match (role, found) {
        (_, None) => false,
        (Role::Leaf, Some(Role::Leaf)) => false,
        (Role::From, Some(Role::From)) => false,
        _ => true,
    }
}

/// The address of a peer that does this, or `Again` where an earlier line says that it does something else.
#[tactic(auto, unfolding(crate::specs::Grammar::claimed))]
fn claimed(draft: &Draft, role: Role, row: Row, word: &Word) -> Result<[u8; 4], TextFault>
    ensures { result ≡ claimed draft.now role row (placed_word word.now) }
{
    let addr = address_at(row, word)?;
    if is_other(role, draft.role(addr)) {
        return Err(fault_at(row.number, word.column, Reason::Again));
    }
    Ok(addr)
}

/// What the line says of the peer of that address, or `Same` where it is the root's own.
fn distinct(
    root: &Root,
    addr: [u8; 4],
    row: Row,
    word: &Word,
    said: Said,
) -> Result<Step, TextFault>
    ensures { result ≡ distinct root.now addr row (placed_word word.now) said }
{
    if root.request().root == addr {
        return Err(fault_at(row.number, word.column, Reason::Same));
    }
    Ok(Step::Said(said))
}

#[tactic(auto, unfolding(crate::specs::Grammar::leaf_words))]
fn leaf_words(
    draft: &Draft,
    root: &Root,
    row: Row,
    addr: &Word,
    label: &Word,
) -> Result<Step, TextFault>
    ensures { result ≡ leaf_words draft.now root.now row (placed_word addr.now) (placed_word label.now) }
{
    let leaf = claimed(draft, Role::Leaf, row, addr)?;
    let label = or_fault(label_of(label.text), row, label, Reason::Number)?;
    distinct(root, leaf, row, addr, Said::Leaf { leaf, label })
}

/// The line of a leaf by the words after the first one.
#[tactic(auto, unfolding(crate::specs::Grammar::leaf_line))]
fn leaf_line(draft: &Draft, root: &Root, row: Row, words: &[Word]) -> Result<Step, TextFault>
    ensures { result ≡ leaf_line draft.now root.now row (map placed_word words.now) }
{
    let [addr, label] = words else {
        return Err(count_fault(row, words));
    };
    leaf_words(draft, root, row, addr, label)
}

#[tactic(auto, unfolding(crate::specs::Grammar::from_words))]
fn from_words(
    alloc: Global,
    draft: &Draft,
    root: &Root,
    row: Row,
    addr: &Word,
    octets: &Word,
) -> Result<Step, ReadFault>
    ensures { Gives result (from_words draft.now root.now row (placed_word addr.now) (placed_word octets.now)) }
{
    let peer = claimed(draft, Role::From, row, addr)?;
    let octets = payload_at(alloc, row, octets)?;
    let step = distinct(root, peer, row, addr, Said::From { peer, octets })?;
    Ok(step)
}

/// The line of a peer's octets by the words after the first one.
#[tactic(auto, unfolding(crate::specs::Grammar::from_line))]
fn from_line(
    alloc: Global,
    draft: &Draft,
    root: &Root,
    row: Row,
    words: &[Word],
) -> Result<Step, ReadFault>
    ensures { Gives result (from_line draft.now root.now row (map placed_word words.now)) }
{
    let [addr, octets] = words else {
        return Err(ReadFault::Text(count_fault(row, words)));
    };
    from_words(alloc, draft, root, row, addr, octets)
}

/// The first line, which is that of the root.
#[tactic(auto, unfolding(crate::specs::Grammar::first_line))]
fn first_line(alloc: Global, row: Row, first: &Word, rest: &[Word]) -> Result<Step, ReadFault>
    ensures { Gives result (first_line row (placed_word first.now) (map placed_word rest.now)) }
{
    if first.text == b"root".as_slice() {
        return root_line(alloc, row, rest);
    }
    Err(ReadFault::Text(fault_at(row.number, 1, Reason::Root)))
}

/// A line after that of the root.
#[tactic(auto, unfolding(crate::specs::Grammar::next_line))]
fn next_line(
    alloc: Global,
    draft: &Draft,
    root: &Root,
    row: Row,
    first: &Word,
    rest: &[Word],
) -> Result<Step, ReadFault>
    ensures { Gives result (next_line draft.now root.now row (placed_word first.now) (map placed_word rest.now)) }
{
    if first.text == b"leaf".as_slice() {
        Ok(leaf_line(draft, root, row, rest)?)
    } else if first.text == b"from".as_slice() {
        from_line(alloc, draft, root, row, rest)
    } else if first.text == b"root".as_slice() {
        Err(ReadFault::Text(root_again(row, first, rest)))
    } else {
        Err(ReadFault::Text(fault_at(row.number, first.column, Reason::Word)))
    }
}

/// What a line says by its words, given what the lines before it said.
#[tactic(auto, unfolding(crate::specs::Grammar::words_line))]
pub(crate) fn words_line(
    alloc: Global,
    draft: &Draft,
    row: Row,
    words: &[Word],
) -> Result<Step, ReadFault>
    ensures { Gives result (words_line draft.now row (map placed_word words.now)) }
{
    match words {
        [] => Ok(Step::Blank),
        [first, rest @ ..] => match draft.root() {
            None => first_line(alloc, row, first, rest),
            Some(root) => next_line(alloc, draft, root, row, first, rest),
        },
    }
}
