//! Words that write a list with commas.
ghost use Rattle.std.specs.Prelude.{◌≡◌, ◌==◌, ◌∷◌, ℕ, Bool, List, Option, IfOk};
ghost use Rattle.std.specs.List.{list_any, slice_split};
ghost use Rattle.mv_base.specs.route_targets.Targets.{same_target};
ghost use Rattle.scenario_defs.specs.Prefixes.{same_prefix};
ghost use Rattle.line_words.specs.Answers.{Gives};
ghost use Rattle.line_words.specs.Words.{placed_word};
ghost use Rattle.line_words.specs.Forms.{target_of, prefix_of, list_of, targets_at, prefixes_at};
ghost use Rattle.line_words.specs.Parts.{parts_after};

use crate::fault::fault_at;
use crate::forms::{or_fault, prefix_of, target_of};
use crate::{ReadFault, Reason, Row, Word};
use mv_base::route_targets::{Target, Targets};
use mv_base::{NoMemory, Prefix, Seq, cut_at};
use scenario_defs::{Prefixes, same_prefix};
use std::alloc::Global;

/// The most parts of a list.
const LIST_LIMIT: usize = 8;

/// What a part of a list writes.
trait Listed: Drop {
    /// What a text writes.
    ghost read_of: { List ℕ → Option Self };

    /// Whether both are the same.
    ghost alike: { Self → Self → Bool };

    fn read(text: &[u8]) -> Option<Self>
        ensures { result ≡ Self.read_of text.now };

    fn same(&self, other: &Self) -> bool
        ensures { result ≡ Self.alike self.now other.now };
}

impl Listed for Target {
    ghost read_of = { target_of };

    ghost alike = { same_target };

    fn read(text: &[u8]) -> Option<Target> {
        target_of(text)
    }

    fn same(&self, other: &Target) -> bool {
        Target::same(*self, *other)
    }
}

impl Listed for Prefix {
    ghost read_of = { prefix_of };

    ghost alike = { same_prefix };

    fn read(text: &[u8]) -> Option<Prefix> {
        prefix_of(text)
    }

    fn same(&self, other: &Prefix) -> bool {
        same_prefix(*self, *other)
    }
}

fn is_among<T: Listed>(items: &[T], item: &T) -> bool
    ensures { result ≡ list_any (λ own. T.alike own item.now) items.now }
{
    items.iter().any(|own| own.same(item))
}

/// The text before the first comma, and the text after it, where there is one.
fn cut_comma(text: &[u8]) -> (&[u8], Option<&[u8]>)
    ensures { slice_split (λ b. b == 44) text.now ≡ result.0.now ∷ parts_after result.1 }
{
    match cut_at(text, b',') {
        Some((part, rest)) => (part, Some(rest)),
        None => (text, None),
    }
}

/// The list that a text writes, where it writes one.
fn read_list<T: Listed>(alloc: Global, text: &[u8]) -> Result<Option<Seq<T>>, NoMemory>
    ensures { IfOk result (λ found. found ≡ list_of T.alike T.read_of text.now) }
{
    let mut found = Seq::new(alloc);
    let mut rest = text;
    'parts: for _ in 0..LIST_LIMIT {
        let (part, thereafter) = cut_comma(rest);
        let item = match T::read(part) {
            Some(item) => item,
            None => return Ok(None),
        };
        if is_among(found.as_slice(), &item) {
            return Ok(None);
        }
        found.push(item)?;
        rest = match thereafter {
            Some(thereafter) => thereafter,
            None => return Ok(Some(found)),
        };
    }
    Ok(None)
}

/// The 1 to 8 distinct Route Targets that a word writes with commas, or `Targets`; or want of memory.
#[tactic(auto, unfolding(crate::specs::Forms::targets_at))]
pub fn targets_at(alloc: Global, row: Row, word: &Word) -> Result<Targets, ReadFault>
    ensures { Gives result (targets_at row (placed_word word.now)) }
{
    let found: Option<Seq<Target>> = read_list(alloc, word.text)?;
    let Some(found) = found else {
        return Err(ReadFault::Text(fault_at(row.number, word.column, Reason::Targets)));
    };
    match Targets::of(found.as_slice()) {
        Ok(targets) => Ok(targets),
        Err(_) => unreachable!(),
    }
}

/// The 1 to 8 distinct prefixes that a word writes with commas, each `ADDR/N` with no bit set after the first N, or
/// `Prefix`; or want of memory.
#[tactic(auto, unfolding(crate::specs::Forms::prefixes_at))]
pub fn prefixes_at(alloc: Global, row: Row, word: &Word) -> Result<Prefixes, ReadFault>
    ensures { Gives result (prefixes_at row (placed_word word.now)) }
{
    let found: Option<Seq<Prefix>> = read_list(alloc, word.text)?;
    Ok(or_fault(found, row, word, Reason::Prefix)?)
}
