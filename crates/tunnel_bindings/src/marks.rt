//! A set of numbers whose least one is found without a look at each.
ghost use Rattle.std.specs.Prelude.{◌≡◌, ◌/◌, ◌<◌, ◌≤◌, ◌+◌, ◌*◌, length, replicate, IfOk, IfSome, IfNone};
ghost use Rattle.tunnel_bindings.specs.Marks.{IsFirstWord, NoWord, IsFirstMark, NoMark, marked, unmarked};

use mv_base::NoMemory;
use std::alloc::Global;
use std::marker::Model;

/// Marks the number, which is bit n % 64 of word n / 64.
fn mark(words: &mut [u64], number: usize)
    requires { number < 64 * length words.old }
    ensures { words.new ≡ marked words.old number }
{
    words[number / 64] |= 1 << (number % 64);
}

/// Takes the mark of the number away.
fn unmark(words: &mut [u64], number: usize)
    requires { number < 64 * length words.old }
    ensures { words.new ≡ unmarked words.old number }
{
    words[number / 64] &= !(1 << (number % 64));
}

/// The first word that has a mark.
fn first_word(words: &[u64]) -> Option<usize>
    ensures some { IfSome result (λ word. IsFirstWord words.now word) }
    ensures none { IfNone result (NoWord words.now) }
{
    words.iter().position(|word| *word != 0)
}

/// The least number that has a mark.
fn first_mark(words: &[u64]) -> Option<usize>
    requires { length words.now ≤ 1024 }
    ensures some { IfSome result (λ number. IsFirstMark words.now number) }
    ensures none { IfNone result (NoMark words.now) }
{
    let word = first_word(words)?;
    Some(64 * word + words[word].trailing_zeros() as usize)
}

/// A set of numbers, as marks in words, and a mark for each word that has one.
#[derive(Drop)]
pub(crate) struct Marks {
    words: Vec<u64>,
    used: Vec<u64>,
}

impl Model for Marks {
    ghost use Rattle.std.specs.Prelude.{ℕ, List};
    ghost use Rattle.tunnel_bindings.specs.Marks.{AreUsed};

    ghost Value = { List ℕ };

    ghost view = { λ m. m.words.items };

    ghost invariant = { λ m. AreUsed m.words.items m.used.items };
}

impl Marks {
    /// No number, with room for those below the count.
    pub(crate) fn of(alloc: Global, count: usize) -> Result<Marks, NoMemory>
        requires { count ≤ 65536 }
        ensures { IfOk result (λ marks. marks ≡ replicate ((count + 63) / 64) 0) }
    {
        let words = vec![in alloc; 0; count.div_ceil(64)]?;
        let used = vec![in alloc; 0; words.len().div_ceil(64)]?;
        Ok(Marks { words, used })
    }

    pub(crate) fn insert(&mut self, number: usize)
        requires { number < 64 * length self.old }
        ensures { self.new ≡ marked self.old number }
    {
        mark(&mut self.words, number);
        mark(&mut self.used, number / 64);
    }

    pub(crate) fn remove(&mut self, number: usize)
        requires { number < 64 * length self.old }
        ensures { self.new ≡ unmarked self.old number }
    {
        unmark(&mut self.words, number);
        if self.words[number / 64] == 0 {
            unmark(&mut self.used, number / 64);
        }
    }

    /// The least number.
    pub(crate) fn least(&self) -> Option<usize>
        ensures some { IfSome result (λ number. IsFirstMark self.now number) }
        ensures none { IfNone result (NoMark self.now) }
    {
        let word = first_mark(&self.used)?;
        Some(64 * word + self.words[word].trailing_zeros() as usize)
    }
}
