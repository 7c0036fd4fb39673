//! Laws of the texts.
ghost use Rattle.std.specs.Prelude.{◌≡◌, ◌%◌, ℕ};
ghost use Rattle.generator.specs.Made.{made};

/// There are 32 texts: that of a number depends only on the number modulo 32.
pub fn texts_repeat()
    ensures { (number other : ℕ) → number % 32 ≡ other % 32 → made number ≡ made other }
{}
