//! Messages that have lines, and faults that have a word.
ghost use Rattle.std.specs.Prelude.{◌≡◌, ◌++◌, List, ℕ, OnOk};

use mv_base::{Bytes, NoMemory};

/// A message that has lines.
pub trait Lined {
    /// Its lines.
    ghost lines: { Self → List ℕ };

    /// What it has to meet, so that it can be told.
    ghost IsTellable: { Self → Type 0 };

    /// Appends its lines.
    fn put_lines(&self, out: &mut Bytes) -> Result<(), NoMemory>
        requires { Self.IsTellable self.now }
        ensures { OnOk result (out.new ≡ out.old ++ Self.lines self.now) };
}

/// A fault that has a word.
pub trait Worded {
    /// Its word.
    ghost word: { Self → List ℕ };

    /// Appends its word.
    fn put_word(&self, out: &mut Bytes) -> Result<(), NoMemory>
        ensures { OnOk result (out.new ≡ out.old ++ Self.word self.now) };
}
