//! What octets are read from.
ghost use Rattle.std.specs.Prelude.{List, ℕ, Option};
ghost use Rattle.std.specs.Io.{ReadsAtMost};
ghost use Rattle.std.specs.Io.KnownBytes.{ReadConsumes};
ghost use Rattle.mv_io.specs.Causes.{HasCause};

/// The source failed; its count of faults rose.
#[derive(Clone, Copy, Debug, PartialEq, Eq)]
pub struct SourceFailed;

/// What octets are read from.
pub trait Source {
    /// What is left to read, where the source tells that.
    ghost left: { Self → Option (List ℕ) };

    /// How often it has failed. The count never falls, and stays at 2 ^ 64 - 1 once it is there.
    ghost faults: { Self → ℕ };

    /// Puts a prefix of what is left into the buffer, and answers its length. An answer of 0 for a buffer that is not
    /// empty is the end: where the source tells what is left, it comes exactly where nothing is left.
    fn read(&mut self, buf: &mut [u8]) -> Result<usize, SourceFailed>
        ensures bound { ReadsAtMost result buf.new }
        ensures octets { ReadConsumes (left self.old) (left self.new) result buf.new }
        ensures cause { HasCause (faults self.old) (faults self.new) result };
}
