//! What octets are written to.
ghost use Rattle.std.specs.Prelude.{List, ℕ, Option, ◌<◌, length, IfOk, OnOk, OnErr};
ghost use Rattle.std.specs.Io.{WritesAtMost};
ghost use Rattle.mv_io.specs.Causes.{HasCause};
ghost use Rattle.mv_io.specs.Octets.{Appended, AppendedPart, TakesPart};

/// The sink failed; its count of faults rose.
#[derive(Clone, Copy, Debug, PartialEq, Eq)]
pub struct SinkFailed;

/// What octets are written to.
pub trait Sink {
    /// What was written, where the sink tells that. It may stop telling, and never begins to.
    ghost written: { Self → Option (List ℕ) };

    /// How often it has failed. The count never falls, and stays at 2 ^ 64 - 1 once it is there.
    ghost faults: { Self → ℕ };

    /// Appends a prefix of the piece, and answers its length. It takes something of a piece that is not empty, or
    /// fails.
    fn write(&mut self, piece: &[u8]) -> Result<usize, SinkFailed>
        ensures bound { WritesAtMost result piece.now }
        ensures taken { 0 < length piece.now → IfOk result (λ n. 0 < n) }
        ensures octets { TakesPart (written self.old) (written self.new) result piece.now }
        ensures cause { HasCause (faults self.old) (faults self.new) result };
}

/// Writes the whole piece, or a prefix of it where the sink fails.
pub fn write_all<K: Sink>(sink: &mut K, piece: &[u8]) -> Result<(), SinkFailed>
    ensures whole { OnOk result (Appended (K.written sink.old) (K.written sink.new) piece.now) }
    ensures part { OnErr result (AppendedPart (K.written sink.old) (K.written sink.new) piece.now) }
    ensures cause { HasCause (K.faults sink.old) (K.faults sink.new) result }
{
    let mut done = 0;
    while done < piece.len() {
        done += sink.write(&piece[done..])?;
    }
    Ok(())
}
