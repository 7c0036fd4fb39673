//! The edge: a source and a sink over any reader and writer of std. They tell nothing of content.
ghost use Rattle.std.specs.Prelude.{None};

use crate::{Sink, SinkFailed, Source, SourceFailed};
use std::io::{Read, Write};

/// A source over a reader, which counts its faults.
#[derive(Drop)]
pub struct StdSource<R> {
    reader: R,
    faults: u64,
}

impl<R> StdSource<R> {
    ghost use Rattle.std.specs.Prelude.{◌≡◌};
    ghost use Rattle.mv_io.specs.Standard.{reader_of, reader_faults};

    /// A source over the reader. No fault is counted yet.
    pub fn new(reader: R) -> Self
        ensures faults { reader_faults result ≡ 0 }
        ensures reader { reader_of result ≡ reader }
    {
        StdSource { reader, faults: 0 }
    }
}

impl<R: Read> Source for StdSource<R> {
    ghost use Rattle.std.specs.Prelude.{◌≡◌};
    ghost use Rattle.std.specs.Io.{ReadsAtMost};
    ghost use Rattle.std.specs.Io.KnownBytes.{ReadConsumes};
    ghost use Rattle.mv_io.specs.Causes.{HasCause, faults_after};
    ghost use Rattle.mv_io.specs.Standard.{reader_of, reader_faults};

    ghost left = { λ s. None };

    ghost faults = { reader_faults };

    /// Reads of the reader. The count rises by one exactly where that fails.
    fn read(&mut self, buf: &mut [u8]) -> Result<usize, SourceFailed>
        ensures bound { ReadsAtMost result buf.new }
        ensures octets { ReadConsumes None None result buf.new }
        ensures cause { HasCause (reader_faults self.old) (reader_faults self.new) result }
        ensures rises { reader_faults self.new ≡ faults_after result (reader_faults self.old) }
        ensures content { ReadConsumes (R.remaining (reader_of self.old)) (R.remaining (reader_of self.new)) result buf.new }
    {
        match self.reader.read(buf) {
            Ok(count) => Ok(count),
            Err(_) => {
                self.faults = self.faults.saturating_add(1);
                Err(SourceFailed)
            }
        }
    }
}

/// A sink over a writer, which counts its faults. A writer that takes nothing of a piece has failed.
#[derive(Drop)]
pub struct StdSink<W> {
    writer: W,
    faults: u64,
}

impl<W> StdSink<W> {
    ghost use Rattle.std.specs.Prelude.{◌≡◌};
    ghost use Rattle.mv_io.specs.Standard.{writer_of, writer_faults};

    /// A sink over the writer. No fault is counted yet.
    pub fn new(writer: W) -> Self
        ensures faults { writer_faults result ≡ 0 }
        ensures writer { writer_of result ≡ writer }
    {
        StdSink { writer, faults: 0 }
    }
}

impl<W: Write> Sink for StdSink<W> {
    ghost use Rattle.std.specs.Prelude.{◌≡◌, ◌<◌, length, IfOk};
    ghost use Rattle.std.specs.Io.{WritesAtMost};
    ghost use Rattle.std.specs.Io.KnownBytes.{WriteAppends};
    ghost use Rattle.mv_io.specs.Causes.{HasCause, faults_after};
    ghost use Rattle.mv_io.specs.Octets.{TakesPart};
    ghost use Rattle.mv_io.specs.Standard.{writer_of, writer_faults};

    ghost written = { λ s. None };

    ghost faults = { writer_faults };

    /// Writes to the writer. The count rises by one exactly where that fails or takes nothing of a piece.
    fn write(&mut self, piece: &[u8]) -> Result<usize, SinkFailed>
        ensures bound { WritesAtMost result piece.now }
        ensures taken { 0 < length piece.now → IfOk result (λ n. 0 < n) }
        ensures octets { TakesPart None None result piece.now }
        ensures cause { HasCause (writer_faults self.old) (writer_faults self.new) result }
        ensures rises { writer_faults self.new ≡ faults_after result (writer_faults self.old) }
        ensures content { WriteAppends (W.contents (writer_of self.old)) (W.contents (writer_of self.new)) result piece.now }
    {
        match self.writer.write(piece) {
            Ok(count) if count > 0 || piece.is_empty() => Ok(count),
            _ => {
                self.faults = self.faults.saturating_add(1);
                Err(SinkFailed)
            }
        }
    }
}
