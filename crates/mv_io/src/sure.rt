//! A source and a sink in memory that never fail.
ghost use Rattle.std.specs.Prelude.{◌≡◌, ◌≤◌, ◌+◌, ◌<◌, [], Some, Ok, length, IfOk, IfSome, vec_capacity, vec_len};
ghost use Rattle.std.specs.Io.{ReadsAtMost};
ghost use Rattle.std.specs.Io.KnownBytes.{ReadConsumes};

use crate::held::{give, keep};
use crate::{Sink, SinkFailed, Source, SourceFailed};
use mv_base::{Bytes, NoMemory};
use std::alloc::Global;

/// A source in memory that never fails. It tells what is left.
#[derive(Drop)]
pub struct SureSource {
    octets: Bytes,
    at: usize,
    ghost within: { at ≤ length octets },
}

impl SureSource {
    ghost use Rattle.mv_io.specs.Sure.{sure_left};

    /// The source of these octets. It takes no memory.
    pub fn of(bytes: Bytes) -> Self
        ensures { sure_left result ≡ Some bytes }
    {
        SureSource {
            octets: bytes,
            at: 0,
        }
    }
}

impl Source for SureSource {
    ghost use Rattle.std.specs.Prelude.{IsOk};
    ghost use Rattle.mv_io.specs.Causes.{HasCause};
    ghost use Rattle.mv_io.specs.Sure.{sure_left};

    ghost left = { sure_left };

    ghost faults = { λ s. 0 };

    /// Reads, and never fails.
    fn read(&mut self, buf: &mut [u8]) -> Result<usize, SourceFailed>
        ensures bound { ReadsAtMost result buf.new }
        ensures octets { ReadConsumes (sure_left self.old) (sure_left self.new) result buf.new }
        ensures cause { HasCause 0 0 result }
        ensures succeeds { IsOk result }
    {
        let count = give(self.octets.as_slice(), self.at, buf);
        self.at += count;
        Ok(count)
    }
}

/// A sink in memory that never fails. It tells what was written while that fits into its room, and past it takes what
/// is written and tells nothing more.
#[derive(Drop)]
pub struct SureSink {
    held: Vec<u8>,
    room: usize,
    whole: bool,
    ghost holds: { vec_len held ≤ room },
    ghost made: { room ≤ vec_capacity held },
}

impl SureSink {
    ghost use Rattle.mv_io.specs.Sure.{sure_written, sure_room};

    /// An empty sink with room for that many octets. It takes all its memory now.
    pub fn of(alloc: Global, room: usize) -> Result<Self, NoMemory>
        ensures empty { IfOk result (λ s. sure_written s ≡ Some []) }
        ensures room { IfOk result (λ s. sure_room s ≡ room) }
    {
        Ok(SureSink {
            held: Vec::with_capacity(alloc, room)?,
            room,
            whole: true,
        })
    }

    /// The octets that are held: all that was written, where the sink tells that.
    pub fn bytes(&self) -> &[u8]
        ensures { IfSome (sure_written self.now) (λ octets. result.now ≡ octets) }
    {
        &self.held
    }
}

impl Sink for SureSink {
    ghost use Rattle.std.specs.Io.{WritesAtMost};
    ghost use Rattle.mv_io.specs.Causes.{HasCause};
    ghost use Rattle.mv_io.specs.Kinds.{KeepsTelling};
    ghost use Rattle.mv_io.specs.Octets.{TakesPart};
    ghost use Rattle.mv_io.specs.Sure.{sure_written, sure_room};

    ghost written = { sure_written };

    ghost faults = { λ s. 0 };

    /// Takes the whole piece, and never fails.
    fn write(&mut self, piece: &[u8]) -> Result<usize, SinkFailed>
        ensures bound { WritesAtMost result piece.now }
        ensures taken { 0 < length piece.now → IfOk result (λ n. 0 < n) }
        ensures octets { TakesPart (sure_written self.old) (sure_written self.new) result piece.now }
        ensures cause { HasCause 0 0 result }
        ensures succeeds { result ≡ Ok (length piece.now) }
        ensures telling { KeepsTelling (sure_written self.old) (sure_written self.new) (sure_room self.old) piece.now }
        ensures room { sure_room self.new ≡ sure_room self.old }
    {
        if self.whole && !keep(&mut self.held, self.room, piece) {
            self.whole = false;
        }
        Ok(piece.len())
    }
}
