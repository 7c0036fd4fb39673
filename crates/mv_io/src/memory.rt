//! A source and a sink in memory that fail at chosen calls.
ghost use Rattle.std.specs.Prelude.{◌≡◌, ◌≤◌, ◌<◌, ◌↔◌, [], Some, length, IfOk, IfSome, IsErr, Contains, vec_capacity, vec_len};

use crate::calls::Calls;
use crate::held::{give, keep};
use crate::{CallNumbers, Sink, SinkFailed, Source, SourceFailed};
use mv_base::{Bytes, NoMemory};
use std::alloc::Global;

/// A source in memory that fails at chosen calls. It tells what is left.
#[derive(Drop)]
pub struct MemSource {
    octets: Bytes,
    at: usize,
    calls: Calls,
    ghost within: { at ≤ length octets },
}

impl MemSource {
    ghost use Rattle.mv_io.specs.Memory.{source_left, source_calls, source_failing, source_faults};

    /// The source of these octets, whose calls of these numbers fail. It takes no memory.
    pub fn of(bytes: Bytes, failing: CallNumbers) -> Self
        ensures left { source_left result ≡ Some bytes }
        ensures calls { source_calls result ≡ 0 }
        ensures failing { source_failing result ≡ failing }
        ensures faults { source_faults result ≡ 0 }
    {
        MemSource {
            octets: bytes,
            at: 0,
            calls: Calls::of(failing),
        }
    }
}

impl Source for MemSource {
    ghost use Rattle.std.specs.Io.{ReadsAtMost};
    ghost use Rattle.std.specs.Io.KnownBytes.{ReadConsumes};
    ghost use Rattle.mv_io.specs.Causes.{HasCause, next, faults_after};
    ghost use Rattle.mv_io.specs.Memory.{source_left, source_calls, source_failing, source_faults};

    ghost left = { source_left };

    ghost faults = { source_faults };

    /// Reads. It fails exactly where the call's number is one of those that fail, and the count rises exactly there.
    fn read(&mut self, buf: &mut [u8]) -> Result<usize, SourceFailed>
        ensures bound { ReadsAtMost result buf.new }
        ensures octets { ReadConsumes (source_left self.old) (source_left self.new) result buf.new }
        ensures cause { HasCause (source_faults self.old) (source_faults self.new) result }
        ensures chosen { IsErr result ↔ Contains (source_failing self.old) (next (source_calls self.old)) }
        ensures rises { source_faults self.new ≡ faults_after result (source_faults self.old) }
        ensures calls { source_calls self.new ≡ next (source_calls self.old) }
        ensures same { source_failing self.new ≡ source_failing self.old }
    {
        if self.calls.fails() {
            return Err(SourceFailed);
        }
        let count = give(self.octets.as_slice(), self.at, buf);
        self.at += count;
        Ok(count)
    }
}

/// A sink in memory that fails at chosen calls. It tells what was written while that fits into its room, and past it
/// takes what is written and tells nothing more.
#[derive(Drop)]
pub struct MemSink {
    held: Vec<u8>,
    room: usize,
    whole: bool,
    calls: Calls,
    ghost holds: { vec_len held ≤ room },
    ghost made: { room ≤ vec_capacity held },
}

impl MemSink {
    ghost use Rattle.mv_io.specs.Memory.{sink_written, sink_room, sink_calls, sink_failing, sink_faults};

    /// An empty sink with room for that many octets, whose calls of these numbers fail. It takes all its memory now.
    pub fn of(alloc: Global, room: usize, failing: CallNumbers) -> Result<Self, NoMemory>
        ensures empty { IfOk result (λ s. sink_written s ≡ Some []) }
        ensures room { IfOk result (λ s. sink_room s ≡ room) }
        ensures calls { IfOk result (λ s. sink_calls s ≡ 0) }
        ensures failing { IfOk result (λ s. sink_failing s ≡ failing) }
        ensures faults { IfOk result (λ s. sink_faults s ≡ 0) }
    {
        Ok(MemSink {
            held: Vec::with_capacity(alloc, room)?,
            room,
            whole: true,
            calls: Calls::of(failing),
        })
    }

    /// The octets that are held: all that was written, where the sink tells that.
    pub fn bytes(&self) -> &[u8]
        ensures { IfSome (sink_written self.now) (λ octets. result.now ≡ octets) }
    {
        &self.held
    }
}

impl Sink for MemSink {
    ghost use Rattle.std.specs.Prelude.{OnErr};
    ghost use Rattle.std.specs.Io.{WritesAtMost};
    ghost use Rattle.mv_io.specs.Causes.{HasCause, next, faults_after};
    ghost use Rattle.mv_io.specs.Kinds.{KeepsTelling};
    ghost use Rattle.mv_io.specs.Octets.{TakesPart};
    ghost use Rattle.mv_io.specs.Memory.{sink_written, sink_room, sink_calls, sink_failing, sink_faults};

    ghost written = { sink_written };

    ghost faults = { sink_faults };

    /// Takes the whole piece. It fails exactly where the call's number is one of those that fail, and the count rises
    /// exactly there.
    fn write(&mut self, piece: &[u8]) -> Result<usize, SinkFailed>
        ensures bound { WritesAtMost result piece.now }
        ensures taken { 0 < length piece.now → IfOk result (λ n. 0 < n) }
        ensures octets { TakesPart (sink_written self.old) (sink_written self.new) result piece.now }
        ensures cause { HasCause (sink_faults self.old) (sink_faults self.new) result }
        ensures whole { IfOk result (λ n. n ≡ length piece.now) }
        ensures telling { KeepsTelling (sink_written self.old) (sink_written self.new) (sink_room self.old) piece.now }
        ensures unwritten { OnErr result (sink_written self.new ≡ sink_written self.old) }
        ensures chosen { IsErr result ↔ Contains (sink_failing self.old) (next (sink_calls self.old)) }
        ensures rises { sink_faults self.new ≡ faults_after result (sink_faults self.old) }
        ensures calls { sink_calls self.new ≡ next (sink_calls self.old) }
        ensures same { sink_failing self.new ≡ sink_failing self.old }
        ensures room { sink_room self.new ≡ sink_room self.old }
    {
        if self.calls.fails() {
            return Err(SinkFailed);
        }
        if self.whole && !keep(&mut self.held, self.room, piece) {
            self.whole = false;
        }
        Ok(piece.len())
    }
}
