//! Commands that read a text and show what is in it.
ghost use Rattle.std.specs.Prelude.{◌≡◌, ◌≢◌, ℕ, Bool, List, Result, Some, Ok, true, false, OnOk, OnErr, IsErrOf, IfErr, IfOk};
ghost use Rattle.mv_io.specs.Causes.{Rose};
ghost use Rattle.mv_io.specs.Octets.{Appended, AppendedPart};
ghost use Rattle.line_words.specs.Answers.{Fails};
ghost use Rattle.line_words.specs.declared.fault.TextFault.{TextFault};
ghost use Rattle.mvpn_tool.specs.TellOutcome.{IsBounded, TellEnds, TellTakes, TellsText};
ghost use Rattle.mvpn_tool.specs.declared.stop.Stop.TheVariants as stops;

use crate::input::read_all;
use crate::replay::write_fault;
use crate::stop::Stop;
use line_words::ReadFault;
use mv_base::Bytes;
use mv_io::{Sink, Source, write_all};
use std::alloc::Global;

/// What is shown, and whether a fault is among it.
#[derive(Drop)]
pub struct Shown {
    pub text: Bytes,
    pub refused: bool,
}

/// A command that reads a text and shows what is in it.
pub trait Shows {
    /// What a text says.
    type Said;

    /// What a text says, or its first fault.
    ghost said: { List ℕ → Result Self.Said TextFault };

    /// What is shown of it, and whether a fault is among that.
    ghost Tells: { Self → Bool → Self.Said → List ℕ → Type 0 };

    /// Nothing of it has a fault.
    ghost IsSound: { Self → Self.Said → Type 0 };

    /// Something of it has a fault.
    ghost IsFaulty: { Self → Self.Said → Type 0 };

    /// What is shown of a text, or its first fault.
    fn show(&self, alloc: Global, text: &[u8]) -> Result<Shown, ReadFault>
        ensures shown { IfOk result (λ shown. TellsText said (Tells self.now) shown.refused text.now shown.text) }
        ensures fault { IfErr result (λ stop. Fails stop (said text.now)) }
        ensures sound { (what : Self.Said) → said text.now ≡ Ok what → IsSound self.now what → IfOk result (λ shown. shown.refused ≡ false) }
        ensures faulty { (what : Self.Said) → said text.now ≡ Ok what → IsFaulty self.now what → IfOk result (λ shown. shown.refused ≡ true) };
}

/// Writes what is shown, and answers whether a fault is among it.
fn write_shown<K: Sink>(shown: &Shown, sink: &mut K) -> Result<bool, Stop>
    ensures ok { OnOk result (Appended (K.written sink.old) (K.written sink.new) shown.now.text) }
    ensures part { OnErr result (AppendedPart (K.written sink.old) (K.written sink.new) shown.now.text) }
    ensures answer { IfOk result (λ refused. refused ≡ shown.now.refused) }
    ensures failed { IsErrOf result stops.Sink → Rose (K.faults sink.old) (K.faults sink.new) }
    ensures others { IfErr result (λ stop. stop ≡ stops.Sink) }
{
    write_all(sink, shown.text.as_slice())?;
    Ok(shown.refused)
}

/// Reads all of the source, and writes what the command shows of it. Answers whether a fault is among that.
pub fn show<T: Shows, S: Source, K: Sink>(
    alloc: Global,
    command: &T,
    source: &mut S,
    sink: &mut K,
) -> Result<bool, Stop>
    requires { IsBounded T.said }
    ensures source_failed { IsErrOf result stops.Source → Rose (S.faults source.old) (S.faults source.new) }
    ensures sink_failed { IsErrOf result stops.Sink → Rose (K.faults sink.old) (K.faults sink.new) }
    ensures ends { TellEnds T.said (T.Tells command.now) (S.left source.old) result (K.written sink.old) (K.written sink.new) }
    ensures taken { TellTakes result (S.left source.old) (S.left source.new) }
    ensures sound { (input : List ℕ) (what : T.Said) →
        S.left source.old ≡ Some input → T.said input ≡ Ok what → T.IsSound command.now what → result ≢ Ok true }
    ensures faulty { (input : List ℕ) (what : T.Said) →
        S.left source.old ≡ Some input → T.said input ≡ Ok what → T.IsFaulty command.now what → result ≢ Ok false }
{
    let input = read_all(alloc, source)?;
    match command.show(alloc, &input) {
        Err(ReadFault::NoMemory) => Err(Stop::Memory),
        Err(ReadFault::Text(fault)) => Err(write_fault(alloc, fault, sink)),
        Ok(shown) => write_shown(&shown, sink),
    }
}
