//! Writes a made network.
ghost use Rattle.std.specs.Prelude.{◌≡◌, ◌⊎◌, [], OnOk, OnErr, IsErrOf, IfErr};
ghost use Rattle.mv_io.specs.Causes.{Rose};
ghost use Rattle.mv_io.specs.Octets.{Appended, AppendedPart};
ghost use Rattle.generator.specs.Made.{made};
ghost use Rattle.mvpn_tool.specs.declared.stop.Stop.TheVariants as stops;

use crate::stop::Stop;
use generator::put_made;
use mv_base::Bytes;
use mv_io::{Sink, write_all};
use std::alloc::Global;

/// Writes the scenario and script of the number. They are made whole before anything is written.
pub fn make<K: Sink>(alloc: Global, number: u32, sink: &mut K) -> Result<(), Stop>
    ensures ok { OnOk result (Appended (K.written sink.old) (K.written sink.new) (made number)) }
    ensures part { OnErr result (AppendedPart (K.written sink.old) (K.written sink.new) (made number)) }
    ensures failed { IsErrOf result stops.Sink → Rose (K.faults sink.old) (K.faults sink.new) }
    ensures nothing { IsErrOf result stops.Memory → Appended (K.written sink.old) (K.written sink.new) [] }
    ensures others { IfErr result (λ stop. (stop ≡ stops.Sink) ⊎ (stop ≡ stops.Memory)) }
{
    let mut text = Bytes::new(alloc);
    put_made(&mut text, number)?;
    write_all(sink, text.as_slice())?;
    Ok(())
}
