//! Judges the report of a source.
ghost use Rattle.std.specs.Prelude.{◌≡◌, ◌≢◌, ◌≤◌, ◌⊎◌, [], OnOk, OnErr, IfOk, IfErr, IsErrOf};
ghost use Rattle.mv_io.specs.Causes.{Rose};
ghost use Rattle.mv_io.specs.Octets.{Appended, AppendedPart};
ghost use Rattle.scenario_defs.specs.Rules.{ScriptRules};
ghost use Rattle.mvpn_audit.specs.Marking.{ComesAfter};
ghost use Rattle.mvpn_tool.specs.AuditOutcome.{AuditEnds, AuditTakes, VerdictEnds, offence_word, verdict_text};
ghost use Rattle.mvpn_tool.specs.declared.stop.Stop.TheVariants as stops;

use crate::input::read_all;
use crate::replay::write_fault;
use crate::stop::Stop;
use audit_defs::{Offence, Verdict};
use audit_text::{AuditText, read_audit};
use line_words::ReadFault;
use mv_base::{Bytes, NoMemory};
use mv_io::{Sink, Source, write_all};
use mvpn_audit::audit;
use report_text::put_number;
use std::alloc::Global;

/// The word of an offence.
fn offence_word(reason: Offence) -> &'static [u8]
    ensures { result.now ≡ offence_word reason }
{
    match reason {
        Offence::Markers => b"markers",
        Offence::Halt => b"halt",
        Offence::Number => b"number",
        Offence::Bytes => b"bytes",
        Offence::Admit => b"admit",
        Offence::Again => b"again",
        Offence::Asked => b"asked",
        Offence::Missing => b"missing",
    }
}

fn put_offence(text: &mut Bytes, line: u32, reason: Offence) -> Result<(), NoMemory>
    requires { text.old ≡ [] }
    ensures { OnOk result (text.new ≡ verdict_text (Verdict.No line reason)) }
{
    text.extend(b"no ")?;
    put_number(text, u64::from(line))?;
    text.extend(b" ")?;
    text.extend(offence_word(reason))?;
    text.extend(b"\n")
}

/// The line that says a verdict.
fn text_of_verdict(alloc: Global, verdict: Verdict) -> Result<Bytes, NoMemory>
    ensures { IfOk result (λ text. text ≡ verdict_text verdict) }
{
    let mut text = Bytes::new(alloc);
    match verdict {
        Verdict::Yes => text.extend(b"yes\n")?,
        Verdict::No { line, reason } => put_offence(&mut text, line, reason)?,
    }
    Ok(text)
}

/// Judges what was read, and writes the line of the verdict.
fn write_verdict<K: Sink>(alloc: Global, found: &AuditText, sink: &mut K) -> Result<Verdict, Stop>
    requires rules { ScriptRules found.now.script }
    requires after { ComesAfter found.now.script found.now.report }
    ensures ends { VerdictEnds found.now.script found.now.report result (K.written sink.old) (K.written sink.new) }
    ensures later { K.faults sink.old ≤ K.faults sink.new }
    ensures failed { IsErrOf result stops.Sink → Rose (K.faults sink.old) (K.faults sink.new) }
    ensures others { IfErr result (λ stop. (stop ≡ stops.Sink) ⊎ (stop ≡ stops.Memory)) }
{
    let verdict = audit(alloc, &found.script, &found.report)?;
    let text = text_of_verdict(alloc, verdict)?;
    write_all(sink, text.as_slice())?;
    Ok(verdict)
}

/// Reads all of the source, judges the report that it has after its script, and writes the line of the verdict.
pub fn judge<S: Source, K: Sink>(
    alloc: Global,
    source: &mut S,
    sink: &mut K,
) -> Result<Verdict, Stop>
    ensures ends { AuditEnds (S.left source.old) result (K.written sink.old) (K.written sink.new) }
    ensures taken { AuditTakes result (S.left source.old) (S.left source.new) }
    ensures source_later { S.faults source.old ≤ S.faults source.new }
    ensures source_failed { IsErrOf result stops.Source → Rose (S.faults source.old) (S.faults source.new) }
    ensures sink_later { K.faults sink.old ≤ K.faults sink.new }
    ensures sink_failed { IsErrOf result stops.Sink → Rose (K.faults sink.old) (K.faults sink.new) }
{
    let input = read_all(alloc, source)?;
    match read_audit(alloc, &input) {
        Err(ReadFault::NoMemory) => Err(Stop::Memory),
        Err(ReadFault::Text(fault)) => Err(write_fault(alloc, fault, sink)),
        Ok(found) => write_verdict(alloc, &found, sink),
    }
}
