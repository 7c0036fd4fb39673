//! Replays the script of a source, and writes its report, or the file of its hops, into a sink.
ghost use Rattle.std.specs.Prelude.{All, ◌≡◌, ◌≢◌, ◌≤◌, ◌⊎◌, [], ◌∷◌, ◌++◌, OnOk, OnErr, IsErrOf, IfErr};
ghost use Rattle.mv_io.specs.Causes.{Rose};
ghost use Rattle.mv_io.specs.Octets.{Appended, AppendedPart};
ghost use Rattle.scenario_defs.specs.Rules.{ScriptRules};
ghost use Rattle.scenario_defs.specs.Text.{IsLineOf};
ghost use Rattle.scenario_defs.specs.declared.report.ReportLine.TheVariants as told;
ghost use Rattle.line_words.specs.FaultText.{fault_text};
ghost use Rattle.mvpn_tool.specs.Outcome.{EventEnds, Place, Replays, ReplayEnds, Takes};
ghost use Rattle.mvpn_tool.specs.Output.{MayWrite, front_of, halt_output, kept_after, output_after};
ghost use Rattle.mvpn_tool.specs.declared.stop.Stop.TheVariants as stops;

use crate::command::Output;
use crate::input::read_all;
use crate::laws::{hops_are_known, lines_are_known, runs_are_known, script_has_octets};
use crate::report::{have_type_bounds, put_event, put_front, put_halt, text_of_fault};
use crate::sent_hops::SoFar;
use crate::stop::Stop;
use hop_laws::of_run_laws::of_edge_routes::edge_home::copied_scenario;
use mv_base::{Bytes, NodeId, Seq};
use mv_io::{Sink, Source, write_all};
use network_events::{Halt, World};
use scenario_defs::{Lines, ReportLine, Scenario, Script, Timed};
use scenario_text::{ReadFault, TextFault, read};
use std::alloc::Global;

/// Writes what comes first in the output of any report. The text is room for it.
fn write_front<K: Sink>(output: Output, text: &mut Bytes, sink: &mut K) -> Result<(), Stop>
    ensures ok { OnOk result (Appended (K.written sink.old) (K.written sink.new) (front_of output)) }
    ensures err { OnErr result (AppendedPart (K.written sink.old) (K.written sink.new) (front_of output)) }
    ensures later { K.faults sink.old ≤ K.faults sink.new }
    ensures failed { IsErrOf result stops.Sink → Rose (K.faults sink.old) (K.faults sink.new) }
    ensures others { IfErr result (λ stop. (stop ≡ stops.Sink) ⊎ (stop ≡ stops.Memory)) }
{
    text.clear();
    put_front(output, text)?;
    write_all(sink, text.as_slice())?;
    Ok(())
}

/// Writes what is to be written of an event with these lines, and keeps it. The text is room for that.
fn write_event<K: Sink>(
    output: Output,
    scenario: &Scenario,
    timed: &Timed,
    lines: &Lines,
    so_far: &mut SoFar,
    text: &mut Bytes,
    sink: &mut K,
) -> Result<(), Stop>
    requires names { All (IsLineOf scenario.now) lines.now }
    requires hops { MayWrite output timed.now so_far.old lines.now }
    ensures ok { OnOk result (Appended (K.written sink.old) (K.written sink.new)
        (output_after output scenario.now timed.now so_far.old lines.now)) }
    ensures kept { OnOk result (so_far.new ≡ kept_after output timed.now so_far.old lines.now) }
    ensures err { OnErr result (AppendedPart (K.written sink.old) (K.written sink.new)
        (output_after output scenario.now timed.now so_far.old lines.now)) }
    ensures later { K.faults sink.old ≤ K.faults sink.new }
    ensures failed { IsErrOf result stops.Sink → Rose (K.faults sink.old) (K.faults sink.new) }
    ensures others { IfErr result (λ stop. (stop ≡ stops.Sink) ⊎ (stop ≡ stops.Memory)) }
{
    text.clear();
    put_event(output, scenario, timed, lines.as_slice(), so_far, text)?;
    write_all(sink, text.as_slice())?;
    Ok(())
}

/// Writes what is to be written of an event that runs out of labels at that node. Answers why the replay ended.
fn write_halt<K: Sink>(
    output: Output,
    scenario: &Scenario,
    line: u32,
    node: NodeId,
    lines: &mut Lines,
    text: &mut Bytes,
    sink: &mut K,
) -> Stop
    requires { All (IsLineOf scenario.now) (lines.old ++ told.Halt line node ∷ []) }
    ensures label { result ≡ stops.Label →
        Appended (K.written sink.old) (K.written sink.new) (halt_output output scenario.now (lines.old ++ told.Halt line node ∷ [])) }
    ensures part { AppendedPart (K.written sink.old) (K.written sink.new)
        (halt_output output scenario.now (lines.old ++ told.Halt line node ∷ [])) }
    ensures later { K.faults sink.old ≤ K.faults sink.new }
    ensures failed { result ≡ stops.Sink → Rose (K.faults sink.old) (K.faults sink.new) }
    ensures others { (result ≡ stops.Label) ⊎ (result ≡ stops.Sink) ⊎ (result ≡ stops.Memory) }
{
    if lines.push(ReportLine::Halt { line, node }).is_err() {
        return Stop::Memory;
    }
    text.clear();
    if put_halt(output, scenario, lines.as_slice(), text).is_err() {
        return Stop::Memory;
    }
    match write_all(sink, text.as_slice()) {
        Ok(()) => Stop::Label,
        Err(_) => Stop::Sink,
    }
}

/// One event: a step of the world, and what is to be written of it. The text is room for that.
fn replay_event<K: Sink>(
    output: Output,
    scenario: &Scenario,
    world: &mut World,
    timed: &Timed,
    so_far: &mut SoFar,
    text: &mut Bytes,
    sink: &mut K,
) -> Result<(), Stop>
    requires { Place output scenario.now timed.now world.old so_far.old }
    ensures ends { EventEnds output scenario.now timed.now world.old world.new so_far.old so_far.new
        (K.written sink.old) (K.written sink.new) result }
    ensures later { K.faults sink.old ≤ K.faults sink.new }
    ensures failed { IsErrOf result stops.Sink → Rose (K.faults sink.old) (K.faults sink.new) }
    ensures others { IfErr result (λ stop. (stop ≡ stops.Label) ⊎ (stop ≡ stops.Sink) ⊎ (stop ≡ stops.Memory)) }
{
    lines_are_known();
    hops_are_known();
    let mut lines = Lines::new(text.alloc());
    match world.step(timed.line, &timed.event, &mut lines) {
        Ok(()) => {
            have_type_bounds(lines.as_slice());
            write_event(output, scenario, timed, &lines, so_far, text, sink)
        }
        Err(Halt::NoMemory) => Err(Stop::Memory),
        Err(Halt::NoLabel(node)) => {
            Err(write_halt(output, scenario, timed.line, node, &mut lines, text, sink))
        }
    }
}

/// All events of the script, or those up to one that runs out of labels.
fn replay_script<K: Sink>(
    alloc: Global,
    output: Output,
    script: Script,
    sink: &mut K,
) -> Result<World, Stop>
    requires { ScriptRules script }
    ensures replays { Replays output script result (K.written sink.old) (K.written sink.new) }
    ensures later { K.faults sink.old ≤ K.faults sink.new }
    ensures failed { IsErrOf result stops.Sink → Rose (K.faults sink.old) (K.faults sink.new) }
    ensures others { IfErr result (λ stop. (stop ≡ stops.Label) ⊎ (stop ≡ stops.Sink) ⊎ (stop ≡ stops.Memory)) }
{
    runs_are_known();
    script_has_octets(&script);
    let Script {
        scenario,
        events,
        end: _,
    } = script;
    let mut text = Bytes::new(alloc);
    write_front(output, &mut text, sink)?;
    let names = copied_scenario(alloc, &scenario)?;
    let mut world = World::of(alloc, scenario)?;
    let mut so_far = SoFar {
        clock: 0,
        sent: Seq::new(alloc),
    };
    let timeds = events.as_slice();
    for timed in timeds {
        match replay_event(
            output,
            &names,
            &mut world,
            timed,
            &mut so_far,
            &mut text,
            sink,
        ) {
            Ok(()) => {}
            Err(stop) => {
                world.close();
                return Err(stop);
            }
        }
    }
    Ok(world)
}

/// Writes the line that shows the fault, and answers why the replay ended.
pub fn write_fault<K: Sink>(alloc: Global, fault: TextFault, sink: &mut K) -> Stop
    ensures text { result ≡ stops.Text → Appended (K.written sink.old) (K.written sink.new) (fault_text fault) }
    ensures part { (result ≡ stops.Text) ⊎ AppendedPart (K.written sink.old) (K.written sink.new) (fault_text fault) }
    ensures later { K.faults sink.old ≤ K.faults sink.new }
    ensures failed { result ≡ stops.Sink → Rose (K.faults sink.old) (K.faults sink.new) }
    ensures others { (result ≢ stops.Source) × (result ≢ stops.Label) }
{
    match text_of_fault(alloc, fault) {
        Err(_) => Stop::Memory,
        Ok(text) => match write_all(sink, text.as_slice()) {
            Ok(()) => Stop::Text,
            Err(_) => Stop::Sink,
        },
    }
}

/// Reads all of the source, replays what it says, and writes the output.
pub fn replay<S: Source, K: Sink>(
    alloc: Global,
    output: Output,
    source: &mut S,
    sink: &mut K,
) -> Result<World, Stop>
    ensures ends { ReplayEnds output (S.left source.old) result (K.written sink.old) (K.written sink.new) }
    ensures taken { Takes result (S.left source.old) (S.left source.new) }
    ensures source_later { S.faults source.old ≤ S.faults source.new }
    ensures source_failed { IsErrOf result stops.Source → Rose (S.faults source.old) (S.faults source.new) }
    ensures sink_later { K.faults sink.old ≤ K.faults sink.new }
    ensures sink_failed { IsErrOf result stops.Sink → Rose (K.faults sink.old) (K.faults sink.new) }
{
    let input = read_all(alloc, source)?;
    match read(alloc, &input) {
        Err(ReadFault::NoMemory) => Err(Stop::Memory),
        Err(ReadFault::Text(fault)) => Err(write_fault(alloc, fault, sink)),
        Ok(script) => replay_script(alloc, output, script, sink),
    }
}
