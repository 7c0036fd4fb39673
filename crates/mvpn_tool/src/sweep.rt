//! Replays the network of a number, and shows the numbers of its run.
ghost use Rattle.std.specs.Prelude.{◌≡◌, ◌⊎◌, [], OnOk, OnErr, IfOk, IfErr, IsErrOf, Ok};
ghost use Rattle.mv_io.specs.Causes.{Rose};
ghost use Rattle.mv_io.specs.Octets.{Appended, AppendedPart};
ghost use Rattle.scenario_defs.specs.Rules.{ScriptRules};
ghost use Rattle.scenario_text.specs.Grammar.{script_of};
ghost use Rattle.generator.specs.Made.{made};
ghost use Rattle.mvpn_tool.specs.FirstEvents.{IsReached};
ghost use Rattle.mvpn_tool.specs.Sweep.{EventCounts, NeverHalts, SweepEnds, SweepsWhole, sweep_text};
ghost use Rattle.mvpn_tool.specs.declared.stop.Stop.TheVariants as stops;

use crate::counts::Counts;
use crate::laws::{runs_are_known, script_has_octets};
use crate::stop::Stop;
use generator::put_made;
use made_laws::{made_nodes_hold_few_labels, made_runs_never_halt, made_texts_are_read};
use mv_base::{Bytes, NoMemory};
use mv_io::{Sink, write_all};
use network_events::{Halt, World};
use report_text::put_number;
use scenario_defs::{Lines, Script, Timed};
use scenario_text::{ReadFault, read};
use std::alloc::Global;

/// The world after all events of a script, and the counts of their report.
pub struct Swept {
    pub world: World,
    pub counts: Counts,
}

/// One event: a step of the world, whose lines are counted.
fn sweep_event(
    alloc: Global,
    world: &mut World,
    timed: &Timed,
    counts: &mut Counts,
) -> Result<(), Stop>
    requires { IsReached timed.now world.old }
    ensures ends { EventCounts timed.now world.old world.new counts.old counts.new result }
    ensures others { IfErr result (λ stop. (stop ≡ stops.Label) ⊎ (stop ≡ stops.Memory)) }
{
    let mut lines = Lines::new(alloc);
    match world.step(timed.line, &timed.event, &mut lines) {
        Ok(()) => {
            counts.add_all(lines.as_slice())?;
            Ok(())
        }
        Err(Halt::NoMemory) => Err(Stop::Memory),
        Err(Halt::NoLabel(_)) => Err(Stop::Label),
    }
}

/// All events of the script, of which none runs out of labels.
fn sweep_script(alloc: Global, script: Script) -> Result<Swept, Stop>
    requires rules { ScriptRules script }
    requires labels { NeverHalts script }
    ensures sweeps { IfOk result (SweepsWhole script) }
    ensures others { IfErr result (λ stop. stop ≡ stops.Memory) }
{
    runs_are_known();
    script_has_octets(&script);
    let Script {
        scenario,
        events,
        end: _,
    } = script;
    let mut world = World::of(alloc, scenario)?;
    let mut counts = Counts::none();
    let timeds = events.as_slice();
    for timed in timeds {
        match sweep_event(alloc, &mut world, timed, &mut counts) {
            Ok(()) => {}
            Err(stop) => {
                world.close();
                return Err(stop);
            }
        }
    }
    Ok(Swept { world, counts })
}

/// The line of the numbers.
fn text_of_numbers(
    alloc: Global,
    number: u32,
    sends: u64,
    counts: Counts,
) -> Result<Bytes, NoMemory>
    ensures { IfOk result (λ text. text ≡ sweep_text number sends counts) }
{
    let mut text = Bytes::new(alloc);
    text.extend(b"sweep ")?;
    put_number(&mut text, u64::from(number))?;
    text.extend(b" sends ")?;
    put_number(&mut text, sends)?;
    text.extend(b" outs ")?;
    put_number(&mut text, counts.outs)?;
    text.extend(b" refused ")?;
    put_number(&mut text, counts.refused)?;
    text.extend(b" calm ")?;
    put_number(&mut text, counts.calm)?;
    text.extend(b"\n")?;
    Ok(text)
}

/// Writes the line of the numbers.
fn write_numbers<K: Sink>(
    alloc: Global,
    number: u32,
    swept: &Swept,
    sink: &mut K,
) -> Result<(), Stop>
    ensures ok { OnOk result (Appended (K.written sink.old) (K.written sink.new)
        (sweep_text number swept.now.world.network.datagrams.count swept.now.counts)) }
    ensures part { OnErr result (AppendedPart (K.written sink.old) (K.written sink.new)
        (sweep_text number swept.now.world.network.datagrams.count swept.now.counts)) }
    ensures failed { IsErrOf result stops.Sink → Rose (K.faults sink.old) (K.faults sink.new) }
    ensures nothing { IsErrOf result stops.Memory → Appended (K.written sink.old) (K.written sink.new) [] }
    ensures others { IfErr result (λ stop. (stop ≡ stops.Sink) ⊎ (stop ≡ stops.Memory)) }
{
    let text = text_of_numbers(alloc, number, swept.world.accepted(), swept.counts)?;
    write_all(sink, text.as_slice())?;
    Ok(())
}

/// Replays the script, which the text of the number says, and writes the line of its numbers.
fn sweep_read<K: Sink>(
    alloc: Global,
    number: u32,
    script: Script,
    sink: &mut K,
) -> Result<World, Stop>
    requires rules { ScriptRules script }
    requires said { script_of (made number) ≡ Ok script }
    ensures ends { SweepEnds number result (K.written sink.old) (K.written sink.new) }
    ensures failed { IsErrOf result stops.Sink → Rose (K.faults sink.old) (K.faults sink.new) }
    ensures others { IfErr result (λ stop. (stop ≡ stops.Sink) ⊎ (stop ≡ stops.Memory)) }
{
    made_texts_are_read();
    made_runs_never_halt();
    made_nodes_hold_few_labels();
    let swept = sweep_script(alloc, script)?;
    match write_numbers(alloc, number, &swept, sink) {
        Ok(()) => {
            let Swept { world, counts: _ } = swept;
            Ok(world)
        }
        Err(stop) => {
            let Swept { world, counts: _ } = swept;
            world.close();
            Err(stop)
        }
    }
}

/// Replays the scenario and script of the number, and writes one line with the numbers of the run: how many datagrams were accepted,
/// how often one left at an interface, how many events were refused, and how many states were calm.
pub fn sweep<K: Sink>(alloc: Global, number: u32, sink: &mut K) -> Result<World, Stop>
    ensures ends { SweepEnds number result (K.written sink.old) (K.written sink.new) }
    ensures failed { IsErrOf result stops.Sink → Rose (K.faults sink.old) (K.faults sink.new) }
    ensures others { IfErr result (λ stop. (stop ≡ stops.Sink) ⊎ (stop ≡ stops.Memory)) }
{
    made_texts_are_read();
    let mut text = Bytes::new(alloc);
    put_made(&mut text, number)?;
    match read(alloc, text.as_slice()) {
        Err(ReadFault::NoMemory) => Err(Stop::Memory),
        Err(ReadFault::Text(_)) => unreachable!(),
        Ok(script) => sweep_read(alloc, number, script, sink),
    }
}
