//! The top call: a command, from octets to octets.
ghost use Rattle.std.specs.Prelude.{◌≡◌, ℕ, Option, List, None, map, string_bytes};
ghost use Rattle.mvpn_tool.specs.Commands.{command_of};
ghost use Rattle.mvpn_tool.specs.Endings.{ending, ending_alone};
ghost use Rattle.mvpn_tool.specs.TellOutcome.{tell_status};
ghost use Rattle.mvpn_tool.specs.Runs.{Runs, UsageRun, ReplayRun, DecodeRun, MakeRun, SweepRun, AuditRun, HopsRun, IngressRun, ProbeRun};

use crate::audit::judge;
use crate::command::{Command, Output, command_of};
use crate::hops::Hops;
use crate::ingress::Ingress;
use crate::make::make;
use crate::probe::Probe;
use crate::replay::replay;
use crate::shown::show;
use crate::stop::Stop;
use crate::sweep::sweep;
use audit_defs::Verdict;
use decode_text::Format;
use hop_laws::of_run_laws::one_run_or_one_halt;
use mv_io::{Sink, Source, write_all};
use network_events::World;
use std::alloc::Global;

/// The line that shows the forms of a command.
const USAGE: &[u8] =
    b"usage: mvpn replay [--wire] | decode nlri|pmsi|fec|bgp|ldp|pim | make NUMBER | sweep NUMBER | audit | probe | ingress | pcap | hops\n";

/// How a call ended, and the world where all events of a script were replayed.
pub struct End {
    pub status: u8,
    pub world: Option<World>,
}

fn ended(status: u8) -> End
    ensures status { result.status ≡ status }
    ensures world { result.world ≡ None }
{
    End {
        status,
        world: None,
    }
}

/// How a command ends that shows what is in a text: by whether it showed a fault, or by why it stopped.
fn told(answer: Result<bool, Stop>) -> End
    ensures status { result.status ≡ tell_status answer }
    ensures world { result.world ≡ None }
{
    match answer {
        Ok(false) => ended(0),
        Ok(true) => ended(1),
        Err(Stop::Text) => ended(3),
        Err(Stop::Source) => ended(4),
        Err(Stop::Sink) => ended(5),
        Err(Stop::Memory) => ended(6),
        Err(Stop::Label) => ended(7),
    }
}

fn run_usage<K: Sink>(sink: &mut K) -> End
    ensures { (left : Option (List ℕ)) (faults : ℕ) → UsageRun (ending_alone left faults K.written K.faults result sink.old sink.new) }
{
    match write_all(sink, USAGE) {
        Ok(()) => ended(2),
        Err(_) => ended(5),
    }
}

fn run_make<K: Sink>(alloc: Global, number: u32, sink: &mut K) -> End
    ensures { (left : Option (List ℕ)) (faults : ℕ) → MakeRun number (ending_alone left faults K.written K.faults result sink.old sink.new) }
{
    match make(alloc, number, sink) {
        Ok(()) => ended(0),
        Err(Stop::Sink) => ended(5),
        Err(_) => ended(6),
    }
}

fn run_sweep<K: Sink>(alloc: Global, number: u32, sink: &mut K) -> End
    ensures { (left : Option (List ℕ)) (faults : ℕ) → SweepRun number (ending_alone left faults K.written K.faults result sink.old sink.new) }
{
    match sweep(alloc, number, sink) {
        Ok(world) => End {
            status: 0,
            world: Some(world),
        },
        Err(Stop::Sink) => ended(5),
        Err(_) => ended(6),
    }
}

fn run_replay<S: Source, K: Sink>(
    alloc: Global,
    output: Output,
    source: &mut S,
    sink: &mut K,
) -> End
    ensures { ReplayRun output (ending S.left S.faults K.written K.faults result source.old source.new sink.old sink.new) }
{
    one_run_or_one_halt();
    match replay(alloc, output, source, sink) {
        Ok(world) => End {
            status: 0,
            world: Some(world),
        },
        Err(Stop::Text) => ended(3),
        Err(Stop::Source) => ended(4),
        Err(Stop::Sink) => ended(5),
        Err(Stop::Memory) => ended(6),
        Err(Stop::Label) => ended(7),
    }
}

fn run_decode<S: Source, K: Sink>(
    alloc: Global,
    format: Format,
    source: &mut S,
    sink: &mut K,
) -> End
    ensures { DecodeRun format (ending S.left S.faults K.written K.faults result source.old source.new sink.old sink.new) }
{
    told(show(alloc, &format, source, sink))
}

fn run_audit<S: Source, K: Sink>(alloc: Global, source: &mut S, sink: &mut K) -> End
    ensures { AuditRun (ending S.left S.faults K.written K.faults result source.old source.new sink.old sink.new) }
{
    match judge(alloc, source, sink) {
        Ok(Verdict::Yes) => ended(0),
        Ok(Verdict::No { line: _, reason: _ }) => ended(8),
        Err(Stop::Text) => ended(3),
        Err(Stop::Source) => ended(4),
        Err(Stop::Sink) => ended(5),
        Err(Stop::Memory) => ended(6),
        Err(Stop::Label) => unreachable!(),
    }
}

fn run_hops<S: Source, K: Sink>(alloc: Global, source: &mut S, sink: &mut K) -> End
    ensures { HopsRun (ending S.left S.faults K.written K.faults result source.old source.new sink.old sink.new) }
{
    told(show(alloc, &Hops, source, sink))
}

fn run_ingress<S: Source, K: Sink>(alloc: Global, source: &mut S, sink: &mut K) -> End
    ensures { IngressRun (ending S.left S.faults K.written K.faults result source.old source.new sink.old sink.new) }
{
    told(show(alloc, &Ingress, source, sink))
}

fn run_probe<S: Source, K: Sink>(alloc: Global, source: &mut S, sink: &mut K) -> End
    ensures { ProbeRun (ending S.left S.faults K.written K.faults result source.old source.new sink.old sink.new) }
{
    told(show(alloc, &Probe, source, sink))
}

/// Runs the command that the words name. What is true of each status then, command by command, is `Runs`.
pub fn run<S: Source, K: Sink>(alloc: Global, words: &[String], source: &mut S, sink: &mut K) -> End
    ensures { Runs (command_of (map string_bytes words.now)) (ending S.left S.faults K.written K.faults result source.old source.new sink.old sink.new) }
{
    match command_of(words) {
        None => run_usage(sink),
        Some(Command::Replay(detail)) => run_replay(alloc, Output::Report(detail), source, sink),
        Some(Command::Decode(format)) => run_decode(alloc, format, source, sink),
        Some(Command::Make(number)) => run_make(alloc, number, sink),
        Some(Command::Sweep(number)) => run_sweep(alloc, number, sink),
        Some(Command::Audit) => run_audit(alloc, source, sink),
        Some(Command::Hops) => run_hops(alloc, source, sink),
        Some(Command::Ingress) => run_ingress(alloc, source, sink),
        Some(Command::Probe) => run_probe(alloc, source, sink),
        Some(Command::Pcap) => run_replay(alloc, Output::Hops, source, sink),
    }
}
