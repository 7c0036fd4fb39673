//! Writes the hops of a replay, event by event.
ghost use Rattle.std.specs.Prelude.{◌≡◌, ◌++◌, All, IfOk, OnOk, map};
ghost use Rattle.std.specs.List.{flat_map, list_any};
ghost use Rattle.core_pcap.specs.Spelling.{IsHop, hop_text};
ghost use Rattle.core_pcap.specs.declared.order.ByteOrder.TheVariants.{BigEndian};
ghost use Rattle.mvpn_model.specs.Past.{ticks_of};
ghost use Rattle.mvpn_model.specs.Report.{Datagram, sent_by};
ghost use Rattle.hop_laws.specs.Hops.{datagram_octets, hop_by, refuses};
ghost use Rattle.mvpn_tool.specs.Output.{HasShortPayload, MayGoOn, hops_after, kept_after, sent_after};
ghost use Rattle.mvpn_tool.specs.declared.command.Output.TheVariants as outputs;

use core_pcap::{CoreHop, write_hop};
use mv_base::{Bytes, NoMemory, Seq};
use mvpn_model::packet;
use scenario_defs::{Event, ReportLine, Timed};
use std::alloc::Global;

/// What is kept of the events so far: the clock after them, and the octets of the datagrams that they sent.
#[derive(Drop)]
pub struct SoFar {
    pub clock: u64,
    pub sent: Seq<Bytes>,
}

/// Whether the line refuses the event at that line of the script.
fn refuses(number: u32, line: &ReportLine) -> bool
    ensures { result ≡ refuses number line.now }
{
    match line {
        ReportLine::Refused { line, reason: _ } => *line == number,
        _ => false,
    }
}

fn is_refused(number: u32, lines: &[ReportLine]) -> bool
    ensures { result ≡ list_any (refuses number) lines.now }
{
    lines.iter().any(|line| refuses(number, line))
}

fn ticks_of(event: &Event) -> u64
    ensures { result ≡ ticks_of event.now }
{
    match event {
        Event::Tick { count } => *count,
        _ => 0,
    }
}

/// The same octets.
fn copied(alloc: Global, octets: &[u8]) -> Result<Bytes, NoMemory>
    ensures { IfOk result (λ own. own ≡ octets.now) }
{
    let mut own = Bytes::new(alloc);
    own.extend(octets)?;
    Ok(own)
}

/// Appends the octets of the datagram that the event sends, if it sends one.
fn push_sent(event: &Event, sent: &mut Seq<Bytes>) -> Result<(), NoMemory>
    requires { HasShortPayload event.now }
    ensures { OnOk result (sent.new ≡ sent.old ++ map (λ (datagram : Datagram). datagram.octets) (sent_by 0 event.now)) }
{
    let alloc = sent.alloc();
    match event {
        Event::Send {
            source,
            group,
            payload,
            ..
        } => sent.push(packet(alloc, *source, *group, payload.as_slice())?),
        Event::Packet { bytes, .. } => sent.push(copied(alloc, bytes.as_slice())?),
        _ => Ok(()),
    }
}

/// Appends what the event with these lines sends, unless one of them refuses it.
fn accept(timed: &Timed, lines: &[ReportLine], sent: &mut Seq<Bytes>) -> Result<(), NoMemory>
    requires { HasShortPayload timed.now.event }
    ensures { OnOk result (sent.new ≡ sent_after sent.old timed.now lines.now) }
{
    if is_refused(timed.line, lines) {
        return Ok(());
    }
    push_sent(&timed.event, sent)
}

/// The octets of the datagram of that number, counted from 1.
fn datagram_octets(sent: &[Bytes], number: u64) -> &[u8]
    ensures { result.now ≡ datagram_octets sent.now number }
{
    if number == 0 {
        return &[];
    }
    match sent.get((number - 1) as usize) {
        Some(octets) => octets.as_slice(),
        None => &[],
    }
}

/// Appends the record of the hop that the line reports, if it reports one.
fn put_hop(clock: u64, sent: &[Bytes], line: &ReportLine, text: &mut Bytes) -> Result<(), NoMemory>
    requires { All IsHop (hop_by clock sent.now line.now) }
    ensures { OnOk result (text.new ≡ text.old ++ flat_map (hop_text BigEndian) (hop_by clock sent.now line.now)) }
{
    match line {
        ReportLine::Hop {
            from,
            to,
            label,
            ttl,
            number,
        } => {
            let hop = CoreHop {
                tick: clock,
                from: *from,
                to: *to,
                label: *label,
                ttl: *ttl,
                bytes: copied(text.alloc(), datagram_octets(sent, *number))?,
            };
            write_hop(&hop, text)
        }
        _ => Ok(()),
    }
}

fn put_hops(
    clock: u64,
    sent: &[Bytes],
    lines: &[ReportLine],
    text: &mut Bytes,
) -> Result<(), NoMemory>
    requires { All IsHop (flat_map (hop_by clock sent.now) lines.now) }
    ensures { OnOk result (text.new ≡ text.old ++ flat_map (hop_text BigEndian) (flat_map (hop_by clock sent.now) lines.now)) }
{
    for line in lines {
        put_hop(clock, sent, line, text)?;
    }
    Ok(())
}

/// Appends the records of the hops of an event, and keeps what it sends and its ticks.
pub fn put_event_hops(
    timed: &Timed,
    lines: &[ReportLine],
    so_far: &mut SoFar,
    text: &mut Bytes,
) -> Result<(), NoMemory>
    requires { MayGoOn timed.now so_far.old lines.now }
    ensures text { OnOk result (text.new ≡ text.old ++ flat_map (hop_text BigEndian) (hops_after so_far.old timed.now lines.now)) }
    ensures kept { OnOk result (so_far.new ≡ kept_after outputs.Hops timed.now so_far.old lines.now) }
{
    accept(timed, lines, &mut so_far.sent)?;
    put_hops(so_far.clock, so_far.sent.as_slice(), lines, text)?;
    so_far.clock += ticks_of(&timed.event);
    Ok(())
}
