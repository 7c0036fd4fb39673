//! Writes the lines of a report.
ghost use Rattle.std.specs.Prelude.{◌≡◌, ◌++◌, ◌<◌, length, OnOk, OnErr, codes};
ghost use Rattle.std.specs.Fmt.{decimal};
ghost use Rattle.scenario_defs.specs.Text.{line_text, IsLineOf, refusal_text, fault_word, kind_word, hex_text};
ghost use Rattle.scenario_defs.specs.Text.{ends_text};
ghost use Rattle.report_text.specs.Parts.{ttl_text};

use crate::digits::put_hex;
use crate::pieces::{fault_word, kind_word, put_ends, put_iface, put_node, put_then};
use mv_base::{Bytes, IfaceId, NoMemory, NodeId};
use scenario_defs::{Kind, Refusal, ReportLine, Scenario};

fn put_bytes_refusal(out: &mut Bytes, place: u32, word: &[u8]) -> Result<(), NoMemory>
    ensures { OnOk result (out.new ≡ out.old ++ codes "bytes " ++ decimal place ++ codes " " ++ word.now) }
{
    put_then(out, b"bytes ", u64::from(place))?;
    out.extend(b" ")?;
    out.extend(word)
}

fn put_refusal(out: &mut Bytes, reason: Refusal) -> Result<(), NoMemory>
    ensures { OnOk result (out.new ≡ out.old ++ refusal_text reason) }
{
    match reason {
        Refusal::Empty => out.extend(b"empty"),
        Refusal::State => out.extend(b"state"),
        Refusal::Place => out.extend(b"place"),
        Refusal::Full => out.extend(b"full"),
        Refusal::Ours => out.extend(b"ours"),
        Refusal::Bytes { place, word } => put_bytes_refusal(out, place, fault_word(word)),
    }
}

fn put_out(
    out: &mut Bytes,
    scenario: &Scenario,
    number: u64,
    iface: IfaceId,
    bytes: &Bytes,
) -> Result<(), NoMemory>
    requires { iface.0 < length scenario.now.ifaces }
    ensures { OnOk result (out.new ≡ out.old ++ line_text scenario.now (ReportLine.Out number iface bytes.now)) }
{
    put_then(out, b"out ", number)?;
    out.extend(b" ")?;
    put_iface(out, scenario, iface)?;
    out.extend(b" ")?;
    put_hex(out, bytes.as_slice())?;
    out.extend(b"\n")
}

fn put_refused(
    out: &mut Bytes,
    scenario: &Scenario,
    line: u32,
    reason: Refusal,
) -> Result<(), NoMemory>
    ensures { OnOk result (out.new ≡ out.old ++ line_text scenario.now (ReportLine.Refused line reason)) }
{
    put_then(out, b"refused ", u64::from(line))?;
    out.extend(b" ")?;
    put_refusal(out, reason)?;
    out.extend(b"\n")
}

/// Appends the last number of a line.
fn put_last(out: &mut Bytes, number: u64) -> Result<(), NoMemory>
    ensures { OnOk result (out.new ≡ out.old ++ codes " " ++ decimal number ++ codes "\n") }
{
    put_then(out, b" ", number)?;
    out.extend(b"\n")
}

fn put_state(
    out: &mut Bytes,
    scenario: &Scenario,
    bytes: u64,
    copies: u64,
    buffers: u64,
    due: u64,
    unready: u64,
) -> Result<(), NoMemory>
    ensures { OnOk result (out.new ≡ out.old ++ line_text scenario.now (ReportLine.State bytes copies buffers due unready)) }
{
    put_then(out, b"state ", bytes)?;
    put_then(out, b" ", copies)?;
    put_then(out, b" ", buffers)?;
    put_then(out, b" ", due)?;
    put_last(out, unready)
}

fn put_halt(out: &mut Bytes, scenario: &Scenario, line: u32, node: NodeId) -> Result<(), NoMemory>
    requires { node.0 < length scenario.now.nodes }
    ensures { OnOk result (out.new ≡ out.old ++ line_text scenario.now (ReportLine.Halt line node)) }
{
    put_then(out, b"halt ", u64::from(line))?;
    out.extend(b" label ")?;
    put_node(out, scenario, node)?;
    out.extend(b"\n")
}

/// Appends a line of octets of a session, by its first word.
fn put_octets(
    out: &mut Bytes,
    scenario: &Scenario,
    word: &[u8],
    kind: Kind,
    from: NodeId,
    to: NodeId,
    bytes: &Bytes,
) -> Result<(), NoMemory>
    requires from { from.0 < length scenario.now.nodes }
    requires to { to.0 < length scenario.now.nodes }
    ensures { OnOk result (out.new ≡
        out.old ++ word.now ++ kind_word kind ++ codes " " ++ ends_text scenario.now from to ++ codes " " ++ hex_text bytes.now ++ codes "\n") }
{
    out.extend(word)?;
    out.extend(kind_word(kind))?;
    out.extend(b" ")?;
    put_ends(out, scenario, from, to)?;
    out.extend(b" ")?;
    put_hex(out, bytes.as_slice())?;
    out.extend(b"\n")
}

/// Appends the TTL of a copy, which a copy that lands has none of.
fn put_ttl(out: &mut Bytes, ttl: Option<u8>) -> Result<(), NoMemory>
    ensures { OnOk result (out.new ≡ out.old ++ ttl_text ttl) }
{
    match ttl {
        None => Ok(()),
        Some(ttl) => put_then(out, b" ", u64::from(ttl)),
    }
}

/// Appends a line of a copy on a link, by its first word.
fn put_copy(
    out: &mut Bytes,
    scenario: &Scenario,
    word: &[u8],
    from: NodeId,
    to: NodeId,
    label: u32,
    ttl: Option<u8>,
    number: u64,
) -> Result<(), NoMemory>
    requires from { from.0 < length scenario.now.nodes }
    requires to { to.0 < length scenario.now.nodes }
    ensures { OnOk result (out.new ≡
        out.old ++ word.now ++ ends_text scenario.now from to ++ codes " " ++ decimal label ++ ttl_text ttl ++ codes " " ++ decimal number ++ codes "\n") }
{
    out.extend(word)?;
    put_ends(out, scenario, from, to)?;
    put_then(out, b" ", u64::from(label))?;
    put_ttl(out, ttl)?;
    put_last(out, number)
}

fn put_line(out: &mut Bytes, scenario: &Scenario, line: &ReportLine) -> Result<(), NoMemory>
    requires { IsLineOf scenario.now line.now }
    ensures { OnOk result (out.new ≡ out.old ++ line_text scenario.now line.now) }
{
    match line {
        ReportLine::Out {
            number,
            iface,
            bytes,
        } => put_out(out, scenario, *number, *iface, bytes),
        ReportLine::Refused { line, reason } => put_refused(out, scenario, *line, *reason),
        ReportLine::State {
            bytes,
            copies,
            buffers,
            due,
            unready,
        } => put_state(out, scenario, *bytes, *copies, *buffers, *due, *unready),
        ReportLine::Halt { line, node } => put_halt(out, scenario, *line, *node),
        ReportLine::Put {
            kind,
            from,
            to,
            bytes,
        } => put_octets(out, scenario, b"put ", *kind, *from, *to, bytes),
        ReportLine::Take {
            kind,
            from,
            to,
            bytes,
        } => put_octets(out, scenario, b"take ", *kind, *from, *to, bytes),
        ReportLine::Hop {
            from,
            to,
            label,
            ttl,
            number,
        } => put_copy(
            out,
            scenario,
            b"hop ",
            *from,
            *to,
            *label,
            Some(*ttl),
            *number,
        ),
        ReportLine::Land {
            from,
            to,
            label,
            number,
        } => put_copy(out, scenario, b"land ", *from, *to, *label, None, *number),
    }
}

/// Appends the text of a line, or nothing where memory runs out.
pub fn write_line(line: &ReportLine, scenario: &Scenario, out: &mut Bytes) -> Result<(), NoMemory>
    requires { IsLineOf scenario.now line.now }
    ensures ok { OnOk result (out.new ≡ out.old ++ line_text scenario.now line.now) }
    ensures err { OnErr result (out.new ≡ out.old) }
{
    let mut text = Bytes::new(out.alloc());
    put_line(&mut text, scenario, line)?;
    out.extend(text.as_slice())
}
