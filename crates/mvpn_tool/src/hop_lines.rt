//! The lines of a file of hops.
ghost use Rattle.std.specs.Prelude.{◌≡◌, ◌++◌, true, false, OnOk, IfOk};
ghost use Rattle.mvpn_tool.specs.HopLines.{HasFault, IsFile, TellsFault, TellsHops, hop_line, hop_lines, label_text, pcap_word};

use crate::shown::Shown;
use core_pcap::{CoreHop, PcapFault, read};
use mv_base::{Bytes, NoMemory};
use report_text::{put_hex, put_number};
use std::alloc::Global;
use value_text::put_refused;

fn pcap_word(fault: PcapFault) -> &'static [u8]
    ensures { result.now ≡ pcap_word fault }
{
    match fault {
        PcapFault::Short => b"short",
        PcapFault::Magic => b"magic",
        PcapFault::Version => b"version",
        PcapFault::Network => b"network",
        PcapFault::Time => b"time",
        PcapFault::Length => b"length",
        PcapFault::Address => b"address",
        PcapFault::EtherType => b"ether-type",
        PcapFault::Shim => b"shim",
    }
}

/// Appends the label, the TTL, and the datagram's octets.
fn put_label(out: &mut Bytes, hop: &CoreHop) -> Result<(), NoMemory>
    ensures { OnOk result (out.new ≡ out.old ++ label_text hop.now) }
{
    put_number(out, u64::from(hop.label))?;
    out.extend(b" ")?;
    put_number(out, u64::from(hop.ttl))?;
    out.extend(b" ")?;
    put_hex(out, hop.bytes.as_slice())?;
    out.extend(b"\n")
}

/// Appends the line of a hop.
fn put_hop(out: &mut Bytes, hop: &CoreHop) -> Result<(), NoMemory>
    ensures { OnOk result (out.new ≡ out.old ++ hop_line hop.now) }
{
    out.extend(b"hop ")?;
    put_number(out, hop.tick)?;
    out.extend(b" ")?;
    put_number(out, u64::from(hop.from.0))?;
    out.extend(b" ")?;
    put_number(out, u64::from(hop.to.0))?;
    out.extend(b" ")?;
    put_label(out, hop)
}

/// The lines of the hops.
fn lines_of(alloc: Global, hops: &[CoreHop]) -> Result<Bytes, NoMemory>
    ensures { IfOk result (λ text. text ≡ hop_lines hops.now) }
{
    let mut text = Bytes::new(alloc);
    for hop in hops {
        put_hop(&mut text, hop)?;
    }
    Ok(text)
}

/// The same lines, and after them that of the fault, where there is one.
fn with_fault(text: Bytes, fault: Option<(u64, PcapFault)>) -> Result<Shown, NoMemory>
    ensures { IfOk result (λ lines. TellsFault fault text lines.refused lines.text) }
{
    let mut text = text;
    match fault {
        None => Ok(Shown {
            text,
            refused: false,
        }),
        Some((place, fault)) => {
            put_refused(&mut text, place as usize, pcap_word(fault))?;
            Ok(Shown {
                text,
                refused: true,
            })
        }
    }
}

/// The lines of the hops that a file spells, or of those before its first fault, and the line of that fault.
pub fn tell_hops(alloc: Global, octets: &[u8]) -> Result<Shown, NoMemory>
    ensures told { IfOk result (λ lines. TellsHops lines.refused octets.now lines.text) }
    ensures whole { IsFile octets.now → IfOk result (λ lines. lines.refused ≡ false) }
    ensures fault { HasFault octets.now → IfOk result (λ lines. lines.refused ≡ true) }
{
    let file = read(alloc, octets)?;
    let text = lines_of(alloc, file.hops.as_slice())?;
    with_fault(text, file.fault)
}
