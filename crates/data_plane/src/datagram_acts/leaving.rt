//! The lines of a datagram that leaves a node.
ghost use Rattle.std.specs.Prelude.{◌≡◌, ◌++◌, [], ◌∷◌, map, IfOk, OnOk};
ghost use Rattle.network_defs.specs.Acts.{hop_line};
ghost use Rattle.scenario_defs.specs.declared.report.ReportLine.TheVariants as told;

use label_defs::Branch;
use mv_base::{Bytes, IfaceId, NoMemory, NodeId, Seq};
use scenario_defs::{Lines, ReportLine};
use std::alloc::Global;

fn copied(alloc: Global, octets: &[u8]) -> Result<Bytes, NoMemory>
    ensures { IfOk result (λ copy. copy ≡ octets.now) }
{
    let mut copy = Seq::new(alloc);
    copy.extend(octets)?;
    Ok(copy)
}

/// Appends a line for an interface at which the datagram leaves.
fn leave(number: u64, iface: IfaceId, octets: &[u8], lines: &mut Lines) -> Result<(), NoMemory>
    ensures { OnOk result (lines.new ≡ lines.old ++ told.Out number iface octets.now ∷ []) }
{
    let bytes = copied(lines.alloc(), octets)?;
    lines.push(ReportLine::Out {
        number,
        iface,
        bytes,
    })
}

/// Appends a line for each interface at which the datagram leaves, in order. At want of memory some first ones stand.
pub(crate) fn leave_at(
    number: u64,
    ifaces: &[IfaceId],
    octets: &[u8],
    lines: &mut Lines,
) -> Result<(), NoMemory>
    ensures { OnOk result (lines.new ≡ lines.old ++ map (λ iface. told.Out number iface octets.now) ifaces.now) }
{
    for iface in ifaces {
        leave(number, *iface, octets, lines)?;
    }
    Ok(())
}

/// Appends a line for each copy that the node puts on a branch, in order. At want of memory some first ones stand.
pub(crate) fn tell_hops(
    node: NodeId,
    ttl: u8,
    number: u64,
    branches: &[Branch],
    lines: &mut Lines,
) -> Result<(), NoMemory>
    ensures { OnOk result (lines.new ≡ lines.old ++ map (hop_line node ttl number) branches.now) }
{
    for branch in branches {
        lines.push(ReportLine::Hop {
            from: node,
            to: branch.node,
            label: branch.label,
            ttl,
            number,
        })?;
    }
    Ok(())
}
