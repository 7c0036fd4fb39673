//! Join/Prune messages, and their lines.
ghost use Rattle.std.specs.Prelude.{◌≡◌, ◌++◌, OnOk};
ghost use Rattle.std.specs.List.{flat_map};
ghost use Rattle.value_text.specs.JoinPruneText.{source_kind_text, source_line, group_lines, joinprune_lines, pim_word};
ghost use Rattle.value_text.specs.ValueText.{refused_line};

use crate::addr_text::put_addr;
use crate::refused::put_refused;
use mv_base::{Bytes, NoMemory};
use pim_joinprune::{Group, JoinPrune, JpSource, PimFault, SourceKind};
use report_text::put_then;

fn source_kind_word(kind: SourceKind) -> &'static [u8]
    ensures { result.now ≡ source_kind_text kind }
{
    match kind {
        SourceKind::Sg => b"sg",
        SourceKind::Star => b"star",
        SourceKind::Rpt => b"rpt",
    }
}

fn put_source(out: &mut Bytes, word: &[u8], source: &JpSource) -> Result<(), NoMemory>
    ensures { OnOk result (out.new ≡ out.old ++ source_line word.now source.now) }
{
    out.extend(word)?;
    out.extend(source_kind_word(source.kind))?;
    out.extend(b" ")?;
    put_addr(out, &source.addr)?;
    out.extend(b"\n")
}

fn put_sources(out: &mut Bytes, word: &[u8], sources: &[JpSource]) -> Result<(), NoMemory>
    ensures { OnOk result (out.new ≡ out.old ++ flat_map (source_line word.now) sources.now) }
{
    for source in sources {
        put_source(out, word, source)?;
    }
    Ok(())
}

fn put_group(out: &mut Bytes, group: &Group) -> Result<(), NoMemory>
    ensures { OnOk result (out.new ≡ out.old ++ group_lines group.now) }
{
    out.extend(b"group ")?;
    put_addr(out, &group.group)?;
    out.extend(b"\n")?;
    put_sources(out, b"join ", group.joins.as_slice())?;
    put_sources(out, b"prune ", group.prunes.as_slice())
}

fn put_groups(out: &mut Bytes, groups: &[Group]) -> Result<(), NoMemory>
    ensures { OnOk result (out.new ≡ out.old ++ flat_map group_lines groups.now) }
{
    for group in groups {
        put_group(out, group)?;
    }
    Ok(())
}

/// Appends the lines of a Join/Prune message.
pub fn put_joinprune_lines(out: &mut Bytes, message: &JoinPrune) -> Result<(), NoMemory>
    ensures { OnOk result (out.new ≡ out.old ++ joinprune_lines message.now) }
{
    out.extend(b"joinprune ")?;
    put_addr(out, &message.neighbour)?;
    put_then(out, b" ", u64::from(message.holdtime))?;
    out.extend(b"\n")?;
    put_groups(out, message.groups.as_slice())
}

/// The word of a fault of a Join/Prune message.
fn pim_word(fault: PimFault) -> &'static [u8]
    ensures { result.now ≡ pim_word fault }
{
    match fault {
        PimFault::Short => b"short",
        PimFault::Version => b"version",
        PimFault::PimType => b"pim-type",
        PimFault::Checksum => b"checksum",
        PimFault::Family => b"family",
        PimFault::Encoding => b"encoding",
        PimFault::MaskLength => b"mask-length",
        PimFault::Flags => b"flags",
        PimFault::NotMulticast => b"not-multicast",
        PimFault::Trailing => b"trailing",
    }
}

/// Appends the line of a fault of a Join/Prune message.
pub fn put_joinprune_fault(out: &mut Bytes, place: u32, fault: PimFault) -> Result<(), NoMemory>
    ensures { OnOk result (out.new ≡ out.old ++ refused_line place (pim_word fault)) }
{
    put_refused(out, place as usize, pim_word(fault))
}
