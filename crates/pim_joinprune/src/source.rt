//! Sources that are joined or pruned.
ghost use Rattle.std.specs.Prelude.{◌≡◌, ◌++◌, List, length, OnOk};
ghost use Rattle.pim_joinprune.specs.Answers.{Gives};
ghost use Rattle.pim_joinprune.specs.Reading.{kind_of, kind_at, source_at};
ghost use Rattle.pim_joinprune.specs.Spelling.{IsSource, flags_of, source_text};

use crate::element::Element;
use crate::family::Family;
use crate::fault::{PimFault, ReadFault};
use crate::field::{NATIVE, read_address, read_known, read_octet};
use mv_base::{Addr, Bytes, NoMemory, Seq};
use std::alloc::Global;

/// What of a group a source address stands for (RFC 7761 section 4.9.1).
#[derive(Clone, Copy, PartialEq, Eq, Hash)]
pub enum SourceKind {
    /// (S,G): the source's own tree.
    Sg,
    /// (*,G): the shared tree.
    Star,
    /// (S,G,rpt): the source on the shared tree.
    Rpt,
}

/// A source that is joined or pruned.
#[derive(Clone, Copy, PartialEq, Eq, Hash)]
pub struct JpSource {
    pub kind: SourceKind,
    /// For (*,G) the address of the RP.
    pub addr: Addr,
}

/// Sources in the order of the message.
pub type JpSources = Seq<JpSource>;

/// What the flags W (2) and R (1) say, which are the low two bits. W stands with R alone.
fn kind_of(flags: u8) -> Option<SourceKind>
    ensures { result ≡ kind_of flags }
{
    match flags % 4 {
        0 => Some(SourceKind::Sg),
        1 => Some(SourceKind::Rpt),
        2 => None,
        _ => Some(SourceKind::Star),
    }
}

/// The flag S (4), and W (2) and R (1) by the kind.
fn flags_of(kind: SourceKind) -> u8
    ensures { result ≡ flags_of kind }
{
    match kind {
        SourceKind::Sg => 0x04,
        SourceKind::Rpt => 0x05,
        SourceKind::Star => 0x07,
    }
}

#[tactic(auto, unfolding(crate::specs::Reading::kind_at))]
fn read_kind(octets: &[u8]) -> Result<(SourceKind, &[u8]), ReadFault>
    ensures { Gives (λ x. (x.0, x.1.now)) result (kind_at octets.now) }
{
    let (flags, rest) = read_octet(octets)?;
    match kind_of(flags) {
        Some(kind) => Ok((kind, rest)),
        None => Err(ReadFault::Bad {
            left: octets.len(),
            fault: PimFault::Flags,
        }),
    }
}

#[tactic(auto, unfolding(crate::specs::Reading::source_at))]
fn read_source(family: Family, octets: &[u8]) -> Result<(JpSource, &[u8]), ReadFault>
    ensures { Gives (λ x. (x.0, x.1.now)) result (source_at family octets.now) }
{
    let (_, rest) = read_known(octets, family.octet(), PimFault::Family)?;
    let (_, rest) = read_known(rest, NATIVE, PimFault::Encoding)?;
    let (kind, rest) = read_kind(rest)?;
    let (_, rest) = read_known(rest, family.mask_len(), PimFault::MaskLength)?;
    let (addr, rest) = read_address(family, rest)?;
    Ok((JpSource { kind, addr }, rest))
}

impl Element for JpSource {
    ghost use Rattle.pim_joinprune.specs.Reading.{source_at};
    ghost use Rattle.pim_joinprune.specs.Spelling.{IsSource, source_text};

    ghost read_at = { source_at };

    ghost text = { source_text };

    ghost IsWritable = { IsSource };

    fn read(_: Global, family: Family, octets: &[u8]) -> Result<(Self, &[u8]), ReadFault> {
        read_source(family, octets)
    }

    fn push(&self, family: Family, out: &mut Bytes) -> Result<(), NoMemory> {
        out.extend(&[
            family.octet(),
            NATIVE,
            flags_of(self.kind),
            family.mask_len(),
        ])?;
        out.extend(self.addr.octets())
    }
}
