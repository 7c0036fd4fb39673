//! The entries of interfaces.
ghost use Rattle.std.specs.Prelude.{◌≡◌};
ghost use Rattle.scenario_defs.specs.Rules.{group_of};
ghost use Rattle.pim_defs.specs.Mention.{entry_of, same_entry};

use pim_joinprune::{JpSource, SourceKind};
use scenario_defs::JoinEntry;
use scenario_defs::of_mv_base::Addr;

/// The entry that a source of a group in a message names (RFC 7761 section 4.9.1).
pub fn entry_of(group: Addr, source: &JpSource) -> JoinEntry
    ensures { result ≡ entry_of group source.now }
{
    match source.kind {
        SourceKind::Sg => JoinEntry::Source {
            source: source.addr,
            group,
        },
        SourceKind::Star => JoinEntry::Star { group },
        SourceKind::Rpt => JoinEntry::Rpt {
            source: source.addr,
            group,
        },
    }
}

/// The group of an entry.
pub fn group_of(entry: &JoinEntry) -> Addr
    ensures { result ≡ group_of entry.now }
{
    match entry {
        JoinEntry::Star { group } => *group,
        JoinEntry::Source { source: _, group } => *group,
        JoinEntry::Rpt { source: _, group } => *group,
    }
}

/// Whether both are one entry.
pub(crate) fn same_entry(own: &JoinEntry, other: &JoinEntry) -> bool
    ensures { result ≡ same_entry own.now other.now }
{
    own == other
}
