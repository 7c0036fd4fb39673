//! Messages of one entry.
ghost use Rattle.std.specs.Prelude.{◌≡◌, IfOk};
ghost use Rattle.scenario_defs.specs.mv_base.Address.{IsAddr};
ghost use Rattle.scenario_defs.specs.Rules.{IsEntry, AreOfOneFamily, group_of};
ghost use Rattle.pim_joinprune.specs.Spelling.{IsJoinPrune};
ghost use Rattle.pim_defs.specs.Single.{source_of, one_source, message_with, join_of, prune_of};

use crate::entry::group_of;
use pim_joinprune::{Group, JoinPrune, JpSource, JpSources, SourceKind};
use scenario_defs::JoinEntry;
use scenario_defs::of_mv_base::{Addr, NoMemory, Seq};
use std::alloc::Global;

/// The holdtime of the messages of `join` and `prune` (RFC 7761 section 4.11: 3.5 times 60 seconds).
const HOLDTIME: u16 = 210;

/// The source that names the entry. For (*,G) it is the RP, which is the neighbour (RFC 7761 section 4.9.5).
fn source_of(neighbour: Addr, entry: &JoinEntry) -> JpSource
    ensures { result ≡ source_of neighbour entry.now }
{
    match entry {
        JoinEntry::Star { group: _ } => JpSource {
            kind: SourceKind::Star,
            addr: neighbour,
        },
        JoinEntry::Source { source, group: _ } => JpSource {
            kind: SourceKind::Sg,
            addr: *source,
        },
        JoinEntry::Rpt { source, group: _ } => JpSource {
            kind: SourceKind::Rpt,
            addr: *source,
        },
    }
}

fn one_source(alloc: Global, neighbour: Addr, entry: &JoinEntry) -> Result<JpSources, NoMemory>
    ensures { IfOk result (λ sources. sources ≡ one_source neighbour entry.now) }
{
    let mut sources = Seq::new(alloc);
    sources.push(source_of(neighbour, entry))?;
    Ok(sources)
}

/// A message of one group.
fn message_with(
    alloc: Global,
    neighbour: Addr,
    group: Addr,
    joins: JpSources,
    prunes: JpSources,
) -> Result<JoinPrune, NoMemory>
    ensures { IfOk result (λ message. message ≡ message_with neighbour group joins prunes) }
{
    let mut groups = Seq::new(alloc);
    groups.push(Group {
        group,
        joins,
        prunes,
    })?;
    Ok(JoinPrune {
        neighbour,
        holdtime: HOLDTIME,
        groups,
    })
}

/// The message that joins the entry, for that neighbour upstream.
#[tactic(auto, using(crate::proofs::SingleLemmas::join_spelled))]
pub fn join_of(alloc: Global, neighbour: Addr, entry: &JoinEntry) -> Result<JoinPrune, NoMemory>
    ensures value { IfOk result (λ message. message ≡ join_of neighbour entry.now) }
    ensures spelled { IsAddr neighbour → IsEntry entry.now → AreOfOneFamily neighbour (group_of entry.now) → IfOk result IsJoinPrune }
{
    let joins = one_source(alloc, neighbour, entry)?;
    message_with(alloc, neighbour, group_of(entry), joins, Seq::new(alloc))
}

/// The message that prunes the entry, for that neighbour upstream.
#[tactic(auto, using(crate::proofs::SingleLemmas::prune_spelled))]
pub fn prune_of(alloc: Global, neighbour: Addr, entry: &JoinEntry) -> Result<JoinPrune, NoMemory>
    ensures value { IfOk result (λ message. message ≡ prune_of neighbour entry.now) }
    ensures spelled { IsAddr neighbour → IsEntry entry.now → AreOfOneFamily neighbour (group_of entry.now) → IfOk result IsJoinPrune }
{
    let prunes = one_source(alloc, neighbour, entry)?;
    message_with(alloc, neighbour, group_of(entry), Seq::new(alloc), prunes)
}
