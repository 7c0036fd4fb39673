//! The rules that look at several words of an event.
ghost use Rattle.std.specs.Prelude.{◌≡◌};
ghost use Rattle.line_words.specs.Words.{placed_word};
ghost use Rattle.scenario_text.specs.event_lines.Rules.{unless_broken, link_fault, session_fault};
ghost use Rattle.scenario_text.specs.event_lines.Rules.{is_flow_of, is_entry_of, is_of_family, family_fault};

use line_words::{Reason, Row, TextFault, Word, fault_at, same_family};
use mv_base::{Addr, IfaceId, Link, NodeId, Pattern};
use scenario_defs::{JoinEntry, Kind};
use scenario_lines::scenario_draft::{Draft, are_joined, is_of_iface};

/// The value, unless a rule is broken, which is told at the word.
pub fn unless_broken<T: Drop>(
    broken: Option<Reason>,
    row: Row,
    word: &Word,
    value: T,
) -> Result<T, TextFault>
    ensures { result ≡ unless_broken broken row (placed_word word.now) value }
{
    match broken {
        None => Ok(value),
        Some(reason) => Err(fault_at(row.number, word.column, reason)),
    }
}

/// Why two nodes are not the ends of a link.
pub fn link_fault(links: &[Link], a: NodeId, b: NodeId) -> Option<Reason>
    ensures { result ≡ link_fault links.now a b }
{
    if a.0 == b.0 {
        Some(Reason::Same)
    } else if are_joined(a, b, links) {
        None
    } else {
        Some(Reason::Link)
    }
}

/// Why two nodes have no session over the protocol. Over BGP both are edges.
pub fn session_fault(links: &[Link], kind: Kind, a: NodeId, b: NodeId) -> Option<Reason>
    ensures { result ≡ session_fault links.now kind a b }
{
    match kind {
        Kind::Bgp if a.0 == b.0 => Some(Reason::Same),
        Kind::Bgp => None,
        Kind::Ldp => link_fault(links, a, b),
    }
}

/// Whether source and group are of the family of the interface's address.
pub fn is_flow_of(draft: &Draft, iface: IfaceId, source: Addr, group: Addr) -> bool
    ensures { result ≡ is_flow_of draft.now iface source group }
{
    same_family(source, group) && is_of_iface(draft, iface, group)
}

/// Whether all that a join or a prune names is of that family.
pub fn is_entry_of(draft: &Draft, iface: IfaceId, entry: JoinEntry) -> bool
    ensures { result ≡ is_entry_of draft.now iface entry }
{
    match entry {
        JoinEntry::Star { group } => is_of_iface(draft, iface, group),
        JoinEntry::Source { source, group } => is_flow_of(draft, iface, source, group),
        JoinEntry::Rpt { source, group } => is_flow_of(draft, iface, source, group),
    }
}

/// Whether source and group of a pattern are of one family, a wildcard being of both.
pub fn is_of_family(pattern: Pattern) -> bool
    ensures { result ≡ is_of_family pattern }
{
    match (pattern.source, pattern.group) {
        (Some(source), Some(group)) => same_family(source, group),
        _ => true,
    }
}

/// The rule of families, by whether it is kept.
pub fn family_fault(kept: bool) -> Option<Reason>
    ensures { result ≡ family_fault kept }
{
    if kept { None } else { Some(Reason::Family) }
}
