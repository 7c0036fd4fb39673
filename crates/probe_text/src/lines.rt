//! The lines of a text, by their words.
ghost use Rattle.std.specs.Prelude.{◌≡◌, ◌≤◌, length, map};
ghost use Rattle.mv_base.specs.core_walks.Topology.{IsTopology};
ghost use Rattle.line_words.specs.Answers.{Gives};
ghost use Rattle.line_words.specs.Words.{placed_word};
ghost use Rattle.probe_text.specs.Grammar.{declared_by, declaring, ends_line, given_by, given_words, is_iface_at, join_line};
ghost use Rattle.probe_text.specs.Grammar.{own_iface_at, piece_line, probe_line, two_ends};

use crate::input::Ends;
use line_words::{
    ReadFault, Reason, Row, TEXT_LIMIT, TextFault, Word, fault_at, group_at, payload_at, row_of,
    same_family, source_at, words_in,
};
use mv_base::core_walks::is_connected;
use mv_base::{IfaceId, NodeId};
use probe_defs::ProbeLine;
use scenario_defs::Scenario;
use scenario_lines::scenario_draft::{Draft, Line, edge_at, iface_at, is_of_iface};
use scenario_lines::{count_fault, scenario_line};

/// The most joins of a text.
const JOIN_LIMIT: usize = 1024;

/// A line of the scenario by its words.
#[tactic(auto, unfolding(crate::specs::Grammar::declaring))]
fn declaring(draft: &Draft, row: Row, words: &[Word]) -> Result<Line, ReadFault>
    requires topology { IsTopology (length draft.now.scenario.nodes) draft.now.scenario.links }
    ensures { Gives result (declaring draft.now row (map placed_word words.now)) }
{
    let [first, rest @ ..] = words else {
        return Ok(Line::Blank);
    };
    if first.text == b"events".as_slice() {
        return Err(ReadFault::Text(fault_at(row.number, first.column, Reason::Word)));
    }
    scenario_line(draft, row, first, rest)
}

#[tactic(auto, unfolding(crate::specs::Grammar::two_ends))]
fn two_ends(draft: &Draft, row: Row, edge: &Word, peer: &Word) -> Result<Ends, TextFault>
    ensures { result ≡ two_ends draft.now row (placed_word edge.now) (placed_word peer.now) }
{
    let own = edge_at(draft, row, edge)?;
    let other = edge_at(draft, row, peer)?;
    if own.0 == other.0 {
        return Err(fault_at(row.number, peer.column, Reason::Same));
    }
    Ok(Ends {
        edge: own,
        peer: other,
    })
}

/// The line `probe` by its words.
#[tactic(auto, unfolding(crate::specs::Grammar::ends_line))]
fn ends_line(draft: &Draft, row: Row, words: &[Word]) -> Result<Ends, TextFault>
    ensures { result ≡ ends_line draft.now row (map placed_word words.now) }
{
    match words {
        [] => Err(fault_at(row.number, 1, Reason::Count)),
        [_, edge, peer] => two_ends(draft, row, edge, peer),
        _ => Err(count_fault(row, words, 3)),
    }
}

/// Whether the interface is of a VRF of the edge.
fn is_iface_at(scenario: &Scenario, edge: NodeId, iface: IfaceId) -> bool
    ensures { result ≡ is_iface_at scenario.now edge iface }
{
    let Some(own) = scenario.ifaces.as_slice().get(usize::from(iface.0)) else {
        return false;
    };
    match scenario.vrfs.as_slice().get(usize::from(own.vrf.0)) {
        Some(vrf) => vrf.edge.0 == edge.0,
        None => false,
    }
}

#[tactic(auto, unfolding(crate::specs::Grammar::own_iface_at))]
fn own_iface_at(draft: &Draft, edge: NodeId, row: Row, word: &Word) -> Result<IfaceId, TextFault>
    ensures { result ≡ own_iface_at draft.now edge row (placed_word word.now) }
{
    let iface = iface_at(draft, row, word)?;
    if !is_iface_at(draft.scenario(), edge, iface) {
        return Err(fault_at(row.number, word.column, Reason::Unknown));
    }
    Ok(iface)
}

/// A line `join` by the words after the first one.
#[tactic(auto, unfolding(crate::specs::Grammar::join_line, crate::specs::Grammar::join_words))]
fn join_line(draft: &Draft, edge: NodeId, row: Row, words: &[Word]) -> Result<ProbeLine, TextFault>
    ensures { result ≡ join_line draft.now edge row (map placed_word words.now) }
{
    let [iface, source, group] = words else {
        return Err(count_fault(row, words, 3));
    };
    let iface = own_iface_at(draft, edge, row, iface)?;
    let from = source_at(row, source)?;
    let to = group_at(row, group)?;
    if !(same_family(from, to) && is_of_iface(draft, iface, to)) {
        return Err(fault_at(row.number, group.column, Reason::Family));
    }
    Ok(ProbeLine::Join {
        iface,
        source: from,
        group: to,
    })
}

/// A line `piece` by the words after the first one.
#[tactic(auto, unfolding(crate::specs::Grammar::piece_line))]
fn piece_line(draft: &Draft, row: Row, words: &[Word]) -> Result<ProbeLine, ReadFault>
    ensures { Gives result (piece_line row (map placed_word words.now)) }
{
    let [octets] = words else {
        return Err(ReadFault::Text(count_fault(row, words, 1)));
    };
    let bytes = payload_at(draft.alloc(), row, octets)?;
    Ok(ProbeLine::Piece(bytes))
}

/// What a line of the scenario says, given what the lines before it declared.
#[tactic(auto, unfolding(crate::specs::Grammar::declared_by))]
pub(crate) fn declared_by(draft: &Draft, number: u32, octets: &[u8]) -> Result<Line, ReadFault>
    requires topology { IsTopology (length draft.now.scenario.nodes) draft.now.scenario.links }
    requires short { length octets.now ≤ TEXT_LIMIT }
    ensures { Gives result (declared_by draft.now number octets.now) }
{
    let words = words_in(draft.alloc(), number, octets)?;
    declaring(draft, row_of(number, octets), &words)
}

/// What the line `probe` says.
#[tactic(auto, unfolding(crate::specs::Grammar::probe_line))]
pub(crate) fn probe_line(draft: &Draft, number: u32, octets: &[u8]) -> Result<Ends, ReadFault>
    requires topology { IsTopology (length draft.now.scenario.nodes) draft.now.scenario.links }
    requires short { length octets.now ≤ TEXT_LIMIT }
    ensures { Gives result (probe_line draft.now number octets.now) }
{
    let scenario = draft.scenario();
    if !is_connected(scenario.nodes.len(), scenario.links.as_slice()) {
        return Err(ReadFault::Text(fault_at(number, 1, Reason::Apart)));
    }
    let words = words_in(draft.alloc(), number, octets)?;
    Ok(ends_line(draft, row_of(number, octets), &words)?)
}

/// A line of the probe by its words, after so many joins.
#[tactic(auto, unfolding(crate::specs::Grammar::given_words))]
fn given_words(
    draft: &Draft,
    edge: NodeId,
    joins: usize,
    row: Row,
    words: &[Word],
) -> Result<Option<ProbeLine>, ReadFault>
    ensures { Gives result (given_words draft.now edge joins row (map placed_word words.now)) }
{
    let [first, rest @ ..] = words else {
        return Ok(None);
    };
    if first.text == b"join".as_slice() {
        if joins >= JOIN_LIMIT {
            return Err(ReadFault::Text(fault_at(row.number, first.column, Reason::Limit)));
        }
        return Ok(Some(join_line(draft, edge, row, rest)?));
    }
    if first.text == b"piece".as_slice() {
        return Ok(Some(piece_line(draft, row, rest)?));
    }
    Err(ReadFault::Text(fault_at(row.number, first.column, Reason::Word)))
}

/// What a line of the probe says, after so many joins.
#[tactic(auto, unfolding(crate::specs::Grammar::given_by))]
pub(crate) fn given_by(
    draft: &Draft,
    edge: NodeId,
    joins: usize,
    number: u32,
    octets: &[u8],
) -> Result<Option<ProbeLine>, ReadFault>
    requires { length octets.now ≤ TEXT_LIMIT }
    ensures { Gives result (given_by draft.now edge joins number octets.now) }
{
    let words = words_in(draft.alloc(), number, octets)?;
    given_words(draft, edge, joins, row_of(number, octets), &words)
}
