//! The lines of sessions.
ghost use Rattle.std.specs.Prelude.{◌≡◌, map};
ghost use Rattle.line_words.specs.Words.{placed_word};
ghost use Rattle.scenario_text.specs.event_lines.SessionGrammar.{session_event, kind_at, end_at, session_at};
ghost use Rattle.scenario_text.specs.event_lines.SessionGrammar.{session_line, move_line};

use crate::event_lines::rules::{session_fault, unless_broken};
use line_words::{Reason, Row, TextFault, Word, number_at, or_fault};
use mv_base::NodeId;
use scenario_defs::{Event, Kind};
use scenario_lines::scenario_draft::{Draft, Line, edge_at, node_at};
use scenario_lines::{count_fault, meaning_of};

/// The most octets that one event moves.
const MOVE_LIMIT: u32 = 999_999_999;

/// The events of a session.
#[derive(Clone, Copy)]
pub enum SessionWord {
    Lose,
    Notice,
    Raise,
}

/// A protocol and two nodes.
#[derive(Clone, Copy)]
pub struct Session {
    pub kind: Kind,
    pub a: NodeId,
    pub b: NodeId,
}

fn session_event(word: SessionWord, named: Session) -> Event
    ensures { result ≡ session_event word named }
{
    let Session { kind, a, b } = named;
    match word {
        SessionWord::Lose => Event::Lose { kind, a, b },
        SessionWord::Notice => Event::Notice { kind, a, b },
        SessionWord::Raise => Event::Raise { kind, a, b },
    }
}

#[tactic(auto, unfolding(crate::specs::event_lines::SessionGrammar::kind_at))]
fn kind_at(row: Row, word: &Word) -> Result<Kind, TextFault>
    ensures { result ≡ kind_at row (placed_word word.now) }
{
    let kind = meaning_of(word.text, &[(b"bgp", Kind::Bgp), (b"ldp", Kind::Ldp)]);
    or_fault(kind, row, word, Reason::Choice)
}

/// An end of a session: over BGP an edge, over LDP any node.
fn end_at(draft: &Draft, row: Row, kind: Kind, word: &Word) -> Result<NodeId, TextFault>
    ensures { result ≡ end_at draft.now row kind (placed_word word.now) }
{
    match kind {
        Kind::Bgp => edge_at(draft, row, word),
        Kind::Ldp => node_at(draft, row, word),
    }
}

#[tactic(auto, unfolding(crate::specs::event_lines::SessionGrammar::session_at))]
fn session_at(
    draft: &Draft,
    row: Row,
    kind: &Word,
    a: &Word,
    b: &Word,
) -> Result<Session, TextFault>
    ensures { result ≡ session_at draft.now row (placed_word kind.now) (placed_word a.now) (placed_word b.now) }
{
    let kind = kind_at(row, kind)?;
    let a = end_at(draft, row, kind, a)?;
    let b = end_at(draft, row, kind, b)?;
    Ok(Session { kind, a, b })
}

/// The line of a session that is lost, noticed to be lost or raised, by the words after the first one.
#[tactic(auto, unfolding(crate::specs::event_lines::SessionGrammar::session_line, crate::specs::event_lines::SessionGrammar::session_words))]
pub fn session_line(
    draft: &Draft,
    row: Row,
    word: SessionWord,
    words: &[Word],
) -> Result<Line, TextFault>
    ensures { result ≡ session_line draft.now row word (map placed_word words.now) }
{
    let [kind, a, b] = words else {
        return Err(count_fault(row, words, 3));
    };
    let named = session_at(draft, row, kind, a, b)?;
    let links = draft.scenario().links.as_slice();
    let broken = session_fault(links, named.kind, named.a, named.b);
    let event = session_event(word, named);
    unless_broken(broken, row, b, Line::Event { event })
}

/// The line of octets that move on a session, by the words after the first one.
#[tactic(auto, unfolding(crate::specs::event_lines::SessionGrammar::move_line, crate::specs::event_lines::SessionGrammar::move_words))]
pub fn move_line(draft: &Draft, row: Row, words: &[Word]) -> Result<Line, TextFault>
    ensures { result ≡ move_line draft.now row (map placed_word words.now) }
{
    let [kind, a, b, count] = words else {
        return Err(count_fault(row, words, 4));
    };
    let named = session_at(draft, row, kind, a, b)?;
    let count = number_at(row, count, MOVE_LIMIT)?;
    let links = draft.scenario().links.as_slice();
    let broken = session_fault(links, named.kind, named.a, named.b);
    let event = Event::Move {
        kind: named.kind,
        from: named.a,
        to: named.b,
        count,
    };
    unless_broken(broken, row, b, Line::Event { event })
}
