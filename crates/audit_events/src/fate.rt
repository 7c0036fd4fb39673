//! What became of the events of a script, by the markers of a report.
use audit_defs::of_mv_base::Seq;

/// What became of an event.
#[derive(Clone, Copy, PartialEq, Eq)]
pub enum Fate {
    /// It has no marker, and its octets are in their grammar.
    Accepted,
    /// A `refused` line names it, or its octets are not in their grammar.
    Refused,
    /// It is `state`, and its line has five zeros.
    Calm,
    /// It is `state`, and its line tells of no copy on a link, but is not calm.
    Clear,
    /// It is `state`, and its line tells of copies on links.
    Busy,
}

/// An event that has a marker: its place in the script, counted from 0, and what the marker says of it.
#[derive(Clone, Copy, PartialEq, Eq)]
pub struct Marked {
    pub place: usize,
    pub fate: Fate,
}

pub type MarkedEvents = Seq<Marked>;
