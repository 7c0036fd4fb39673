//! The text of a scenario and its script. Octets come in, and a script or the first fault with its line goes out:
//! `read` (`reader.rt`), which tries a line before its words and then hands the words to `scenario_lines` or to the
//! events. What is read meets the rules of a scenario: that is the invariant of the loop (`proofs/RulesLemmas.antt`),
//! from what a line without fault keeps to (`LineMeets.antt`). `first_faults` (`laws.rt`) says which fault is the first
//! (`specs/Grammar.antt`, `Faults.antt`). `event_lines`: the words of a line of an event come in, and the event or the
//! first fault goes out. `dispatch.rt` reads a line by its first word, `rules.rt` has the rules that look at several
//! words (RFC 4364 section 4.3.2, RFC 5036 section 2.2.3), and there is a file, with a grammar of its own, for the
//! lines of clocks, sessions, links, flows, selections (RFC 6625 section 2), octets and joins. Below it are
//! `line_words` and `scenario_lines`; above it `mvpn_tool` reads the text of a replay.
#![tactic(auto)]

pub mod event_lines;
mod laws;
mod reader;

pub use laws::first_faults;
pub use line_words::{ReadFault, Reason, TextFault};
pub use reader::read;
