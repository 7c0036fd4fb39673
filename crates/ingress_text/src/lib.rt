//! The command `ingress`: a text comes in, and what a root and its peers do by it goes out. `read` (`reader.rt`) reads the
//! text: the route of the root (`root.rt`), the leaves that answer it, and the octets that come from other peers
//! (`lines.rt`, over what the lines so far said, `draft.rt`). `tell` (`telling.rt`) goes through its lines: a leaf answers,
//! octets are taken as from their peer, the first fault of a peer is told, and at the end the copies that the root sends
//! (`peers.rt`, `put.rt`). `specs/Grammar.antt` says what a text says and which fault is its first, and
//! `specs/Telling.antt` what is told of it. Below it are `ingress_rep`, which has the answers and the copies, `line_words`
//! for the words of a line, and `report_text` and `value_text` for numbers, digits and the words of faults; above it
//! `mvpn_tool` runs the command.
#![tactic(auto)]

mod draft;
mod input;
mod lines;
mod peers;
mod put;
mod reader;
mod root;
mod telling;

pub use input::{Input, Label, Line, Root, Said};
pub use reader::read;
pub use telling::{Told, tell};
