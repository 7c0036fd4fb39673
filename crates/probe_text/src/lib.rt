//! The text of the command `probe`: octets come in, and a scenario, two of its edges and the lines of a probe go out, or the
//! first fault with its line: `read` (`reader.rt`), which looks for the line `probe` (`mark.rt`) and reads the lines before
//! it as those of a scenario, and those after it by their words (`lines.rt`). `specs/Grammar.antt` says what each line
//! says and which fault is the first. What is read meets the conditions of a probe (`IsProbe` of `probe_defs`), so the
//! caller need not test it. In `proofs/`, `FrontLemmas` has the lines before the line `probe`, and `ReadLemmas` why what
//! is read is a probe. Below it are `line_words` for the words of a line, `scenario_lines` for those of a scenario, and
//! `probe_defs`, whose words it hands on; `edge_probe` answers what is read.
#![tactic(auto)]

mod input;
mod lines;
mod mark;
mod reader;

pub use input::{Ends, ProbeText};
// The name `of_..`: words of a lower crate that the contract is made of.
pub use probe_defs as of_probe_defs;
pub use reader::read;
