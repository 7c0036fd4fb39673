//! The text that `audit` reads: a scenario and its script, the line `report`, and the lines of a report. Octets come
//! in, and the script and the numbered lines, or the first fault, go out: `read_audit` (`reader.rt`), which looks for
//! the line `report` first (`mark.rt`), hands the lines before it to `scenario_text`, and reads each line after it by
//! `read_line` of `report_text`. What such a text says, and its first fault, is `Says` and `HasFault` in
//! `specs/Texts.antt`, relations without an order of reading: a text says one script and one report, or has a fault,
//! and not both (`laws.rt`), and a script that is read, with the line `report` and lines of a report after it, is such
//! a text. Below it are `scenario_text`, `report_text` and `audit_defs`; above it `mvpn_tool` shows that what `replay`
//! writes after its script is one.
#![tactic(auto)]

mod laws;
mod mark;
mod reader;

pub use laws::{reports_are_said, texts_say_one_thing};
pub use reader::{AuditText, read_audit};
