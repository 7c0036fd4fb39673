//! The text of the lines of a report. A line comes in, and its octets go out: `write_line` (`writer.rt`), over the
//! words of a line (`pieces.rt`) and octets in digits (`digits.rt`). What the text is, is said once, as `line_text` in
//! `scenario_defs/specs/Text.antt`. `report_lines`: the other way. The words of a text come in, and the line that it
//! is, or none, goes out: `read_line` finds the one line that the words can name (by fields, names and words), writes
//! it, and compares. So a line that is answered is written so, and no other is looked for. `has_type_bounds` shows of
//! any line what the types of the program say of it. No crate uses `read_line`: it says that the text of a report loses
//! nothing. Below it are `mv_base` and `scenario_defs`. Above it `mvpn_tool` writes reports, and `generator` and
//! `value_text` use numbers and octets in digits for their own lines.
#![tactic(auto)]

mod digits;
mod pieces;
pub mod report_lines;
mod writer;

pub use digits::{put_digits, put_hex};
pub use pieces::{put_number, put_then};
pub use writer::write_line;
