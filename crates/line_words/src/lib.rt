//! What a line of text is made of. Octets of a text come in, and the words of a line, what each of them writes by
//! itself, or a fault goes out. `words.rt` cuts a text into lines and a line into words; `lines.rt` has the words of a
//! line that says something, or that it is too long or has an octet that no text has; `forms.rt` the form of a name,
//! numbers, addresses of either family (RFC 4291 section 2.7 and RFC 5771 for groups), a prefix, a target (RFC 4360
//! section 4), a route distinguisher (RFC 4364 section 4.2) and octets as words; `lists.rt` targets and prefixes with
//! commas. `fault.rt` has the faults of a text with their lines, and the most octets that a text may have. The
//! definitions are `Words`, `Lines`, `Forms`, `Parts`, `FaultText` and `Answers` in `specs/`; `proofs/WordsLemmas.antt`
//! has the lemmas on the parts of a line, and `AddrLemmas.antt` that texts of addresses are ASCII, so that they are read
//! as text. Below it are `mv_base` and `scenario_defs`; above it `scenario_lines` and `scenario_text` read the lines of a
//! scenario and of its events, `audit_text`, `ingress_text` and `probe_text` those of other commands, and `decode_text`
//! the octets of `decode`.
#![tactic(auto)]

mod fault;
mod forms;
mod lines;
mod lists;
mod words;

pub use fault::{ReadFault, Reason, TEXT_LIMIT, TextFault, fault_at, reason_word};
pub use forms::{
    addr_at, group_at, ipv4_at, is_name, is_unicast, number_at, or_fault, payload_at, rd_of,
    rule_at, same_family, source_at, target_of, vrf_number_of,
};
pub use lines::{are_spaces, row_of, words_in};
pub use lists::{prefixes_at, targets_at};
pub use words::{Row, Word, place_of, split_line, unspaced};
