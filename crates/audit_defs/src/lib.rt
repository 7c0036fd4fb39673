//! What a finished report offends against, by its script and its own refusals and state lines alone. Nothing comes in:
//! these are the numbered lines of a report, the offences and the verdict (`verdict.rt`), and the words of the judgement
//! in `specs/`. `Markers` says which lines fit which events; `Cut` which events count as refused, and which event each
//! line is given to, so that a report becomes entries of `mvpn_model`; `Offences` each offence as a relation, and
//! `Verdicts` the least one, and what it is that a report has none. Nothing there follows the pass of any code. `proofs/`
//! has what both the laws and the code stand on: that the front of fitting markers begins to fit (`Fitting`), and that
//! markers which begin to fit begin a list that fits (`Begins`). Below it are `mvpn_model` and `scenario_defs`, whose
//! words it hands on; above it `audit_laws` ties no offence to safe and once, and `audit_events` and `mvpn_audit` are the
//! judgement as code.
#![tactic(auto)]

mod verdict;

// The names `of_..`: words of lower crates that this crate's contracts are made of.
pub use mv_base as of_mv_base;
pub use mvpn_model as of_mvpn_model;
pub use scenario_defs as of_scenario_defs;
pub use verdict::{Numbered, NumberedLines, Offence, ReportLines, Verdict};
