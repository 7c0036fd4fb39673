//! Laws of the judgement of a finished report. Nothing comes in; each law is a function with an empty body (`laws.rt`).
//! A report has no offence exactly where its markers fit, no node ran out of labels, and the report as its markers cut it is
//! safe and delivers once (`proofs/Fair.antt` over `Safety` and `Delivery`). The report of a run of all events has none,
//! whole or plain (`RunsFair`): each of its lines is given to its own event or an earlier one (`Shapes`, `Origins`), since
//! no event but `state` and a refused one gives a marker (`EventLines`). Markers that begin to fit begin a list that fits,
//! and a report has one verdict at most. `Rows` are worked rows of markers. Below it are `audit_defs` and the laws of runs
//! (`delivery_laws`, `once_laws`, `run_laws`).
#![tactic(auto)]

mod laws;

pub use laws::{
    markers_begin_a_list_that_fits, no_offence_is_fair, one_verdict, runs_have_no_offence,
};
