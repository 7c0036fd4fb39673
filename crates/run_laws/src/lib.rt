//! Laws of runs of whole scripts. Nothing comes in; each law is a function with an empty body. `laws.rt`: events either
//! run, or halt at one of them and at one node, never both, and what happens is one; where events run, the first of
//! them do; events that a scenario allows are of sound values (`specs/Octets.antt`); a plain report, without the lines
//! of the wire (`Plain`), refuses the same events and is safe or delivers once exactly where the report does; and each
//! `state` line reports as many sessions that are not ready as the events before it say (`Ready`). `line_laws`: the
//! lines of each event, and of a halt, name nodes and interfaces of the scenario. `script_values`: what a scenario and
//! its events hold is octets, as their types say; the functions do nothing, and their contracts say so. Below it are
//! `rule_laws`, `delivery_laws` and `edge_routes` (`edge_home`, for the prefixes of sites). Above it `network_acts` and
//! `mvpn_tool` use what is known of a script, and `growth_laws` speaks of runs that halt.
#![tactic(auto)]

mod laws;
pub mod line_laws;
pub mod script_values;

// The names `of_..`: words of lower crates that this crate's contracts are made of.
pub use edge_routes as of_edge_routes;
pub use laws::{
    a_plain_report_says_as_much, first_events_of_a_run_run, one_run_or_one_halt,
    readable_events_are_sound, state_lines_report_unready,
};
pub use rule_laws as of_rule_laws;
