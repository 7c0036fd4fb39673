//! A law of the lines of runs: they name nodes and interfaces of the scenario.

mod laws;

pub use laws::lines_name_what_is_there;
