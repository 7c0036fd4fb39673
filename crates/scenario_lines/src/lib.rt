//! The lines of a scenario. The words of a line come in, and what the line declares or its first fault goes out, given
//! what the lines before it declared: `scenario_line` (`scenario_lines.rt`) reads a line by its first word, and the
//! files beside it the lines of settings, nodes and links, VRFs, sites and interfaces, each with a grammar of its own
//! in `specs/` (`ScenarioGrammar`, `SettingGrammar`, `NodeGrammar`, `VrfGrammar`, `SiteGrammar`); `lists.rt` has looks
//! through the lists of a scenario, and `forms.rt` what all kinds of lines share. `scenario_draft`: what the lines so
//! far declared, with the table of names, the settings and which of them were given, the words that declare or name a
//! thing, and what one more line may declare (`Declaring`). A line that keeps to it keeps the rules of a scenario, of
//! what it leaves as it is and of the one thing more. Below it are `line_words` and `scenario_defs`; above it
//! `scenario_text` reads a whole text line by line.
#![tactic(auto)]

mod forms;
mod lists;
mod node_lines;
pub mod scenario_draft;
mod scenario_lines;
mod setting_lines;
mod site_lines;
mod vrf_lines;

pub use forms::{count_fault, meaning_of};
pub use scenario_lines::scenario_line;
