//! Laws of the texts of the generator. Nothing comes in; each law is a function with an empty body. `laws.rt`: the text
//! of each number is without fault, and says the scenario and the events that are written down beside it
//! (`specs/MadeScript.antt`). `growing.rt`: its script meets the rules of scripts and takes nothing back, so it never
//! runs out of labels at any node, and a node holds few. `proofs/EventLines.antt` has one lemma for each kind of line, the
//! files of `Blocks` go line by line, and `Connected` shows that the core is connected. Below it are `generator`, whose
//! text it is about, `scenario_text` with `scenario_lines` and `line_words`, by which a text is read, and
//! `growth_laws`, by which scripts that only grow never halt. Above it `mvpn_tool` promises of `sweep` that it has no
//! fault of the text and does not run out of labels.
#![tactic(auto)]

mod growing;
mod laws;

pub use growing::{
    made_nodes_hold_few_labels, made_runs_never_halt, made_scripts_meet_the_rules,
    made_scripts_only_grow,
};
pub use laws::made_texts_are_read;
