//! A line of a scenario, by its first word.
ghost use Rattle.std.specs.Prelude.{◌≡◌, length, map, IfOk};
ghost use Rattle.mv_base.specs.core_walks.Topology.{IsTopology};
ghost use Rattle.mv_base.specs.core_walks.Reached.{is_connected};
ghost use Rattle.line_words.specs.Answers.{Gives};
ghost use Rattle.line_words.specs.Words.{placed_word};
ghost use Rattle.scenario_lines.specs.ScenarioGrammar.{scenario_word, events_line, scenario_words, scenario_line};

use crate::forms::meaning_of;
use crate::node_lines::{link_line, node_line};
use crate::scenario_draft::{Draft, Line, Setting};
use crate::setting_lines::setting_line;
use crate::site_lines::{iface_line, site_line};
use crate::vrf_lines::vrf_line;
use line_words::{ReadFault, Reason, Row, TextFault, Word, fault_at, or_fault};
use mv_base::core_walks::is_connected;

/// What the first word of a line begins.
#[derive(Clone, Copy)]
pub enum ScenarioWord {
    Edge,
    Core,
    Link,
    Vrf,
    Site,
    Iface,
    Setting(Setting),
    Events,
}

/// The first words, and what each begins.
const WORDS: [(&[u8], ScenarioWord); 11] = [
    (b"edge", ScenarioWord::Edge),
    (b"core", ScenarioWord::Core),
    (b"link", ScenarioWord::Link),
    (b"vrf", ScenarioWord::Vrf),
    (b"site", ScenarioWord::Site),
    (b"iface", ScenarioWord::Iface),
    (b"events", ScenarioWord::Events),
    (b"life", ScenarioWord::Setting(Setting::Life)),
    (b"delay", ScenarioWord::Setting(Setting::Delay)),
    (b"labels", ScenarioWord::Setting(Setting::Labels)),
    (b"as", ScenarioWord::Setting(Setting::System)),
];

#[tactic(auto, unfolding(crate::specs::ScenarioGrammar::scenario_word))]
fn scenario_word(row: Row, first: &Word) -> Result<ScenarioWord, TextFault>
    ensures { result ≡ scenario_word row (placed_word first.now) }
{
    or_fault(meaning_of(first.text, &WORDS), row, first, Reason::Word)
}

/// Whether each node is reached from the first one.
fn is_core_connected(draft: &Draft) -> bool
    requires topology { IsTopology (length draft.now.scenario.nodes) draft.now.scenario.links }
    ensures { result ≡ is_connected (length draft.now.scenario.nodes) draft.now.scenario.links }
{
    let scenario = draft.scenario();
    is_connected(scenario.nodes.len(), scenario.links.as_slice())
}

#[tactic(auto, unfolding(crate::specs::ScenarioGrammar::events_line))]
fn events_line(draft: &Draft, row: Row, words: &[Word]) -> Result<Line, TextFault>
    requires topology { IsTopology (length draft.now.scenario.nodes) draft.now.scenario.links }
    ensures { result ≡ events_line draft.now row (map placed_word words.now) }
{
    match words {
        [] => {
            if !is_core_connected(draft) {
                return Err(fault_at(row.number, 1, Reason::Apart));
            }
            Ok(Line::Events)
        }
        [extra, ..] => Err(fault_at(row.number, extra.column, Reason::Count)),
    }
}

#[tactic(auto, unfolding(crate::specs::ScenarioGrammar::scenario_words))]
fn scenario_words(
    draft: &Draft,
    row: Row,
    kind: ScenarioWord,
    first: &Word,
    rest: &[Word],
) -> Result<Line, ReadFault>
    requires topology { IsTopology (length draft.now.scenario.nodes) draft.now.scenario.links }
    ensures { Gives result (scenario_words draft.now row kind (placed_word first.now) (map placed_word rest.now)) }
{
    match kind {
        ScenarioWord::Edge => Ok(node_line(draft, row, true, first, rest)?),
        ScenarioWord::Core => Ok(node_line(draft, row, false, first, rest)?),
        ScenarioWord::Link => Ok(link_line(draft, row, first, rest)?),
        ScenarioWord::Vrf => vrf_line(draft, row, first, rest),
        ScenarioWord::Site => site_line(draft, row, first, rest),
        ScenarioWord::Iface => Ok(iface_line(draft, row, first, rest)?),
        ScenarioWord::Setting(setting) => Ok(setting_line(draft, row, setting, first, rest)?),
        ScenarioWord::Events => Ok(events_line(draft, row, rest)?),
    }
}

/// A line of the scenario by its words. The nodes and links so far are a topology, so that the last line can ask whether it
/// is connected.
#[tactic(auto, unfolding(crate::specs::ScenarioGrammar::scenario_line))]
pub fn scenario_line(
    draft: &Draft,
    row: Row,
    first: &Word,
    rest: &[Word],
) -> Result<Line, ReadFault>
    requires topology { IsTopology (length draft.now.scenario.nodes) draft.now.scenario.links }
    ensures { Gives result (scenario_line draft.now row (placed_word first.now) (map placed_word rest.now)) }
{
    let kind = scenario_word(row, first)?;
    scenario_words(draft, row, kind, first, rest)
}
