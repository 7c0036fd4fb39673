//! The lines of nodes and links.
ghost use Rattle.std.specs.Prelude.{◌≡◌, map, count_by};
ghost use Rattle.line_words.specs.Words.{placed_word};
ghost use Rattle.scenario_lines.specs.NodeGrammar.{is_full, node_line, link_between, link_line};

use crate::forms::count_fault;
use crate::scenario_draft::{Draft, Line, new_name, node_addr_at, node_at, other_end_at};
use line_words::{Reason, Row, TextFault, Word, fault_at, number_at};
use mv_base::{Link, NodeId};
use scenario_defs::{Node, Scenario};

const NODE_LIMIT: usize = 64;

/// The most nodes that are edges.
const EDGE_LIMIT: usize = 32;

const LINK_LIMIT: usize = 256;

const COST_LIMIT: u32 = 65535;

fn edge_count(nodes: &[Node]) -> usize
    ensures { result ≡ count_by (λ node. node.edge) nodes.now }
{
    nodes.iter().filter(|node| node.edge).count()
}

/// Whether there is room for no more nodes, or for no more edges where it is one.
fn is_full(scenario: &Scenario, edge: bool) -> bool
    ensures { result ≡ is_full scenario.now edge }
{
    let edges = edge_count(scenario.nodes.as_slice());
    scenario.nodes.len() >= NODE_LIMIT || (edge && edges >= EDGE_LIMIT)
}

/// The line of a node by its words.
#[tactic(auto, unfolding(crate::specs::NodeGrammar::node_line, crate::specs::NodeGrammar::node_counted, crate::specs::NodeGrammar::node_words))]
pub fn node_line(
    draft: &Draft,
    row: Row,
    edge: bool,
    first: &Word,
    rest: &[Word],
) -> Result<Line, TextFault>
    ensures { result ≡ node_line draft.now row edge (placed_word first.now) (map placed_word rest.now) }
{
    let scenario = draft.scenario();
    if is_full(scenario, edge) {
        return Err(fault_at(row.number, first.column, Reason::Limit));
    }
    let number = scenario.nodes.len();
    let id = NodeId(number as u16);
    let [name, addr] = rest else {
        return Err(count_fault(row, rest, 2));
    };
    let name = new_name(draft, row, name)?;
    let addr = node_addr_at(draft, row, addr)?;
    Ok(Line::Node {
        id,
        node: Node { name, addr, edge },
    })
}

#[tactic(auto, unfolding(crate::specs::NodeGrammar::link_between))]
fn link_between(row: Row, b: &Word, from: NodeId, to: NodeId, cost: u32) -> Result<Line, TextFault>
    ensures { result ≡ link_between row (placed_word b.now) from to cost }
{
    if from.0 == to.0 {
        return Err(fault_at(row.number, b.column, Reason::Same));
    }
    Ok(Line::Link {
        link: Link {
            a: from,
            b: to,
            cost,
        },
    })
}

/// The line of a link by its words.
#[tactic(auto, unfolding(crate::specs::NodeGrammar::link_line, crate::specs::NodeGrammar::link_counted, crate::specs::NodeGrammar::link_words))]
pub fn link_line(draft: &Draft, row: Row, first: &Word, rest: &[Word]) -> Result<Line, TextFault>
    ensures { result ≡ link_line draft.now row (placed_word first.now) (map placed_word rest.now) }
{
    if draft.scenario().links.len() >= LINK_LIMIT {
        return Err(fault_at(row.number, first.column, Reason::Limit));
    }
    let [a, b, cost] = rest else {
        return Err(count_fault(row, rest, 3));
    };
    let from = node_at(draft, row, a)?;
    let to = other_end_at(draft, row, from, b)?;
    let cost = number_at(row, cost, COST_LIMIT)?;
    link_between(row, b, from, to, cost)
}
