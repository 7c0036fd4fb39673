//! The lines of VRFs.
ghost use Rattle.std.specs.Prelude.{◌≡◌, map};
ghost use Rattle.line_words.specs.Answers.{Gives};
ghost use Rattle.line_words.specs.Words.{placed_word};
ghost use Rattle.scenario_lines.specs.VrfGrammar.{vrf_head, vrf_tail, vrf_rules, vrf_line};

use crate::forms::{count_fault, next_number};
use crate::lists::{is_overlap, is_vpn_taken};
use crate::scenario_draft::{Draft, Line, edge_at, new_name, rd_at, vrf_number_at};
use line_words::{ReadFault, Reason, Row, TextFault, Word, fault_at, rule_at, targets_at};
use mv_base::route_targets::Targets;
use mv_base::{NodeId, Rd, Rule, VrfId};
use scenario_defs::{Name, Vrf};

const VRF_LIMIT: u16 = 256;

/// The first words of a VRF.
#[derive(Clone, Copy)]
pub struct VrfHead {
    pub name: Name,
    pub edge: NodeId,
    pub number: u16,
}

/// The last words of a VRF.
#[derive(Clone, Copy)]
pub struct VrfTail {
    pub rd: Rd,
    pub targets: Targets,
    pub rule: Rule,
}

#[tactic(auto, unfolding(crate::specs::VrfGrammar::vrf_head))]
fn vrf_head(
    draft: &Draft,
    row: Row,
    name: &Word,
    edge: &Word,
    number: &Word,
) -> Result<VrfHead, TextFault>
    ensures { result ≡ vrf_head draft.now row (placed_word name.now) (placed_word edge.now) (placed_word number.now) }
{
    let name = new_name(draft, row, name)?;
    let edge = edge_at(draft, row, edge)?;
    let number = vrf_number_at(draft, row, edge, number)?;
    Ok(VrfHead { name, edge, number })
}

#[tactic(auto, unfolding(crate::specs::VrfGrammar::vrf_tail))]
fn vrf_tail(
    draft: &Draft,
    row: Row,
    edge: NodeId,
    rd: &Word,
    targets: &Word,
    rule: &Word,
) -> Result<VrfTail, ReadFault>
    ensures { Gives result (vrf_tail draft.now row edge (placed_word rd.now) (placed_word targets.now) (placed_word rule.now)) }
{
    let rd = rd_at(draft, row, edge, rd)?;
    let targets = targets_at(draft.alloc(), row, targets)?;
    let rule = rule_at(row, rule)?;
    Ok(VrfTail { rd, targets, rule })
}

#[tactic(auto, unfolding(crate::specs::VrfGrammar::vrf_rules))]
fn vrf_rules(
    draft: &Draft,
    row: Row,
    id: VrfId,
    targets: &Word,
    head: VrfHead,
    tail: VrfTail,
) -> Result<Line, TextFault>
    ensures { result ≡ vrf_rules draft.now row id (placed_word targets.now) head tail }
{
    let vrfs = draft.scenario().vrfs.as_slice();
    if is_overlap(&tail.targets, vrfs) {
        return Err(fault_at(row.number, targets.column, Reason::Overlap));
    }
    if is_vpn_taken(head.edge, &tail.targets, vrfs) {
        return Err(fault_at(row.number, targets.column, Reason::Vpn));
    }
    Ok(Line::Vrf {
        id,
        vrf: Vrf {
            name: head.name,
            edge: head.edge,
            number: head.number,
            rd: tail.rd,
            targets: tail.targets,
            rule: tail.rule,
        },
    })
}

/// The line of a VRF by its words.
#[tactic(auto, unfolding(crate::specs::VrfGrammar::vrf_line, crate::specs::VrfGrammar::vrf_counted, crate::specs::VrfGrammar::vrf_words))]
pub fn vrf_line(draft: &Draft, row: Row, first: &Word, rest: &[Word]) -> Result<Line, ReadFault>
    ensures { Gives result (vrf_line draft.now row (placed_word first.now) (map placed_word rest.now)) }
{
    let number = next_number(draft.scenario().vrfs.len(), VRF_LIMIT, row, first)?;
    let id = VrfId(number);
    let [name, edge, number, rd, targets, rule] = rest else {
        return Err(ReadFault::Text(count_fault(row, rest, 6)));
    };
    let head = vrf_head(draft, row, name, edge, number)?;
    let tail = vrf_tail(draft, row, head.edge, rd, targets, rule)?;
    Ok(vrf_rules(draft, row, id, targets, head, tail)?)
}
