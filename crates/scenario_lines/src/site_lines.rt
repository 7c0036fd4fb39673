//! The lines of sites and interfaces.
ghost use Rattle.std.specs.Prelude.{◌≡◌, map};
ghost use Rattle.line_words.specs.Answers.{Gives};
ghost use Rattle.line_words.specs.Words.{placed_word};
ghost use Rattle.scenario_lines.specs.SiteGrammar.{site_line, iface_rules, iface_line};

use crate::forms::{count_fault, next_number};
use crate::lists::{is_any_mixed, is_any_taken};
use crate::scenario_draft::{Draft, Line, new_name, site_at, vrf_at};
use line_words::{ReadFault, Reason, Row, TextFault, Word, addr_at, fault_at, prefixes_at};
use mv_base::{IfaceId, SiteId};
use scenario_defs::{Iface, Site};

const SITE_LIMIT: u16 = 512;

const IFACE_LIMIT: u16 = 1024;

/// The line of a site by its words.
#[tactic(auto, unfolding(crate::specs::SiteGrammar::site_line, crate::specs::SiteGrammar::site_counted, crate::specs::SiteGrammar::site_words))]
pub fn site_line(draft: &Draft, row: Row, first: &Word, rest: &[Word]) -> Result<Line, ReadFault>
    ensures { Gives result (site_line draft.now row (placed_word first.now) (map placed_word rest.now)) }
{
    let number = next_number(draft.scenario().sites.len(), SITE_LIMIT, row, first)?;
    let id = SiteId(number);
    let [name, prefixes] = rest else {
        return Err(ReadFault::Text(count_fault(row, rest, 2)));
    };
    let name = new_name(draft, row, name)?;
    let prefixes = prefixes_at(draft.alloc(), row, prefixes)?;
    Ok(Line::Site {
        id,
        site: Site { name, prefixes },
    })
}

#[tactic(auto, unfolding(crate::specs::SiteGrammar::iface_rules))]
fn iface_rules(
    draft: &Draft,
    row: Row,
    id: IfaceId,
    site: &Word,
    iface: Iface,
) -> Result<Line, TextFault>
    ensures { result ≡ iface_rules draft.now row id (placed_word site.now) iface }
{
    let scenario = draft.scenario();
    if is_any_mixed(scenario, &iface, scenario.ifaces.as_slice()) {
        return Err(fault_at(row.number, site.column, Reason::Mixed));
    }
    if is_any_taken(scenario, &iface, scenario.ifaces.as_slice()) {
        return Err(fault_at(row.number, site.column, Reason::Taken));
    }
    Ok(Line::Iface { id, iface })
}

/// The line of an interface by its words.
#[tactic(auto, unfolding(crate::specs::SiteGrammar::iface_line, crate::specs::SiteGrammar::iface_counted, crate::specs::SiteGrammar::iface_parts))]
pub fn iface_line(draft: &Draft, row: Row, first: &Word, rest: &[Word]) -> Result<Line, TextFault>
    ensures { result ≡ iface_line draft.now row (placed_word first.now) (map placed_word rest.now) }
{
    let number = next_number(draft.scenario().ifaces.len(), IFACE_LIMIT, row, first)?;
    let id = IfaceId(number);
    let [name, vrf, site, addr] = rest else {
        return Err(count_fault(row, rest, 4));
    };
    let iface = Iface {
        name: new_name(draft, row, name)?,
        vrf: vrf_at(draft, row, vrf)?,
        site: site_at(draft, row, site)?,
        addr: addr_at(row, addr)?,
    };
    iface_rules(draft, row, id, site, iface)
}
