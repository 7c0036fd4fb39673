//! What the `out` lines of a report say: which datagrams left where.
ghost use Rattle.std.specs.Prelude.{◌≡◌, ◌||◌, not, length, is_some, IfOk, OnOk};
ghost use Rattle.indexmap.specs.IndexMap.{get, IsUnique};
ghost use Rattle.mvpn_audit.specs.declared.exits.Exit.{Exit};
ghost use Rattle.mvpn_audit.specs.Exits.{is_exit, has_exit, noted_if, says, asked_if, asks, lacks_in, AreOutLines};

use audit_events::of_audit_defs::Numbered;
use audit_events::of_mv_base::{IfaceId, NoMemory, Seq};
use audit_events::of_scenario_defs::ReportLine;
use indexmap::IndexMap;
use std::alloc::Global;

/// A datagram, by its number, that left at an interface.
#[derive(Clone, Copy, PartialEq, Eq, Hash)]
pub(crate) struct Exit {
    pub number: u64,
    pub iface: IfaceId,
}

/// The datagrams that left, and where; of each, whether it was asked for there.
pub(crate) type Exits = IndexMap<Exit, bool>;

/// What the `out` lines of a report say.
#[derive(Drop)]
pub(crate) struct OutLines {
    pub exits: Exits,
    /// By lines of the report: whether it is an `out` line, and an earlier one has its number and interface.
    pub repeats: Seq<bool>,
}

/// Notes where a datagram left, if the line says so. Whether an earlier line did.
fn note(exits: &mut Exits, value: &ReportLine) -> Result<bool, NoMemory>
    requires { IsUnique is_exit exits.old }
    ensures each { (own : Exit) → OnOk result (get is_exit exits.new own ≡ noted_if (says value.now own) (get is_exit exits.old own)) }
    ensures earlier { IfOk result (λ earlier. earlier ≡ has_exit exits.old value.now) }
    ensures unique { OnOk result (IsUnique is_exit exits.new) }
{
    match value {
        ReportLine::Out {
            number,
            iface,
            bytes: _,
        } => {
            let exit = Exit {
                number: *number,
                iface: *iface,
            };
            Ok(exits.insert(exit, false)?.is_some())
        }
        _ => Ok(false),
    }
}

/// What the `out` lines say. Of no datagram is it known yet that it was asked for.
pub(crate) fn out_lines(alloc: Global, lines: &[Numbered]) -> Result<OutLines, NoMemory>
    ensures { IfOk result (λ outs. AreOutLines lines.now (length lines.now) outs) }
{
    let mut exits = IndexMap::new(alloc);
    let mut repeats = Seq::new(alloc);
    for numbered in lines {
        repeats.push(note(&mut exits, &numbered.value)?)?;
    }
    Ok(OutLines { exits, repeats })
}

/// Notes that a datagram was asked for at an interface, where it left there. Whether it did.
fn ask(exits: &mut Exits, exit: Exit) -> bool
    requires { IsUnique is_exit exits.old }
    ensures each { (own : Exit) → get is_exit exits.new own ≡ asked_if (is_exit exit own) (get is_exit exits.old own) }
    ensures left { result ≡ is_some (get is_exit exits.old exit) }
    ensures unique { IsUnique is_exit exits.new }
{
    match exits.get_mut(&exit) {
        Some(asked) => {
            *asked = true;
            true
        }
        None => false,
    }
}

/// Whether one was lacking before, or the next one did not leave.
fn any_lacks(before: bool, left: bool) -> bool
    ensures { result ≡ (before || not left) }
{
    before || !left
}

/// Notes that the datagram of that number was asked for at the interfaces, where it left there. Whether it did not leave
/// at one of them.
pub(crate) fn ask_all(exits: &mut Exits, number: u64, asked: &[IfaceId]) -> bool
    requires { IsUnique is_exit exits.old }
    ensures each { (own : Exit) → get is_exit exits.new own ≡ asked_if (asks number asked.now own) (get is_exit exits.old own) }
    ensures lacks { result ≡ lacks_in exits.old number asked.now }
    ensures unique { IsUnique is_exit exits.new }
{
    let mut lacks = false;
    for iface in asked {
        let left = ask(
            exits,
            Exit {
                number,
                iface: *iface,
            },
        );
        lacks = any_lacks(lacks, left);
    }
    lacks
}
