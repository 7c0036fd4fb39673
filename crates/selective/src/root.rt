//! The tunnels of a root.
ghost use Rattle.std.specs.Prelude.{◌≡◌, ◌≤◌, ◌<◌, ◌^◌, ◌+◌, ◌++◌, ◌∷◌, [], ◌↔◌, not, false, length};
ghost use Rattle.std.specs.Prelude.{filter, map, count_by, option_map, IsTrue, IfSome, IfOk, OnOk, OnErr};
ghost use Rattle.std.specs.List.{list_any};
ghost use Rattle.selective_defs.specs.Selective.{chosen, has_number, is_ready, matches, next_number, transmitted};
ghost use Rattle.selective.specs.Roots.{AreSelections, IsSelected, added, is_of, is_waiting, lsp_number, number_at, run_due, selected_now};

use crate::delay::is_due;
use mv_base::{Addr, NoMemory, Pattern};
use selective_defs::Selection;
use std::alloc::Global;
use std::marker::Model;

/// How many numbers of LSPs each VRF has: that of its inclusive tunnel, and those of its selective ones.
const LSPS_OF_VRF: u32 = 1_048_576;

/// Whether the selection is that of the pattern.
fn is_of(selection: &Selection, pattern: Pattern) -> bool
    ensures { result ≡ is_of pattern selection.now }
{
    selection.pattern == pattern
}

/// Whether the flow is one of the pattern.
fn matches(pattern: &Pattern, source: Addr, group: Addr) -> bool
    ensures { result ≡ matches pattern.now source group }
{
    pattern.matches(source, group)
}

/// Whether the selection matches the flow and its delay was run.
fn is_ready(selection: &Selection, source: Addr, group: Addr) -> bool
    ensures { result ≡ is_ready source group selection.now }
{
    selection.run && matches(&selection.pattern, source, group)
}

/// The more specific one of a selection, where it is ready, and of what is chosen of the others.
fn choose(ready: bool, selection: Selection, rest: Option<Selection>) -> Option<Selection>
    ensures { result ≡ chosen ready selection rest }
{
    match rest {
        _ if !ready => rest,
        Some(other) if selection.pattern.rank() < other.pattern.rank() => rest,
        _ => Some(selection),
    }
}

/// The selection on whose tunnel the flow is transmitted.
fn transmitted(selections: &[Selection], source: Addr, group: Addr) -> Option<Selection>
    ensures { result ≡ transmitted selections.now source group }
{
    match selections {
        [] => None,
        [first, rest @ ..] => choose(
            is_ready(first, source, group),
            *first,
            transmitted(rest, source, group),
        ),
    }
}

/// What the tunnel of the flow adds to the number of the inclusive tunnel.
fn transmit_number(selections: &[Selection], source: Addr, group: Addr) -> u32
    ensures { result ≡ added (transmitted selections.now source group) }
{
    match transmitted(selections, source, group) {
        None => 0,
        Some(selection) => selection.number,
    }
}

/// Whether a selection has the number.
fn has_number(selections: &[Selection], number: u32) -> bool
    ensures { result ≡ list_any (has_number number) selections.now }
{
    selections
        .iter()
        .any(|selection| selection.number == number)
}

/// The least number from 1 on that no selection has.
fn next_number(selections: &[Selection]) -> u32
    requires { length selections.now < 256 }
    ensures { result ≡ next_number selections.now }
{
    let last = selections.len() as u32 + 1;
    for number in 1..last {
        if !has_number(selections, number) {
            return number;
        }
    }
    last
}

/// The number that the selection of the pattern has.
fn number_of(selections: &[Selection], pattern: Pattern) -> Option<u32>
    ensures { result ≡ number_at pattern selections.now }
{
    selections
        .iter()
        .find(|selection| is_of(selection, pattern))
        .map(|selection| selection.number)
}

/// Forgets the selection of the pattern.
fn forget(selections: &mut Vec<Selection>, pattern: Pattern)
    ensures { selections.new.items ≡ filter (λ selection. not (is_of pattern selection)) selections.old.items }
{
    selections.retain(|selection| !is_of(selection, pattern));
}

/// The selection, with its delay run where that is due.
fn with_delay_run(selection: Selection, delay: u64, now: u64) -> Selection
    ensures { result ≡ run_due delay now selection }
{
    Selection {
        run: selection.run || is_due(delay, now, selection.since),
        ..selection
    }
}

/// Runs the delay of each selection that is due.
fn run_due(selections: &mut Vec<Selection>, delay: u64, now: u64)
    ensures { selections.new.items ≡ map (run_due delay now) selections.old.items }
{
    for selection in selections.iter_mut() {
        *selection = with_delay_run(*selection, delay, now);
    }
}

/// How many selections are due and not run.
fn count_waiting(selections: &[Selection], delay: u64, now: u64) -> u64
    ensures { result ≡ count_by (is_waiting delay now) selections.now }
{
    selections
        .iter()
        .filter(|selection| !selection.run && is_due(delay, now, selection.since))
        .count() as u64
}

/// The LSP number of the tunnel that adds this to the number of the VRF's inclusive one.
fn lsp_number(vrf: u16, number: u32) -> u32
    requires vrf { vrf ≤ 4095 }
    requires number { number < 2 ^ 20 }
    ensures { result ≡ lsp_number vrf number }
{
    u32::from(vrf) * LSPS_OF_VRF + number
}

/// The same of a number that may be there.
fn lsp_number_of(vrf: u16, number: Option<u32>) -> Option<u32>
    requires vrf { vrf ≤ 4095 }
    requires number { IfSome number (λ n. n < 2 ^ 20) }
    ensures { result ≡ option_map (lsp_number vrf) number }
{
    match number {
        None => None,
        Some(number) => Some(lsp_number(vrf, number)),
    }
}

/// The tunnels of a VRF at a root: the inclusive one, and one for each pattern that is selected, at most 256.
#[derive(Drop)]
pub struct RootTunnels {
    number: u16,
    delay: u64,
    selections: Vec<Selection>,
}

impl Model for RootTunnels {
    ghost use Rattle.selective.specs.Roots.{IsRoot, Root};

    ghost Value = { Root };

    ghost view = { λ t. record { number = t.number; delay = t.delay; selections = t.selections.items } };

    ghost invariant = { λ t. IsRoot t.number t.delay t.selections.items };
}

impl RootTunnels {
    /// No selection, for the VRF of that number. A selection waits for the delay before flows go on its tunnel.
    pub fn of(alloc: Global, number: u16, delay: u64) -> RootTunnels
        requires least { 1 ≤ number }
        requires most { number ≤ 4095 }
        requires some { 1 ≤ delay }
        requires short { delay ≤ 1000 }
        ensures { result ≡ record { number = number; delay = delay; selections = [] } }
    {
        RootTunnels {
            number,
            delay,
            selections: Vec::new(alloc),
        }
    }

    /// Selects the pattern from now on. The LSP number of its tunnel is that of the VRF times 2^20 and the least number
    /// from 1 on that no other selection of the VRF has.
    pub fn select(&mut self, pattern: Pattern, now: u64) -> Result<u32, NoMemory>
        requires new { ¬ (IsSelected pattern self.old.selections) }
        requires few { length self.old.selections < 256 }
        requires now { now < 2 ^ 63 }
        ensures number { IfOk result (λ lsp. lsp ≡ lsp_number self.old.number (next_number self.old.selections)) }
        ensures selected { OnOk result (self.new ≡
            record self.old { selections = self.old.selections ++ selected_now pattern now self.old.selections ∷ [] }) }
        ensures unchanged { OnErr result (self.new ≡ self.old) }
    {
        let number = next_number(&self.selections);
        self.selections.push(Selection {
            pattern,
            number,
            since: now,
            run: false,
        })?;
        Ok(lsp_number(self.number, number))
    }

    /// Forgets the selection of the pattern, and tells its LSP number. Where it is not selected, nothing changes.
    pub fn unselect(&mut self, pattern: Pattern) -> Option<u32>
        ensures number { result ≡ option_map (lsp_number self.old.number) (number_at pattern self.old.selections) }
        ensures gone { self.new ≡ record self.old { selections = filter (λ selection. not (is_of pattern selection)) self.old.selections } }
    {
        let number = number_of(&self.selections, pattern);
        forget(&mut self.selections, pattern);
        lsp_number_of(self.number, number)
    }

    /// Whether the pattern is selected.
    pub fn is_selected(&self, pattern: Pattern) -> bool
        ensures { IsTrue result ↔ IsSelected pattern self.now.selections }
    {
        number_of(&self.selections, pattern).is_some()
    }

    /// How many patterns are selected. No two selections are of one pattern or have one number.
    pub fn selections(&self) -> u32
        ensures count { result ≡ length self.now.selections }
        ensures kept { AreSelections self.now.selections }
    {
        self.selections.len() as u32
    }

    /// The LSP number of the tunnel that the flow is transmitted on: that of the most specific selection which matches it
    /// and whose delay was run, or the inclusive tunnel.
    pub fn transmit(&self, source: Addr, group: Addr) -> u32
        ensures { result ≡ lsp_number self.now.number (added (transmitted self.now.selections source group)) }
    {
        lsp_number(
            self.number,
            transmit_number(&self.selections, source, group),
        )
    }

    /// Runs the delay of each selection that is due.
    pub fn timers(&mut self, now: u64)
        ensures { self.new ≡ record self.old { selections = map (run_due self.old.delay now) self.old.selections } }
    {
        run_due(&mut self.selections, self.delay, now);
    }

    /// How many selections are due and not run.
    pub fn due(&self, now: u64) -> u64
        ensures { result ≡ count_by (is_waiting self.now.delay now) self.now.selections }
    {
        count_waiting(&self.selections, self.delay, now)
    }
}
