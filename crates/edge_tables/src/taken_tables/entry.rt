//! What is kept of a route that was taken.
ghost use Rattle.std.specs.Prelude.{◌≡◌, ◌||◌, ◌↔◌, IsTrue, IfOk, false};
ghost use Rattle.edge_defs.specs.Datagrams.{is_tunnel};
ghost use Rattle.edge_defs.specs.Imported.{lsp_of};
ghost use Rattle.edge_defs.specs.Keys.{same_value};
ghost use Rattle.edge_routes.specs.Judged.{value_of};
ghost use Rattle.edge_routes.specs.route_order.Values.{as_value};
ghost use Rattle.edge_tables.specs.taken_tables.Routes.{handed};

use crate::taken_tables::kept_comms::KeptComms;
use bgp_values::pmsi_attr::Pmsi;
use edge_routes::route_order::{same_attribute, same_comms, same_hop};
use edge_routes::{KeptPmsi, TakenValue, mark_of};
use mldp::mldp_fec::Fec;
use mv_base::route_targets::ExtComm;
use mv_base::{Addr, NoMemory};
use std::alloc::Global;
use std::marker::Model;

/// What a route says besides its key: next hop, extended communities in order, and tunnel.
#[derive(Drop)]
pub struct RouteValue {
    next_hop: Addr,
    comms: KeptComms,
    pmsi: KeptPmsi,
}

impl RouteValue {
    /// The value of these parts.
    pub fn of(
        alloc: Global,
        next_hop: Addr,
        comms: &[ExtComm],
        pmsi: &Option<Pmsi>,
    ) -> Result<RouteValue, NoMemory>
        ensures { IfOk result (λ value. handed value ≡ as_value next_hop comms.now pmsi.now) }
    {
        Ok(RouteValue {
            next_hop,
            comms: KeptComms::of(alloc, comms)?,
            pmsi: KeptPmsi::of(alloc, pmsi)?,
        })
    }

    /// The same value, for one more. What of it is in memory beside is there once for all.
    pub fn share(&self) -> Result<RouteValue, NoMemory>
        ensures { IfOk result (λ value. handed value ≡ handed self.now) }
    {
        Ok(RouteValue {
            next_hop: self.next_hop,
            comms: self.comms.share()?,
            pmsi: self.pmsi.share()?,
        })
    }

    /// The same, lent.
    pub fn lent(&self) -> TakenValue<'_>
        ensures { value_of result ≡ handed self.now }
    {
        TakenValue {
            next_hop: self.next_hop,
            comms: self.comms.as_slice(),
            pmsi: &self.pmsi,
        }
    }
}

fn same_mark(own: Option<u8>, other: Option<u8>) -> bool
    ensures { IsTrue result ↔ (own ≡ other) }
{
    own == other
}

/// Whether the tunnel is that one.
pub fn is_tunnel(own: Option<Fec>, fec: &Fec) -> bool
    ensures { result ≡ is_tunnel fec.now own }
{
    match own {
        None => false,
        Some(own) => own == *fec,
    }
}

/// A route that was taken: its value, the clock at which it was learned, and whether its delay was run. Of the tunnel a mark is kept, so
/// that a search for a tunnel looks at few of them whole.
#[derive(Drop)]
pub struct TakenEntry {
    value: RouteValue,
    since: u64,
    mark: Option<u8>,
    run: bool,
}

impl Model for TakenEntry {
    ghost use Rattle.edge_defs.specs.Edge.{TakenRoute};
    ghost use Rattle.edge_tables.specs.taken_tables.Routes.{handed};
    ghost use Rattle.edge_tables.specs.taken_tables.Tables.{route_code};

    ghost Value = { TakenRoute };

    ghost coded = { route_code };

    ghost view = { λ e. record { value = handed e.value; since = e.since; run = e.run } };

    ghost use Rattle.std.specs.Prelude.{◌≡◌};
    ghost use Rattle.edge_routes.specs.KeptPmsi.{mark_in};

    ghost invariant = { λ e. e.mark ≡ mark_in e.value.pmsi };
}

impl TakenEntry {
    /// The route, learned at the clock.
    pub(crate) fn of(value: RouteValue, now: u64) -> TakenEntry
        ensures { result ≡ record { value = handed value; since = now; run = false } }
    {
        let mark = value.pmsi.mark();
        TakenEntry {
            value,
            since: now,
            mark,
            run: false,
        }
    }

    /// What the route says.
    pub fn value(&self) -> TakenValue<'_>
        ensures { value_of result ≡ self.now.value }
    {
        self.value.lent()
    }

    /// Whether the tunnel of the route is that one, and such a one as edges use. Most routes of a table have another mark, so a search
    /// looks at little more than that of each.
    #[inline(always)]
    pub fn has_tunnel(&self, fec: &Fec) -> bool
        ensures { result ≡ is_tunnel fec.now (lsp_of self.now.value.pmsi) }
    {
        if !same_mark(self.mark, mark_of(fec)) {
            return false;
        }
        is_tunnel(self.value().pmsi.lsp(), fec)
    }

    /// The clock at which the route was learned.
    pub fn since(&self) -> u64
        ensures { result ≡ self.now.since }
    {
        self.since
    }

    /// Whether the delay of the route was run.
    pub fn was_run(&self) -> bool
        ensures { result ≡ self.now.run }
    {
        self.run
    }

    /// Runs the delay, where that is due.
    pub(crate) fn run_where(&mut self, due: bool)
        ensures { self.new ≡ record self.old { run = self.old.run || due } }
    {
        self.run = self.run || due;
    }
}

/// Whether both say the same.
pub fn same_value(own: &TakenValue, other: &TakenValue) -> bool
    ensures { result ≡ same_value (value_of own.now) (value_of other.now) }
{
    if !same_hop(own.next_hop, other.next_hop) {
        return false;
    }
    if !same_comms(own.comms, other.comms) {
        return false;
    }
    same_attribute(&own.pmsi.whole(), &other.pmsi.whole())
}
