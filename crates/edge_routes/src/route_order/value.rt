//! The values of routes.
ghost use Rattle.std.specs.Prelude.{◌≡◌, ◌≤◌, ◌-◌, ◌↔◌, ◌++◌, IsTrue, length, replicate};
ghost use Rattle.std.specs.Option.{SomeIff};
ghost use Rattle.edge_routes.specs.route_order.Values.{IsWritableValue, as_value, zeros};

use bgp_values::of_mldp::mldp_fec::Fec;
use bgp_values::pmsi_attr::{Pmsi, Tunnel};
use mv_base::Addr;
use mv_base::route_targets::ExtComm;
use std::marker::Model;

/// The most extended communities of one value: those of the 8 Route Targets of a VRF, its VRF Route Import and its Source AS
/// (RFC 6514 sections 6 and 7).
pub const COMM_LIMIT: usize = 10;

/// What a route says besides its key: next hop, at most 10 extended communities in order, and tunnel. It has a spelling with
/// each key that has one.
#[derive(Clone, Copy)]
pub struct TableValue {
    next_hop: Addr,
    pmsi: Option<Pmsi>,
    comms: [ExtComm; 10],
    count: u8,
}

impl Model for TableValue {
    ghost use Rattle.edge_defs.specs.Keys.{Value as RouteValue};

    ghost Value = { RouteValue };

    ghost use Rattle.edge_routes.specs.route_order.Values.{IsKept, kept, kept-back, value_of};

    ghost view = { value_of };

    ghost invariant = { IsKept };

    ghost inverse = { kept };

    ghost inverse_ok = { kept-back };
}

impl TableValue {
    /// The value of these parts, which have a spelling. None is for more than 10 communities.
    pub fn of(next_hop: Addr, comms: &[ExtComm], pmsi: Option<Pmsi>) -> Option<TableValue>
        requires { IsWritableValue (as_value next_hop comms.now pmsi) }
        ensures { SomeIff result (length comms.now ≤ COMM_LIMIT) (as_value next_hop comms.now pmsi) }
    {
        if comms.len() > COMM_LIMIT {
            return None;
        }
        Some(TableValue {
            next_hop,
            pmsi,
            comms: in_places(comms),
            count: comms.len() as u8,
        })
    }

    /// The next hop.
    pub fn next_hop(&self) -> Addr
        ensures next_hop { result ≡ self.now.next_hop }
        ensures writable { IsWritableValue self.now }
    {
        self.next_hop
    }

    /// The extended communities, in the order in which they were given.
    pub fn comms(&self) -> &[ExtComm]
        ensures comms { result.now ≡ self.now.comms }
        ensures few { length self.now.comms ≤ COMM_LIMIT }
    {
        &self.comms[..usize::from(self.count)]
    }

    /// The tunnel.
    pub fn pmsi(&self) -> &Option<Pmsi>
        ensures { result.now ≡ self.now.pmsi }
    {
        &self.pmsi
    }
}

/// Whether these are the same next hop.
pub fn same_hop(own: Addr, other: Addr) -> bool
    ensures { IsTrue result ↔ (own ≡ other) }
{
    own == other
}

/// Whether these are the same communities.
pub fn same_comms(own: &[ExtComm], other: &[ExtComm]) -> bool
    ensures { IsTrue result ↔ (own.now ≡ other.now) }
{
    own == other
}

/// Whether these are the same FEC element.
fn same_fec(own: &Fec, other: &Fec) -> bool
    ensures { IsTrue result ↔ (own.now ≡ other.now) }
{
    own == other
}

/// Whether these are the same tunnel.
fn same_tunnel(own: &Tunnel, other: &Tunnel) -> bool
    ensures { IsTrue result ↔ (own.now ≡ other.now) }
{
    match (own, other) {
        (Tunnel::None, Tunnel::None) => true,
        (Tunnel::Mldp(fec), Tunnel::Mldp(others)) => same_fec(fec, others),
        (Tunnel::Ingress(addr), Tunnel::Ingress(others)) => addr == others,
        (Tunnel::Other(kind, ident), Tunnel::Other(other_kind, others)) => {
            kind == other_kind && ident == others
        }
        _ => false,
    }
}

/// Whether these are the same attribute.
fn same_pmsi(own: &Pmsi, other: &Pmsi) -> bool
    ensures { IsTrue result ↔ (own.now ≡ other.now) }
{
    if own.leaf_info != other.leaf_info || own.label != other.label {
        return false;
    }
    same_tunnel(&own.tunnel, &other.tunnel)
}

/// Whether both attributes are there and the same, or neither is.
pub fn same_attribute(own: &Option<Pmsi>, other: &Option<Pmsi>) -> bool
    ensures { IsTrue result ↔ (own.now ≡ other.now) }
{
    match (own, other) {
        (None, None) => true,
        (Some(pmsi), Some(others)) => same_pmsi(pmsi, others),
        (None, Some(_)) | (Some(_), None) => false,
    }
}

/// Communities in their places, with zeros after them.
fn in_places(comms: &[ExtComm]) -> [ExtComm; 10]
    requires { length comms.now ≤ 10 }
    ensures { result ≡ comms.now ++ replicate (10 - length comms.now) zeros }
{
    let mut places = [ExtComm([0; 8]); 10];
    let (front, _spare) = places.split_at_mut(comms.len());
    front.copy_from_slice(comms);
    places
}

impl PartialEq for TableValue {
    ghost use Rattle.std.specs.Cmp.{partial_equiv_from_equiv};
    ghost use Rattle.edge_defs.specs.Keys.{same_value};
    ghost use Rattle.edge_routes.specs.route_order.Values.{same_value_equiv};

    ghost eq = { same_value };

    ghost laws = { partial_equiv_from_equiv same_value_equiv };

    fn eq(&self, other: &TableValue) -> bool {
        if !same_hop(self.next_hop(), other.next_hop()) {
            return false;
        }
        if !same_comms(self.comms(), other.comms()) {
            return false;
        }
        same_attribute(self.pmsi(), other.pmsi())
    }
}

impl Eq for TableValue {
    ghost use Rattle.edge_routes.specs.route_order.Values.{same_value_equiv};

    ghost laws = { same_value_equiv };
}
