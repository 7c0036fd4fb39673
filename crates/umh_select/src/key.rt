//! The order of routes: by length and first bits of their prefixes, so that those which cover a source stand together.
ghost use Rattle.std.specs.Prelude.{◌≡◌, refl};
ghost use Rattle.std.specs.Ordering.{eq_by_cmp, as_partial_cmp, nat_cmp, ordering_then};
ghost use Rattle.std.specs.Cmp.Lexicographic.{slice_cmp};
ghost use Rattle.std.specs.Cmp.{partial_equiv_from_equiv, eq_by_cmp_equiv, partial_order_from_total};
ghost use Rattle.choice_defs.specs.Choice.{addr_cmp, rd_cmp};
ghost use Rattle.umh_select.specs.Order.{end_cmp, family_cmp, front, key_cmp, key_total, place_part};
ghost use Rattle.umh_select.specs.Routes.{is_from};

use mv_base::{Addr, NodeId, Prefix, Rd};
use std::cmp::Ordering;

/// Where a route stands among those of one length and of the same first bits, between the two ends.
#[derive(Clone, Copy)]
pub enum Place {
    First,
    /// The prefix is attached at the VRF itself.
    Here,
    /// The route is from that peer, with that route distinguisher.
    From { peer: NodeId, rd: Rd },
    Last,
}

/// What tells a route from every other one.
#[derive(Clone, Copy)]
pub struct RouteKey {
    pub prefix: Prefix,
    pub place: Place,
}

impl RouteKey {
    /// Whether it is the key of a route from the peer.
    pub fn is_from(&self, peer: NodeId) -> bool
        ensures { result ≡ is_from peer self.now.place }
    {
        match self.place {
            Place::From { peer: other, rd: _ } => other.0 == peer.0,
            _ => false,
        }
    }
}

/// The first bits of an IPv6 address, as a number.
fn front_v6(octets: [u8; 16], bits: u8) -> u128
    ensures { result ≡ front (Addr.V6 octets) bits }
{
    if bits == 0 {
        return 0;
    }
    u128::from_be_bytes(octets) >> 128u8.saturating_sub(bits)
}

/// The first bits of an IPv4 address, as a number.
fn front_v4(octets: [u8; 4], bits: u8) -> u64
    ensures { result ≡ front (Addr.V4 octets) bits }
{
    u64::from(u32::from_be_bytes(octets)) >> 32u8.saturating_sub(bits)
}

/// The order of addresses: those of IPv4 first, and then by their octets.
pub(crate) fn compare_addrs(one: Addr, other: Addr) -> Ordering
    ensures { result ≡ addr_cmp one other }
{
    match (one, other) {
        (Addr::V4(own), Addr::V4(others)) => own.as_slice().cmp(others.as_slice()),
        (Addr::V6(own), Addr::V6(others)) => own.as_slice().cmp(others.as_slice()),
        (Addr::V4(_), Addr::V6(_)) => Ordering::Less,
        (Addr::V6(_), Addr::V4(_)) => Ordering::Greater,
    }
}

/// The order of route distinguishers: that of their octets.
pub(crate) fn compare_distinguishers(one: Rd, other: Rd) -> Ordering
    ensures { result ≡ rd_cmp one other }
{
    one.0.as_slice().cmp(other.0.as_slice())
}

/// The order of places: by peer and then by route distinguisher, between the two ends.
fn compare_places(one: Place, other: Place) -> Ordering
    ensures { result ≡ slice_cmp nat_cmp (place_part one) (place_part other) }
{
    match (one, other) {
        (
            Place::From { peer, rd },
            Place::From {
                peer: next,
                rd: its,
            },
        ) => match peer.0.cmp(&next.0) {
            Ordering::Less => Ordering::Less,
            Ordering::Equal => compare_distinguishers(rd, its),
            Ordering::Greater => Ordering::Greater,
        },
        (Place::First, Place::First) | (Place::Here, Place::Here) | (Place::Last, Place::Last) => {
            Ordering::Equal
        }
        (Place::First, _) | (_, Place::Last) => Ordering::Less,
        (Place::Last, _) | (_, Place::First) => Ordering::Greater,
        (Place::Here, Place::From { peer: _, rd: _ }) => Ordering::Less,
        (Place::From { peer: _, rd: _ }, Place::Here) => Ordering::Greater,
    }
}

/// The order of keys of one length, family and first bits: by place, and by address where that ties.
fn compare_ends(one: &RouteKey, other: &RouteKey) -> Ordering
    ensures { result ≡ end_cmp one.now other.now }
{
    match compare_places(one.place, other.place) {
        Ordering::Less => Ordering::Less,
        Ordering::Equal => compare_addrs(one.prefix.addr, other.prefix.addr),
        Ordering::Greater => Ordering::Greater,
    }
}

/// The order of keys of one length and family, whose first bits compare so: by the rest only where these tie.
fn compare_after(fronts: Ordering, one: &RouteKey, other: &RouteKey) -> Ordering
    ensures { result ≡ ordering_then fronts (end_cmp one.now other.now) }
{
    match fronts {
        Ordering::Less => Ordering::Less,
        Ordering::Equal => compare_ends(one, other),
        Ordering::Greater => Ordering::Greater,
    }
}

/// The order of keys of one length: by family, by the first bits, and then by the rest.
fn compare_families(one: &RouteKey, other: &RouteKey) -> Ordering
    ensures { result ≡ family_cmp one.now other.now }
{
    match (&one.prefix.addr, &other.prefix.addr) {
        (Addr::V4(own), Addr::V4(others)) => {
            let own = front_v4(*own, one.prefix.bits);
            let others = front_v4(*others, other.prefix.bits);
            compare_after(own.cmp(&others), one, other)
        }
        (Addr::V6(own), Addr::V6(others)) => {
            let own = front_v6(*own, one.prefix.bits);
            let others = front_v6(*others, other.prefix.bits);
            compare_after(own.cmp(&others), one, other)
        }
        (Addr::V4(_), Addr::V6(_)) => Ordering::Less,
        (Addr::V6(_), Addr::V4(_)) => Ordering::Greater,
    }
}

impl PartialEq for RouteKey {
    ghost eq = { eq_by_cmp key_cmp };

    ghost laws = { partial_equiv_from_equiv (eq_by_cmp_equiv key_total) };

    fn eq(&self, other: &RouteKey) -> bool {
        self.cmp(other).is_eq()
    }
}

impl Eq for RouteKey {
    ghost laws = { eq_by_cmp_equiv key_total };
}

impl PartialOrd for RouteKey {
    ghost partial_cmp = { as_partial_cmp key_cmp };

    ghost laws = { partial_order_from_total key_total };

    fn partial_cmp(&self, other: &RouteKey) -> Option<Ordering> {
        Some(self.cmp(other))
    }
}

impl Ord for RouteKey {
    ghost cmp = { key_cmp };

    ghost total = { key_total };

    ghost matches_partial_cmp = { λ x y. refl };

    ghost matches_eq = { λ x y. refl };

    fn cmp(&self, other: &RouteKey) -> Ordering {
        match self.prefix.bits.cmp(&other.prefix.bits) {
            Ordering::Less => Ordering::Less,
            Ordering::Equal => compare_families(self, other),
            Ordering::Greater => Ordering::Greater,
        }
    }
}
