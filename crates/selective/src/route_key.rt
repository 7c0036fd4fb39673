//! The order of learned routes.
ghost use Rattle.std.specs.Prelude.{◌≡◌, refl};
ghost use Rattle.std.specs.Ordering.{eq_by_cmp, as_partial_cmp, nat_cmp};
ghost use Rattle.std.specs.Cmp.Lexicographic.{slice_cmp};
ghost use Rattle.std.specs.Cmp.{partial_equiv_from_equiv, eq_by_cmp_equiv, partial_order_from_total};
ghost use Rattle.selective_defs.specs.Parts.{addr_key, word_part};
ghost use Rattle.selective.specs.Order.{place_part, route_cmp, route_total};

use mv_base::{Addr, NodeId, Pattern, Rd};
use selective_defs::of_mldp::mldp_fec::Fec;
use std::cmp::Ordering;

/// Where a route stands among those of its peer and pattern: by its route distinguisher, between the two ends.
#[derive(Clone, Copy)]
pub enum Place {
    First,
    Of(Rd),
    Last,
}

/// What tells a learned route from every other one. Routes are ordered by peer, the more specific pattern first, by
/// pattern, and then by route distinguisher.
#[derive(Clone, Copy)]
pub struct RouteKey {
    pub peer: NodeId,
    pub pattern: Pattern,
    pub place: Place,
}

/// What is kept of a learned route.
#[derive(Clone, Copy)]
pub struct Learned {
    /// The tunnel.
    pub fec: Fec,
    /// The clock at which it was learned.
    pub since: u64,
    /// Whether its delay was run.
    pub run: bool,
}

/// The order of addresses: those of IPv4 first, and then by their octets.
fn compare_addrs(one: Addr, other: Addr) -> Ordering
    ensures { result ≡ slice_cmp nat_cmp (addr_key one) (addr_key other) }
{
    match (one, other) {
        (Addr::V4(own), Addr::V4(others)) => own.as_slice().cmp(others.as_slice()),
        (Addr::V6(own), Addr::V6(others)) => own.as_slice().cmp(others.as_slice()),
        (Addr::V4(_), Addr::V6(_)) => Ordering::Less,
        (Addr::V6(_), Addr::V4(_)) => Ordering::Greater,
    }
}

/// The order of the words of patterns: the wildcard first.
fn compare_words(one: Option<Addr>, other: Option<Addr>) -> Ordering
    ensures { result ≡ slice_cmp nat_cmp (word_part one) (word_part other) }
{
    match (one, other) {
        (Some(own), Some(others)) => compare_addrs(own, others),
        (None, Some(_)) => Ordering::Less,
        (Some(_), None) => Ordering::Greater,
        (None, None) => Ordering::Equal,
    }
}

/// The order of route distinguishers: that of their octets.
fn compare_distinguishers(one: Rd, other: Rd) -> Ordering
    ensures { result ≡ slice_cmp nat_cmp one.0 other.0 }
{
    one.0.as_slice().cmp(other.0.as_slice())
}

/// The order of places: by route distinguisher, between the two ends.
fn compare_places(one: Place, other: Place) -> Ordering
    ensures { result ≡ slice_cmp nat_cmp (place_part one) (place_part other) }
{
    match (one, other) {
        (Place::Of(own), Place::Of(others)) => compare_distinguishers(own, others),
        (Place::First, Place::First) | (Place::Last, Place::Last) => Ordering::Equal,
        (Place::First, _) | (_, Place::Last) => Ordering::Less,
        (Place::Last, _) | (_, Place::First) => Ordering::Greater,
    }
}

impl PartialEq for RouteKey {
    ghost eq = { eq_by_cmp route_cmp };

    ghost laws = { partial_equiv_from_equiv (eq_by_cmp_equiv route_total) };

    fn eq(&self, other: &RouteKey) -> bool {
        self.cmp(other).is_eq()
    }
}

impl Eq for RouteKey {
    ghost laws = { eq_by_cmp_equiv route_total };
}

impl PartialOrd for RouteKey {
    ghost partial_cmp = { as_partial_cmp route_cmp };

    ghost laws = { partial_order_from_total route_total };

    fn partial_cmp(&self, other: &RouteKey) -> Option<Ordering> {
        Some(self.cmp(other))
    }
}

impl Ord for RouteKey {
    ghost cmp = { route_cmp };

    ghost total = { route_total };

    ghost matches_partial_cmp = { λ x y. refl };

    ghost matches_eq = { λ x y. refl };

    fn cmp(&self, other: &RouteKey) -> Ordering {
        self.peer
            .0
            .cmp(&other.peer.0)
            .then(other.pattern.rank().cmp(&self.pattern.rank()))
            .then(compare_words(self.pattern.source, other.pattern.source))
            .then(compare_words(self.pattern.group, other.pattern.group))
            .then(compare_places(self.place, other.place))
    }
}
