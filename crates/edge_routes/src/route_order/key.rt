//! The keys of routes, in order.
ghost use Rattle.std.specs.Prelude.{◌≡◌, [], refl, take};
ghost use Rattle.std.specs.Ordering.{as_partial_cmp, eq_by_cmp, nat_cmp};
ghost use Rattle.std.specs.Cmp.{eq_by_cmp_equiv, partial_equiv_from_equiv, partial_order_from_total};
ghost use Rattle.std.specs.Cmp.Lexicographic.{slice_cmp};
ghost use Rattle.bgp_values.specs.mvpn_nlri.Spelling as routes;
ghost use Rattle.mv_base.specs.Address.{addr_octets};
ghost use Rattle.edge_defs.specs.bgp_messages.bgp_attributes.Spelling.{octets_for};
ghost use Rattle.edge_defs.specs.bgp_messages.declared.bgp_attributes.key.Key.TheVariants.{Mcast, Unicast};
ghost use Rattle.edge_defs.specs.selective_defs.Parts.{addr_key};
ghost use Rattle.edge_defs.specs.bgp_messages.bgp_update.Written.{IsVpn, IsVpnPrefix, IsWritableKey, vpn_text};
ghost use Rattle.edge_defs.specs.bgp_messages.bgp_update.Written.{afi_of};
ghost use Rattle.edge_defs.specs.Keys.{afi_number, key_cmp};
ghost use Rattle.edge_defs.proofs.KeyLemmas.{key_total};
ghost use Rattle.edge_routes.specs.route_order.Front.{IsFronted};
ghost use Rattle.bgp_values.specs.declared.mvpn_nlri.route.Afi.{Afi};

use crate::route_order::front::{
    Front, compare_fronts, front_of, number, prefix_number, prefix_octets,
};
use crate::route_order::routes::compare_alike;
use crate::route_order::text::spelled;
use bgp_values::mvpn_nlri::{Afi, Route};
use edge_defs::of_bgp_messages::bgp_attributes::Key;
use mv_base::{Addr, Prefix, Rd};
use std::cmp::Ordering;
use std::marker::Model;

/// A key that has a spelling, in the order in which a table keeps its routes: unicast keys before multicast keys, in each kind
/// those of AFI 1 before those of AFI 2, and then by the octets that spell them, the label of a unicast route aside. Beside the key
/// are the numbers by which it is compared first.
#[derive(Clone, Copy)]
pub struct TableKey {
    key: Key,
    front: [u64; 4],
}

impl Model for TableKey {
    ghost use Rattle.edge_defs.specs.bgp_messages.declared.bgp_attributes.key.Key.{Key};

    ghost Value = { Key };

    ghost use Rattle.edge_routes.specs.route_order.Front.{IsFronted, front_of};

    ghost view = { λ k. k.key };

    ghost invariant = { λ k. IsFronted k.key k.front };

    ghost inverse = { λ key. record { key = key; front = front_of key } };
}

impl TableKey {
    /// The key, which has a spelling.
    pub fn of(key: Key) -> TableKey
        requires { IsWritableKey key }
        ensures { result ≡ key }
    {
        let Front {
            numbers,
            is_whole: _,
        } = front_of(&key);
        TableKey {
            key,
            front: numbers,
        }
    }

    /// The key, with the numbers by which it is compared first.
    pub(crate) fn fronted(key: Key, front: [u64; 4]) -> TableKey
        requires { IsFronted key front }
        ensures { result ≡ key }
    {
        TableKey { key, front }
    }

    /// The key.
    pub fn key(&self) -> &Key
        ensures key { result.now ≡ self.now }
        ensures writable { IsWritableKey self.now }
    {
        &self.key
    }

    /// The numbers by which the key is compared first.
    pub(crate) fn front(&self) -> [u64; 4]
        ensures { IsFronted self.now result }
    {
        self.front
    }
}

/// The order of addresses: those of IPv4 first, and then by their octets.
fn compare_addrs(own: Addr, other: Addr) -> Ordering
    ensures { result ≡ slice_cmp nat_cmp (addr_key own) (addr_key other) }
{
    match (own, other) {
        (Addr::V4(octets), Addr::V4(others)) => octets.as_slice().cmp(others.as_slice()),
        (Addr::V6(octets), Addr::V6(others)) => octets.as_slice().cmp(others.as_slice()),
        (Addr::V4(_), Addr::V6(_)) => Ordering::Less,
        (Addr::V6(_), Addr::V4(_)) => Ordering::Greater,
    }
}

/// The order of route distinguishers: that of their octets.
fn compare_distinguishers(own: &Rd, other: &Rd) -> Ordering
    ensures { result ≡ slice_cmp nat_cmp own.now.0 other.now.0 }
{
    own.0.as_slice().cmp(other.0.as_slice())
}

/// The order of the octets that spell unicast routes, the label aside.
fn compare_vpn(rd: &Rd, prefix: &Prefix, other_rd: &Rd, other: &Prefix) -> Ordering
    requires own { IsVpn rd.now prefix.now }
    requires other { IsVpn other_rd.now other.now }
    ensures { result ≡ slice_cmp nat_cmp (vpn_text [] rd.now prefix.now) (vpn_text [] other_rd.now other.now) }
{
    let octets = prefix_octets(prefix);
    let others = prefix_octets(other);
    prefix
        .bits
        .cmp(&other.bits)
        .then(compare_distinguishers(rd, other_rd))
        .then(octets.cmp(others))
}

/// The order of unicast keys.
fn compare_unicast(rd: &Rd, prefix: &Prefix, other_rd: &Rd, other: &Prefix) -> Ordering
    requires own { IsVpn rd.now prefix.now }
    requires other { IsVpn other_rd.now other.now }
    ensures { result ≡ key_cmp (Unicast rd.now prefix.now) (Unicast other_rd.now other.now) }
{
    let family = prefix_number(prefix).cmp(&prefix_number(other));
    let text = compare_vpn(rd, prefix, other_rd, other);
    family
        .then(text)
        .then(compare_addrs(prefix.addr, other.addr))
}

/// The order of the octets that spell two routes, by spelling both.
fn compare_spelled(own: &Route, other: &Route) -> Ordering
    requires own { (afi : Afi) × routes.Spells afi own.now (routes.written own.now) }
    requires other { (afi : Afi) × routes.Spells afi other.now (routes.written other.now) }
    ensures { result ≡ slice_cmp nat_cmp (routes.written own.now) (routes.written other.now) }
{
    let (octets, len) = spelled(own);
    let (others, other_len) = spelled(other);
    octets[..len].cmp(&others[..other_len])
}

/// The order of the octets that spell two routes.
fn compare_routes(own: &Route, other: &Route) -> Ordering
    requires own { (afi : Afi) × routes.Spells afi own.now (routes.written own.now) }
    requires other { (afi : Afi) × routes.Spells afi other.now (routes.written other.now) }
    ensures { result ≡ slice_cmp nat_cmp (routes.written own.now) (routes.written other.now) }
{
    match compare_alike(own, other) {
        Some(order) => order,
        None => compare_spelled(own, other),
    }
}

/// The order of multicast keys.
fn compare_mcast(afi: Afi, own: &Route, other_afi: Afi, other: &Route) -> Ordering
    requires own { routes.Spells afi own.now (routes.written own.now) }
    requires other { routes.Spells other_afi other.now (routes.written other.now) }
    ensures { result ≡ key_cmp (Mcast afi own.now) (Mcast other_afi other.now) }
{
    let family = number(afi).cmp(&number(other_afi));
    family.then(compare_routes(own, other))
}

/// The order of keys that have spellings. A function of its own in the program too: most keys differ in their numbers, and a comparison
/// of these alone is short enough to be a part of each search.
#[inline(never)]
pub(crate) fn compare_keys(own: &Key, other: &Key) -> Ordering
    requires own { IsWritableKey own.now }
    requires other { IsWritableKey other.now }
    ensures { result ≡ key_cmp own.now other.now }
{
    match (own, other) {
        (
            Key::Unicast { rd, prefix },
            Key::Unicast {
                rd: other_rd,
                prefix: next,
            },
        ) => compare_unicast(rd, prefix, other_rd, next),
        (Key::Mcast(afi, route), Key::Mcast(other_afi, next)) => {
            compare_mcast(*afi, route, *other_afi, next)
        }
        (Key::Unicast { rd: _, prefix: _ }, Key::Mcast(_, _)) => Ordering::Less,
        (Key::Mcast(_, _), Key::Unicast { rd: _, prefix: _ }) => Ordering::Greater,
    }
}

/// The order of keys, by the numbers by which they are compared first, and then by the keys.
#[inline(always)]
pub(crate) fn compare_fronted(
    own: &Key,
    front: &[u64; 4],
    other: &Key,
    other_front: &[u64; 4],
) -> Ordering
    requires own { IsFronted own.now front.now }
    requires other { IsFronted other.now other_front.now }
    ensures { result ≡ key_cmp own.now other.now }
{
    let order = compare_fronts(front, other_front);
    if order.is_eq() {
        compare_keys(own, other)
    } else {
        order
    }
}

impl PartialEq for TableKey {
    ghost eq = { eq_by_cmp key_cmp };

    ghost laws = { partial_equiv_from_equiv (eq_by_cmp_equiv key_total) };

    fn eq(&self, other: &TableKey) -> bool {
        self.cmp(other).is_eq()
    }
}

impl Eq for TableKey {
    ghost laws = { eq_by_cmp_equiv key_total };
}

impl PartialOrd for TableKey {
    ghost partial_cmp = { as_partial_cmp key_cmp };

    ghost laws = { partial_order_from_total key_total };

    fn partial_cmp(&self, other: &TableKey) -> Option<Ordering> {
        Some(self.cmp(other))
    }
}

impl Ord for TableKey {
    ghost cmp = { key_cmp };

    ghost total = { key_total };

    ghost matches_partial_cmp = { λ x y. refl };

    ghost matches_eq = { λ x y. refl };

    fn cmp(&self, other: &TableKey) -> Ordering {
        compare_fronted(&self.key, &self.front, &other.key, &other.front)
    }
}
