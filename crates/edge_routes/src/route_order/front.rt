//! The numbers by which two keys are compared first. They tell most pairs of keys apart, without a look at the routes.
ghost use Rattle.std.specs.Prelude.{◌≡◌, ◌≤◌, ◌↔◌, IsTrue, [], ◌∷◌, drop, length};
ghost use Rattle.std.specs.Ordering.{nat_cmp};
ghost use Rattle.std.specs.Cmp.Lexicographic.{slice_cmp};
ghost use Rattle.mv_base.specs.Octets.{IsOctets};
ghost use Rattle.bgp_values.specs.mvpn_nlri.Spelling as routes;
ghost use Rattle.edge_defs.specs.bgp_messages.declared.bgp_attributes.key.Key.TheVariants.{Mcast, Unicast};
ghost use Rattle.edge_defs.specs.bgp_messages.bgp_update.Written.{IsVpn, IsVpnPrefix, IsWritableKey, afi_of};
ghost use Rattle.edge_defs.specs.Keys.{afi_number};
ghost use Rattle.edge_routes.specs.route_order.Front.{AreOctets, IsWhole, filled, front_of, number_of, numbers, prefix_text, spelled_after};

use crate::route_order::octets::are_octets;
use crate::route_order::text::spelled;
use bgp_values::mvpn_nlri::{Afi, Route};
use edge_defs::of_bgp_messages::bgp_attributes::Key;
use mv_base::{Addr, Prefix, Rd};
use std::cmp::Ordering;

/// How many octets of a route the numbers of its key spell.
pub(crate) const SPELLED_LEN: usize = 24;

/// What a key is compared by first.
pub(crate) struct Front {
    pub(crate) numbers: [u64; 4],
    /// Whether the numbers spell all of the key.
    pub(crate) is_whole: bool,
}

/// The AFI as a number.
pub(crate) fn number(afi: Afi) -> u8
    ensures { result ≡ afi_number afi }
{
    match afi {
        Afi::Ipv4 => 1,
        Afi::Ipv6 => 2,
    }
}

/// The octets, which are at most eight, and zeros after them.
fn padded(octets: &[u8]) -> [u8; 8]
    requires { length octets.now ≤ 8 }
    ensures { result ≡ filled 8 octets.now }
{
    let mut eight = [0; 8];
    let (front, _spare) = eight.split_at_mut(octets.len());
    front.copy_from_slice(octets);
    eight
}

/// The same. Mostly they are eight, and nothing is copied one by one.
fn filled(octets: &[u8]) -> [u8; 8]
    requires { length octets.now ≤ 8 }
    ensures { result ≡ filled 8 octets.now }
{
    match octets {
        [a, b, c, d, e, f, g, h] => [*a, *b, *c, *d, *e, *f, *g, *h],
        _ => padded(octets),
    }
}

/// The number that eight octets spell, the first one weighing most.
fn spelled_number(octets: [u8; 8]) -> u64
    ensures { result ≡ spelled_after 0 octets }
{
    u64::from_be_bytes(octets)
}

/// The number of the first eight octets, and the octets after them.
fn next_number(octets: &[u8]) -> (u64, &[u8])
    ensures number { result.0 ≡ number_of octets.now }
    ensures rest { result.1.now ≡ drop 8 octets.now }
{
    let (first, rest) = octets.split_at(octets.len().min(8));
    (spelled_number(filled(first)), rest)
}

/// The numbers of the first 24 octets.
fn numbers_of(octets: &[u8]) -> (u64, u64, u64)
    ensures { (result.0 ∷ result.1 ∷ result.2 ∷ []) ≡ numbers 3 octets.now }
{
    let (first, rest) = next_number(octets);
    let (second, rest) = next_number(rest);
    let (third, _rest) = next_number(rest);
    (first, second, third)
}

/// The AFI of the addresses that a prefix is of, as a number.
pub(crate) fn prefix_number(prefix: &Prefix) -> u8
    ensures { result ≡ afi_number (afi_of prefix.now.addr) }
{
    match prefix.addr {
        Addr::V4(_) => 1,
        Addr::V6(_) => 2,
    }
}

/// The octets of the prefix that are spelled.
pub(crate) fn prefix_octets(prefix: &Prefix) -> &[u8]
    requires { IsVpnPrefix prefix.now.addr prefix.now.bits }
    ensures { result.now ≡ prefix_text prefix.now }
{
    let count = (prefix.bits as usize + 7) / 8;
    let octets = prefix.addr.octets();
    &octets[..count]
}

/// The numbers of a unicast key.
fn front_of_prefix(rd: &Rd, prefix: &Prefix) -> [u64; 4]
    requires { IsVpn rd.now prefix.now }
    ensures front { result ≡ front_of (Unicast rd.now prefix.now) }
    ensures octets { IsOctets rd.now.0 × IsOctets (prefix_text prefix.now) }
{
    let octets = prefix_octets(prefix);
    are_octets(&rd.0);
    are_octets(octets);
    let family = u64::from(prefix_number(prefix));
    let (first, _rest) = next_number(octets);
    let distinguisher = spelled_number(rd.0);
    [family, u64::from(prefix.bits), distinguisher, first]
}

/// The front of a multicast key.
fn front_of_route(afi: Afi, route: &Route) -> Front
    requires { (own : Afi) × routes.Spells own route.now (routes.written route.now) }
    ensures front { result.numbers ≡ front_of (Mcast afi route.now) }
    ensures octets { IsOctets (routes.written route.now) }
    ensures whole { IsTrue result.is_whole ↔ IsWhole (Mcast afi route.now) }
{
    let (octets, len) = spelled(route);
    let text = &octets[..len];
    are_octets(text);
    let (first, second, third) = numbers_of(text);
    Front {
        numbers: [2 + u64::from(number(afi)), first, second, third],
        is_whole: text.len() <= SPELLED_LEN,
    }
}

/// The front of the key.
pub(crate) fn front_of(key: &Key) -> Front
    requires { IsWritableKey key.now }
    ensures front { result.numbers ≡ front_of key.now }
    ensures octets { AreOctets key.now }
    ensures whole { IsTrue result.is_whole ↔ IsWhole key.now }
{
    match key {
        Key::Unicast { rd, prefix } => Front {
            numbers: front_of_prefix(rd, prefix),
            is_whole: false,
        },
        Key::Mcast(afi, route) => front_of_route(*afi, route),
    }
}

/// The order of what two keys are compared by first.
pub(crate) fn compare_fronts(own: &[u64; 4], other: &[u64; 4]) -> Ordering
    ensures { result ≡ slice_cmp nat_cmp own.now other.now }
{
    let [kind, first, second, third] = own;
    let [other_kind, other_first, other_second, other_third] = other;
    if kind != other_kind {
        return kind.cmp(other_kind);
    }
    if first != other_first {
        return first.cmp(other_first);
    }
    if second != other_second {
        return second.cmp(other_second);
    }
    third.cmp(other_third)
}
