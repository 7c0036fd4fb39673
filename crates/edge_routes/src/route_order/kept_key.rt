//! The keys of routes that were taken, as a table keeps them.
ghost use Rattle.std.specs.Prelude.{◌≡◌, refl, Some, IfOk};
ghost use Rattle.std.specs.Ordering.{as_partial_cmp, eq_by_cmp};
ghost use Rattle.std.specs.Cmp.{eq_by_cmp_equiv, partial_equiv_from_equiv, partial_order_from_total};
ghost use Rattle.edge_defs.specs.bgp_messages.bgp_update.Written.{IsWritableKey};
ghost use Rattle.edge_defs.specs.Keys.{key_cmp};
ghost use Rattle.edge_defs.proofs.KeyLemmas.{key_total};
ghost use Rattle.edge_routes.specs.route_order.Kept.{afi_by, is_of_type, kept_key, key_by, octets_by};

use crate::route_order::front::{Front, SPELLED_LEN, compare_fronts, front_of};
use crate::route_order::key::{TableKey, compare_keys};
use crate::route_order::route_type::RouteType;
use crate::shared::Shared;
use bgp_values::mvpn_nlri::{Afi, Route, decode};
use edge_defs::of_bgp_messages::bgp_attributes::Key;
use mv_base::{NoMemory, Rd};
use std::alloc::Global;
use std::cmp::Ordering;
use std::marker::Model;

/// A key that has a spelling, in the order of `TableKey`. It is kept by the numbers by which it is compared first. Most keys of multicast
/// routes are spelled whole by them; any other key is in memory once for all that have it.
#[derive(Drop)]
pub struct KeptKey {
    front: [u64; 4],
    beside: Option<Shared<TableKey>>,
}

impl Model for KeptKey {
    ghost use Rattle.edge_defs.specs.bgp_messages.declared.bgp_attributes.key.Key.{Key};

    ghost Value = { Key };

    ghost use Rattle.edge_routes.specs.route_order.Front.{IsFronted};
    ghost use Rattle.edge_routes.specs.route_order.Kept.{kept_key};

    ghost view = { λ k. kept_key k.front k.beside };

    ghost invariant = { λ k. IsFronted (kept_key k.front k.beside) k.front };
}

/// The octets that the numbers of a multicast key spell.
fn octets_by(front: &[u64; 4]) -> [u8; SPELLED_LEN]
    ensures { result ≡ octets_by front.now }
{
    let mut octets = [0; SPELLED_LEN];
    let (front_octets, rest) = octets.split_at_mut(8);
    let (middle, back) = rest.split_at_mut(8);
    front_octets.copy_from_slice(&front[1].to_be_bytes());
    middle.copy_from_slice(&front[2].to_be_bytes());
    back.copy_from_slice(&front[3].to_be_bytes());
    octets
}

fn afi_by(front: &[u64; 4]) -> Afi
    ensures { result ≡ afi_by front.now }
{
    if front[0] == 3 { Afi::Ipv4 } else { Afi::Ipv6 }
}

/// The multicast key of which these are the numbers, where they spell all of it.
fn key_by(front: &[u64; 4]) -> Key
    ensures { result ≡ key_by front.now }
{
    let afi = afi_by(front);
    match decode(afi, &octets_by(front)) {
        Ok((route, _len)) => Key::Mcast(afi, route),
        Err(_fault) => Key::Mcast(
            afi,
            Route::Inter {
                rd: Rd([0; 8]),
                source_as: 0,
            },
        ),
    }
}

/// The key that is kept so.
fn kept_key(front: &[u64; 4], beside: &Option<Shared<TableKey>>) -> Key
    ensures { result ≡ kept_key front.now beside.now }
{
    match beside {
        None => key_by(front),
        Some(key) => *key.lent().key(),
    }
}

/// The order of two keys that have the same numbers.
#[inline(never)]
fn compare_tied(
    front: &[u64; 4],
    own: &Option<Shared<TableKey>>,
    other: &Option<Shared<TableKey>>,
) -> Ordering
    requires own { IsWritableKey (kept_key front.now own.now) }
    requires other { IsWritableKey (kept_key front.now other.now) }
    ensures { result ≡ key_cmp (kept_key front.now own.now) (kept_key front.now other.now) }
{
    match (own, other) {
        (None, None) => Ordering::Equal,
        _ => compare_keys(&kept_key(front, own), &kept_key(front, other)),
    }
}

impl KeptKey {
    /// The key, which has a spelling.
    pub fn of(alloc: Global, key: &Key) -> Result<KeptKey, NoMemory>
        requires { IsWritableKey key.now }
        ensures { IfOk result (λ kept. kept ≡ key.now) }
    {
        let Front { numbers, is_whole } = front_of(key);
        if is_whole {
            return Ok(KeptKey {
                front: numbers,
                beside: None,
            });
        }
        let own = Shared::of(alloc, TableKey::fronted(*key, numbers))?;
        Ok(KeptKey {
            front: numbers,
            beside: Some(own),
        })
    }

    /// The same key, for one more.
    pub fn share(&self) -> Result<KeptKey, NoMemory>
        ensures { IfOk result (λ kept. kept ≡ self.now) }
    {
        let beside = match &self.beside {
            None => None,
            Some(key) => Some(key.share()?),
        };
        Ok(KeptKey {
            front: self.front,
            beside,
        })
    }

    /// The key, read from its numbers. A caller that needs it twice keeps it.
    pub fn key(&self) -> Key
        ensures key { result ≡ self.now }
        ensures writable { IsWritableKey self.now }
    {
        kept_key(&self.front, &self.beside)
    }

    /// Shows that the key has a spelling. It does nothing.
    pub fn show_spelled(&self)
        ensures { IsWritableKey self.now }
    {
        let _ = &self.front;
    }

    /// Whether the key is that of a route of this type, without a look at more than its first octet.
    #[inline(always)]
    pub fn is_of_type(&self, own: RouteType) -> bool
        ensures { result ≡ is_of_type own self.now }
    {
        self.front[0] > 2 && self.front[1] >> 56 == u64::from(own.code())
    }
}

impl PartialEq for KeptKey {
    ghost eq = { eq_by_cmp key_cmp };

    ghost laws = { partial_equiv_from_equiv (eq_by_cmp_equiv key_total) };

    fn eq(&self, other: &KeptKey) -> bool {
        self.cmp(other).is_eq()
    }
}

impl Eq for KeptKey {
    ghost laws = { eq_by_cmp_equiv key_total };
}

impl PartialOrd for KeptKey {
    ghost partial_cmp = { as_partial_cmp key_cmp };

    ghost laws = { partial_order_from_total key_total };

    fn partial_cmp(&self, other: &KeptKey) -> Option<Ordering> {
        Some(self.cmp(other))
    }
}

impl Ord for KeptKey {
    ghost cmp = { key_cmp };

    ghost total = { key_total };

    ghost matches_partial_cmp = { λ x y. refl };

    ghost matches_eq = { λ x y. refl };

    // Most keys differ in their numbers: a comparison of these alone is short enough to be a part of each search.
    #[inline(always)]
    fn cmp(&self, other: &KeptKey) -> Ordering {
        let order = compare_fronts(&self.front, &other.front);
        if order.is_eq() {
            compare_tied(&self.front, &self.beside, &other.beside)
        } else {
            order
        }
    }
}
