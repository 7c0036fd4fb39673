//! Which routes are answered.
ghost use Rattle.std.specs.Prelude.{◌≡◌, IfSome};
ghost use Rattle.ingress_rep.specs.Ingress.{asks_leaves, is_answer, is_ingress, request_of};
ghost use Rattle.ingress_rep.specs.Ingress.{same_afi, same_any, same_leaf_key, selective_of, IsSpelledSelective};
ghost use Rattle.bgp_values.specs.mvpn_nlri.Spelling.{IsKey};

use bgp_messages::bgp_update::{Advert, Key};
use bgp_values::mvpn_nlri::{Afi, LeafKey, Route};
use bgp_values::pmsi_attr::{Pmsi, Tunnel};
use mv_base::Addr;

/// What a root asks of leaves: its selective route as the key of an answer, under its AFI, and its own address.
#[derive(Clone, Copy)]
pub struct Request {
    pub afi: Afi,
    pub key: LeafKey,
    pub root: [u8; 4],
}

fn same_afi(own: Afi, other: Afi) -> bool
    ensures { result ≡ same_afi own other }
{
    matches!(
        (own, other),
        (Afi::Ipv4, Afi::Ipv4) | (Afi::Ipv6, Afi::Ipv6)
    )
}

fn same_any(own: &Option<Addr>, other: &Option<Addr>) -> bool
    ensures { result ≡ same_any own.now other.now }
{
    match (own, other) {
        (None, None) => true,
        (Some(addr), Some(others)) => addr.same(*others),
        _ => false,
    }
}

/// Whether both routes have the same fields.
fn same_leaf_key(own: &LeafKey, other: &LeafKey) -> bool
    ensures { result ≡ same_leaf_key own.now other.now }
{
    match (own, other) {
        (
            LeafKey::Inter { rd, source_as },
            LeafKey::Inter {
                rd: others,
                source_as: number,
            },
        ) => rd.0 == others.0 && source_as == number,
        (
            LeafKey::Selective {
                rd,
                source,
                group,
                originator,
            },
            LeafKey::Selective {
                rd: others,
                source: sources,
                group: groups,
                originator: originators,
            },
        ) => {
            let same_flow = same_any(source, sources) && same_any(group, groups);
            rd.0 == others.0 && same_flow && originator.same(*originators)
        }
        _ => false,
    }
}

/// Whether the key is that of the leaf's answer to the request.
pub fn is_answer(request: &Request, leaf: Addr, key: &Key) -> bool
    ensures { result ≡ is_answer request.now leaf key.now }
{
    match key {
        Key::Mcast(
            afi,
            Route::Leaf {
                key: own,
                originator,
            },
        ) => {
            same_afi(*afi, request.afi) && same_leaf_key(own, &request.key) && originator.same(leaf)
        }
        _ => false,
    }
}

fn is_ingress(tunnel: &Tunnel) -> bool
    ensures { result ≡ is_ingress tunnel.now }
{
    match tunnel {
        Tunnel::Ingress(_) => true,
        _ => false,
    }
}

/// Whether the tunnel is ingress replication and asks for leaf information.
fn asks_leaves(pmsi: &Option<Pmsi>) -> bool
    ensures { result ≡ asks_leaves pmsi.now }
{
    match pmsi {
        None => false,
        Some(pmsi) => pmsi.leaf_info && is_ingress(&pmsi.tunnel),
    }
}

/// What the selective route of an originator of IPv4 asks, if it is one.
#[tactic(auto, unfolding(crate::specs::Ingress::selective_of))]
fn selective_of(key: &Key) -> Option<Request>
    ensures value { result ≡ selective_of key.now }
    ensures key { IfSome result (λ request. IsSpelledSelective key.now → IsKey request.afi request.key) }
{
    match key {
        Key::Mcast(
            afi,
            Route::Selective {
                rd,
                source,
                group,
                originator: Addr::V4(root),
            },
        ) => Some(Request {
            afi: *afi,
            key: LeafKey::Selective {
                rd: *rd,
                source: *source,
                group: *group,
                originator: Addr::V4(*root),
            },
            root: *root,
        }),
        _ => None,
    }
}

/// What the route asks of leaves: it is a selective route with ingress replication that asks for leaf information, and
/// its next hop is its originator, of IPv4.
#[tactic(auto, unfolding(crate::specs::Ingress::request_of))]
pub fn request_of(advert: &Advert) -> Option<Request>
    ensures value { result ≡ request_of advert.now }
    ensures key { IfSome result (λ request. IsSpelledSelective advert.now.key → IsKey request.afi request.key) }
{
    let request = selective_of(&advert.key)?;
    let asks = asks_leaves(&advert.pmsi);
    if asks && advert.next_hop.same(Addr::V4(request.root)) {
        Some(request)
    } else {
        None
    }
}
