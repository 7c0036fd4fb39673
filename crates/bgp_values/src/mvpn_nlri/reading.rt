//! Reading a route.
ghost use Rattle.std.specs.Prelude.{◌≡◌, ◌<◌, ◌≤◌, ◌^◌, ◌++◌, List, ℕ, length, take, IfOk, IfErr};
ghost use Rattle.bgp_values.specs.mvpn_nlri.Reading.{Gives, intra_at, leaf_at, active_at, join_at, other_at, fields_at, route_at};
ghost use Rattle.bgp_values.specs.mvpn_nlri.Spelling.{Spells};
ghost use Rattle.bgp_values.specs.mvpn_nlri.FirstFault.{FirstFault};

use crate::mvpn_nlri::address::{read_flow, read_originator};
use crate::mvpn_nlri::bounded::Fields;
use crate::mvpn_nlri::fault::{RouteFault, RouteReason};
use crate::mvpn_nlri::key::{read_inter, read_key, read_selective};
use crate::mvpn_nlri::route::{Afi, Raw, Route};
use mv_base::{Addr, Rd};

/// The fields of a C-multicast route.
#[derive(Clone, Copy)]
struct Join {
    rd: Rd,
    source_as: u32,
    source: Addr,
    group: Addr,
}

#[tactic(auto, unfolding(crate::specs::mvpn_nlri::Reading::intra_at))]
fn read_intra(fields: &mut Fields<'_>) -> Result<Route, RouteFault>
    ensures { Gives (λ route. route) result fields.new (intra_at fields.old) }
{
    let rd = fields.rd()?;
    let originator = read_originator(fields)?;
    Ok(Route::Intra { rd, originator })
}

#[tactic(auto, unfolding(crate::specs::mvpn_nlri::Reading::leaf_at))]
fn read_leaf(fields: &mut Fields<'_>, afi: Afi) -> Result<Route, RouteFault>
    ensures { Gives (λ route. route) result fields.new (leaf_at afi fields.old) }
{
    let key = read_key(fields, afi)?;
    let originator = read_originator(fields)?;
    Ok(Route::Leaf { key, originator })
}

#[tactic(auto, unfolding(crate::specs::mvpn_nlri::Reading::active_at))]
fn read_active(fields: &mut Fields<'_>, afi: Afi) -> Result<Route, RouteFault>
    ensures { Gives (λ route. route) result fields.new (active_at afi fields.old) }
{
    let rd = fields.rd()?;
    let (source, group) = read_flow(fields, afi)?;
    Ok(Route::Active { rd, source, group })
}

/// Reads the fields of a C-multicast route.
#[tactic(auto, unfolding(crate::specs::mvpn_nlri::Reading::join_at))]
fn read_join(fields: &mut Fields<'_>, afi: Afi) -> Result<Join, RouteFault>
    ensures { Gives (λ join. (join.rd, (join.source_as, (join.source, join.group)))) result fields.new (join_at afi fields.old) }
{
    let rd = fields.rd()?;
    let source_as = fields.source_as()?;
    let (source, group) = read_flow(fields, afi)?;
    Ok(Join {
        rd,
        source_as,
        source,
        group,
    })
}

#[tactic(auto, unfolding(crate::specs::mvpn_nlri::Reading::other_at))]
fn read_other(fields: &mut Fields<'_>, kind: u8) -> Result<Route, RouteFault>
    requires { fields.old.within < 256 }
    ensures { Gives (λ route. route) result fields.new (other_at kind fields.old) }
{
    let octets = fields.take(fields.within())?;
    Ok(Route::Other(kind, Raw::of(octets).unwrap()))
}

/// Reads the fields of a route of that type.
#[tactic(auto, unfolding(crate::specs::mvpn_nlri::Reading::fields_at))]
fn read_fields(fields: &mut Fields<'_>, afi: Afi, kind: u8) -> Result<Route, RouteFault>
    requires { fields.old.within < 256 }
    ensures { Gives (λ route. route) result fields.new (fields_at afi kind fields.old) }
{
    match kind {
        1 => read_intra(fields),
        2 => Ok(read_inter(fields)?.into_route()),
        3 => Ok(read_selective(fields, afi)?.into_route()),
        4 => read_leaf(fields, afi),
        5 => read_active(fields, afi),
        6 => {
            let join = read_join(fields, afi)?;
            Ok(Route::SharedJoin {
                rd: join.rd,
                source_as: join.source_as,
                source: join.source,
                group: join.group,
            })
        }
        7 => {
            let join = read_join(fields, afi)?;
            Ok(Route::SourceJoin {
                rd: join.rd,
                source_as: join.source_as,
                source: join.source,
                group: join.group,
            })
        }
        _ => read_other(fields, kind),
    }
}

/// The octets that the length gives, as far as they are there.
fn front_of(bytes: &[u8], len: usize) -> &[u8]
    ensures octets { result.now ≡ take len bytes.now }
    ensures within { length result.now ≤ len }
{
    if bytes.len() <= len {
        bytes
    } else {
        &bytes[..len]
    }
}

#[tactic(auto, unfolding(crate::specs::mvpn_nlri::Reading::route_at))]
fn read_route(afi: Afi, bytes: &[u8]) -> Result<(Route, usize), RouteFault>
    ensures { result ≡ route_at afi bytes.now }
{
    let [kind, len, rest @ ..] = bytes else {
        return Err(RouteFault {
            place: bytes.len() as u32,
            reason: RouteReason::Short,
        });
    };
    let len = *len as usize;
    let mut fields = Fields::of(front_of(rest, len), 2, len);
    let route = read_fields(&mut fields, afi, *kind)?;
    Ok((route, len + 2))
}

/// The route at the front of the octets, and how many of them it has.
///
/// The AFI tells the family of its source and group. Octets after the route may be anything. Where no route stands
/// at the front, the answer is the first fault (RFC 6514 section 4).
pub fn decode(afi: Afi, bytes: &[u8]) -> Result<(Route, usize), RouteFault>
    // It is what reading from left to right gives.
    ensures exact { result ≡ route_at afi bytes.now }
    // A fault stands within the octets or right after them.
    ensures within { IfErr result (λ fault. fault.place ≤ length bytes.now) }
    // What is read is spelled at the front.
    ensures spelled { IfOk result (λ x. Spells afi x.0 (take x.1 bytes.now) × (x.1 ≤ length bytes.now)) }
    // What is spelled at the front is read.
    ensures only_spelled { (route : Route) (text rest : List ℕ) →
        Spells afi route text → bytes.now ≡ text ++ rest → result ≡ Ok (route, length text) }
    // A fault is the first one.
    ensures first { IfErr result (λ fault. FirstFault afi bytes.now fault) }
    // The first fault is answered.
    ensures only_first { (fault : RouteFault) → FirstFault afi bytes.now fault → result ≡ Err fault }
{
    read_route(afi, bytes)
}

/// No spelling begins another, and each is that of one value.
pub fn one_spelling()
    ensures { (afi : Afi) (v w : Route) (a b x y : List ℕ) → Spells afi v a → Spells afi w b → a ++ x ≡ b ++ y → (v ≡ w) × (a ≡ b) }
{}
