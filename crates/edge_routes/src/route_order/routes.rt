//! The order of the octets that spell two routes of one type, told field by field. Most pairs that a table compares are such, and
//! are not spelled for it.
ghost use Rattle.std.specs.Prelude.{◌≡◌, ◌++◌, IfSome};
ghost use Rattle.std.specs.Ordering.{nat_cmp};
ghost use Rattle.std.specs.Int.{to_be_bytes, w32};
ghost use Rattle.std.specs.Cmp.Lexicographic.{slice_cmp};
ghost use Rattle.mv_base.specs.Address.{addr_octets};
ghost use Rattle.bgp_values.specs.declared.mvpn_nlri.route.Route.TheVariants as types;
ghost use Rattle.bgp_values.specs.mvpn_nlri.Spelling.{any_or_sized, fields, sized, written};
ghost use Rattle.edge_routes.specs.route_order.Compared.{AreCompared};

use bgp_values::mvpn_nlri::Route;
use mv_base::{Addr, Rd};
use std::cmp::Ordering;

/// The order of the octets of two addresses of one family.
fn compare_octets(own: Addr, other: Addr) -> Option<Ordering>
    ensures { IfSome result (AreCompared (addr_octets own) (addr_octets other)) }
{
    match (own, other) {
        (Addr::V4(octets), Addr::V4(others)) => Some(octets.as_slice().cmp(others.as_slice())),
        (Addr::V6(octets), Addr::V6(others)) => Some(octets.as_slice().cmp(others.as_slice())),
        _ => None,
    }
}

/// The order of the octets that spell two sources or groups of one family.
fn compare_sized(own: Addr, other: Addr) -> Option<Ordering>
    ensures { IfSome result (AreCompared (sized own) (sized other)) }
{
    match (own, other) {
        (Addr::V4(octets), Addr::V4(others)) => Some(octets.as_slice().cmp(others.as_slice())),
        (Addr::V6(octets), Addr::V6(others)) => Some(octets.as_slice().cmp(others.as_slice())),
        _ => None,
    }
}

/// The same, where each may be the wildcard, and both are where one is.
fn compare_patterns(own: Option<Addr>, other: Option<Addr>) -> Option<Ordering>
    ensures { IfSome result (AreCompared (any_or_sized own) (any_or_sized other)) }
{
    match (own, other) {
        (Some(own), Some(other)) => compare_sized(own, other),
        (None, None) => Some(Ordering::Equal),
        _ => None,
    }
}

/// The order of route distinguishers.
fn compare_distinguishers(own: Rd, other: Rd) -> Ordering
    ensures { AreCompared own.0 other.0 result }
{
    own.0.as_slice().cmp(other.0.as_slice())
}

/// The order of Intra-AS I-PMSI A-D routes.
fn compare_intra(rd: Rd, originator: Addr, other: Rd, next: Addr) -> Option<Ordering>
    ensures { IfSome result (AreCompared (fields (types.Intra rd originator)) (fields (types.Intra other next))) }
{
    let originators = compare_octets(originator, next)?;
    Some(compare_distinguishers(rd, other).then(originators))
}

/// The order of what follows the route distinguisher of two routes for a source and a group.
fn compare_flows(own: (Addr, Addr), other: (Addr, Addr)) -> Option<Ordering>
    ensures { IfSome result (AreCompared (sized own.0 ++ sized own.1) (sized other.0 ++ sized other.1)) }
{
    let sources = compare_sized(own.0, other.0)?;
    let groups = compare_sized(own.1, other.1)?;
    Some(sources.then(groups))
}

/// The order of Source Active A-D routes.
fn compare_active(rd: Rd, own: (Addr, Addr), other: Rd, next: (Addr, Addr)) -> Option<Ordering>
    ensures { IfSome result (AreCompared (fields (types.Active rd own.0 own.1)) (fields (types.Active other next.0 next.1))) }
{
    let flows = compare_flows(own, next)?;
    Some(compare_distinguishers(rd, other).then(flows))
}

/// The order of numbers of autonomous systems, as their octets are compared.
fn compare_systems(own: u32, other: u32) -> Ordering
    ensures { AreCompared (to_be_bytes w32 own) (to_be_bytes w32 other) result }
{
    own.to_be_bytes()
        .as_slice()
        .cmp(other.to_be_bytes().as_slice())
}

/// The order of what follows the route distinguisher of two C-multicast routes.
fn compare_joins(own: (u32, (Addr, Addr)), other: (u32, (Addr, Addr))) -> Option<Ordering>
    ensures { IfSome result (AreCompared (to_be_bytes w32 own.0 ++ (sized own.1.0 ++ sized own.1.1))
        (to_be_bytes w32 other.0 ++ (sized other.1.0 ++ sized other.1.1))) }
{
    let flows = compare_flows(own.1, other.1)?;
    Some(compare_systems(own.0, other.0).then(flows))
}

/// The order of Source Tree Joins.
fn compare_source_joins(
    rd: Rd,
    own: (u32, (Addr, Addr)),
    other: Rd,
    next: (u32, (Addr, Addr)),
) -> Option<Ordering>
    ensures { IfSome result (AreCompared (fields (types.SourceJoin rd own.0 own.1.0 own.1.1))
        (fields (types.SourceJoin other next.0 next.1.0 next.1.1))) }
{
    let joins = compare_joins(own, next)?;
    Some(compare_distinguishers(rd, other).then(joins))
}

/// The order of what follows the sources of two S-PMSI A-D routes.
fn compare_groups(own: (Option<Addr>, Addr), other: (Option<Addr>, Addr)) -> Option<Ordering>
    ensures { IfSome result (AreCompared (any_or_sized own.0 ++ addr_octets own.1) (any_or_sized other.0 ++ addr_octets other.1)) }
{
    let groups = compare_patterns(own.0, other.0)?;
    let originators = compare_octets(own.1, other.1)?;
    Some(groups.then(originators))
}

/// The order of what follows the route distinguisher of two S-PMSI A-D routes.
fn compare_selections(
    source: Option<Addr>,
    own: (Option<Addr>, Addr),
    other: Option<Addr>,
    next: (Option<Addr>, Addr),
) -> Option<Ordering>
    ensures { IfSome result (AreCompared (any_or_sized source ++ (any_or_sized own.0 ++ addr_octets own.1))
        (any_or_sized other ++ (any_or_sized next.0 ++ addr_octets next.1))) }
{
    let sources = compare_patterns(source, other)?;
    let groups = compare_groups(own, next)?;
    Some(sources.then(groups))
}

/// The order of S-PMSI A-D routes, each of a route distinguisher, a source, a group and an originator.
fn compare_selective(
    own: (Rd, Option<Addr>, Option<Addr>, Addr),
    other: (Rd, Option<Addr>, Option<Addr>, Addr),
) -> Option<Ordering>
    ensures { IfSome result (AreCompared (fields (types.Selective own.0 own.1 own.2 own.3))
        (fields (types.Selective other.0 other.1 other.2 other.3))) }
{
    let patterns = compare_selections(own.1, (own.2, own.3), other.1, (other.2, other.3))?;
    Some(compare_distinguishers(own.0, other.0).then(patterns))
}

/// The order of the octets that spell two routes, where both are of one type and their addresses of the same families.
pub(crate) fn compare_alike(own: &Route, other: &Route) -> Option<Ordering>
    ensures { IfSome result (λ order. order ≡ slice_cmp nat_cmp (written own.now) (written other.now)) }
{
    match (own, other) {
        (
            Route::Intra { rd, originator },
            Route::Intra {
                rd: other,
                originator: next,
            },
        ) => compare_intra(*rd, *originator, *other, *next),
        (
            Route::Active { rd, source, group },
            Route::Active {
                rd: other,
                source: next_source,
                group: next_group,
            },
        ) => compare_active(*rd, (*source, *group), *other, (*next_source, *next_group)),
        (
            Route::Selective {
                rd,
                source,
                group,
                originator,
            },
            Route::Selective {
                rd: other,
                source: next_source,
                group: next_group,
                originator: next,
            },
        ) => compare_selective(
            (*rd, *source, *group, *originator),
            (*other, *next_source, *next_group, *next),
        ),
        (
            Route::SourceJoin {
                rd,
                source_as,
                source,
                group,
            },
            Route::SourceJoin {
                rd: other,
                source_as: next,
                source: next_source,
                group: next_group,
            },
        ) => compare_source_joins(
            *rd,
            (*source_as, (*source, *group)),
            *other,
            (*next, (*next_source, *next_group)),
        ),
        _ => None,
    }
}
