//! Which of the routes that were taken from a peer a VRF imports and uses (RFC 4364 section 4.3.1; RFC 6514 sections 7, 9.1.2, 11.3,
//! 12.3 and 14.2; the conditions on addresses are this project's profile).
ghost use Rattle.std.specs.Prelude.{◌≡◌, ◌<◌, ◌^◌, ◌==◌, ◌&&◌, length, nat_eq, option_map};
ghost use Rattle.std.specs.Cmp.Lexicographic.{pointwise};
ghost use Rattle.mv_base.specs.declared.addr.Addr.TheVariants.{V4};
ghost use Rattle.edge_defs.specs.Edge.{TakenRoute};
ghost use Rattle.edge_defs.specs.Imported.{
  active_of,
  found_in,
  has_comm,
  import_in,
  imported_active,
  imported_inclusive,
  imported_join,
  imported_selective,
  inclusive_of,
  is_admitted,
  is_passed_over,
  join_by,
  only_one,
  selective_of,
  source_as_in,
};
ghost use Rattle.edge_defs.specs.Originated.{import_target, own_import};
ghost use Rattle.edge_defs.specs.Place.{EdgePlace};
ghost use Rattle.edge_routes.specs.Judged.{inclusive_tunnel, as_flow, as_join, as_route, as_selective, value_of};
ghost use Rattle.edge_routes.specs.Local.{IsAt, as_import};

use crate::{Import, KeptPmsi, LocalVrf, import_target, own_import, tunnel_by};
use bgp_values::mvpn_nlri::{Afi, Route};
use bgp_values::of_mldp::mldp_fec::Fec;
use edge_defs::of_bgp_messages::bgp_attributes::Key;
use mv_base::route_targets::{ExtComm, Target, source_as, vrf_import};
use mv_base::{Addr, Pattern, Rd};
use scenario_defs::Vrf;

/// What a route that was taken says besides its key: next hop, extended communities in order, and tunnel.
#[derive(Clone, Copy)]
pub struct TakenValue<'a> {
    pub next_hop: Addr,
    pub comms: &'a [ExtComm],
    pub pmsi: &'a KeptPmsi,
}

/// What a unicast route says for a Source Tree Join: its VRF Route Import and its Source AS.
#[derive(Clone, Copy)]
pub struct JoinBy {
    pub import: Import,
    pub source_as: u16,
}

/// An S-PMSI A-D route.
#[derive(Clone, Copy)]
pub struct SelectiveRoute {
    pub rd: Rd,
    pub pattern: Pattern,
    pub originator: Addr,
}

/// A selective route that a VRF imports, with its tunnel.
#[derive(Clone, Copy)]
pub struct ImportedSelective {
    pub route: SelectiveRoute,
    pub fec: Fec,
}

/// The source and the group of a Source Active A-D route, or of a Source Tree Join.
#[derive(Clone, Copy)]
pub struct FlowRoute {
    pub source: Addr,
    pub group: Addr,
}

/// Whether one of the communities is a Route Target of the VRF.
pub fn is_admitted(vrf: &Vrf, comms: &[ExtComm]) -> bool
    ensures { result ≡ is_admitted vrf.now comms.now }
{
    comms.iter().any(|comm| vrf.targets.has(Target(*comm)))
}

/// Whether one of the communities is this one.
fn has_comm(wanted: &ExtComm, comms: &[ExtComm]) -> bool
    ensures { result ≡ has_comm wanted.now comms.now }
{
    comms.iter().any(|comm| wanted.same(*comm))
}

/// The VRF of that number at the edge of that address.
fn named(addr: [u8; 4], number: u16) -> Import
    ensures import { as_import result ≡ record { addr = V4 addr; number = number } }
    ensures octets { length addr ≡ 4 }
    ensures fits { number < 2 ^ 16 }
{
    Import { addr, number }
}

/// What the community names, where it is a VRF Route Import.
fn import_in(comm: ExtComm) -> Option<Import>
    ensures { option_map as_import result ≡ import_in comm }
{
    match vrf_import(comm) {
        Some((Addr::V4(addr), number)) => Some(named(addr, number)),
        Some((Addr::V6(_), _)) => unreachable!(),
        None => None,
    }
}

/// The number of the AS, where the community is a Source AS.
fn source_as_in(comm: ExtComm) -> Option<u16>
    ensures { result ≡ source_as_in comm }
{
    source_as(comm)
}

/// The one VRF Route Import among the communities.
fn only_import(comms: &[ExtComm]) -> Option<Import>
    ensures { option_map as_import result ≡ only_one (found_in import_in comms.now) }
{
    let mut only = None;
    for comm in comms {
        let found = import_in(*comm);
        if found.is_some() {
            if only.is_some() {
                return None;
            }
            only = found;
        }
    }
    only
}

/// The one Source AS among the communities.
fn only_source_as(comms: &[ExtComm]) -> Option<u16>
    ensures { result ≡ only_one (found_in source_as_in comms.now) }
{
    let mut only = None;
    for comm in comms {
        let found = source_as_in(*comm);
        if found.is_some() {
            if only.is_some() {
                return None;
            }
            only = found;
        }
    }
    only
}

/// What a unicast route that was taken from the peer of that address says for a Source Tree Join: it has exactly one VRF Route Import
/// and exactly one Source AS, and the import's address, the next hop and the peer are one address.
pub fn join_by(peer: Addr, value: &TakenValue) -> Option<JoinBy>
    ensures { option_map as_join result ≡ join_by peer (value_of value.now) }
{
    let import = only_import(value.comms)?;
    let source_as = only_source_as(value.comms)?;
    if Addr::V4(import.addr).same(peer) && value.next_hop.same(peer) {
        Some(JoinBy { import, source_as })
    } else {
        None
    }
}

/// The originator of an Intra-AS I-PMSI A-D route. Under AFI 2 it is not used.
fn inclusive_of(key: &Key) -> Option<Addr>
    ensures { result ≡ inclusive_of key.now }
{
    match key {
        Key::Mcast(Afi::Ipv4, Route::Intra { rd: _, originator }) => Some(*originator),
        _ => None,
    }
}

/// The tunnel of an Intra-AS I-PMSI A-D route of that key and value from the peer of that address, for each VRF that imports it.
pub fn inclusive_tunnel(peer: Addr, key: &Key, value: &TakenValue) -> Option<Fec>
    ensures { result ≡ inclusive_tunnel peer key.now (value_of value.now) }
{
    let originator = inclusive_of(key)?;
    tunnel_by(peer, originator, value)
}

/// The tunnel of an Intra-AS I-PMSI A-D route of that key and value, where the VRF imports it from the peer of that address.
pub fn imported_inclusive(vrf: &Vrf, peer: Addr, key: &Key, value: &TakenValue) -> Option<Fec>
    ensures { (taken : TakenRoute) → taken.value ≡ value_of value.now → result ≡ imported_inclusive vrf.now peer (key.now, taken) }
{
    let originator = inclusive_of(key)?;
    if is_admitted(vrf, value.comms) {
        tunnel_by(peer, originator, value)
    } else {
        None
    }
}

/// Whether an S-PMSI A-D route is not used: under AFI 2, with both wildcards.
fn is_passed_over(afi: Afi, source: Option<Addr>, group: Option<Addr>) -> bool
    ensures { result ≡ is_passed_over afi source group }
{
    match afi {
        Afi::Ipv4 => false,
        Afi::Ipv6 => source.is_none() && group.is_none(),
    }
}

/// An S-PMSI A-D route, where it is used.
fn selective_of(key: &Key) -> Option<SelectiveRoute>
    ensures { option_map as_route result ≡ selective_of key.now }
{
    match key {
        Key::Mcast(
            afi,
            Route::Selective {
                rd,
                source,
                group,
                originator,
            },
        ) => {
            if is_passed_over(*afi, *source, *group) {
                return None;
            }
            Some(SelectiveRoute {
                rd: *rd,
                pattern: Pattern {
                    source: *source,
                    group: *group,
                },
                originator: *originator,
            })
        }
        _ => None,
    }
}

/// The S-PMSI A-D route of that key and value, with its tunnel, where the VRF imports it from the peer of that address.
pub fn imported_selective(
    vrf: &Vrf,
    peer: Addr,
    key: &Key,
    value: &TakenValue,
) -> Option<ImportedSelective>
    ensures { (taken : TakenRoute) → taken.value ≡ value_of value.now →
        option_map as_selective result ≡ imported_selective vrf.now peer (key.now, taken) }
{
    let route = selective_of(key)?;
    if !is_admitted(vrf, value.comms) {
        return None;
    }
    let fec = tunnel_by(peer, route.originator, value)?;
    Some(ImportedSelective { route, fec })
}

fn active_of(key: &Key) -> Option<FlowRoute>
    ensures { option_map as_flow result ≡ active_of key.now }
{
    match key {
        Key::Mcast(
            _,
            Route::Active {
                rd: _,
                source,
                group,
            },
        ) => Some(FlowRoute {
            source: *source,
            group: *group,
        }),
        _ => None,
    }
}

/// The source and the group of a Source Active A-D route of that key and value, where the VRF imports it.
pub fn imported_active(vrf: &Vrf, key: &Key, value: &TakenValue) -> Option<FlowRoute>
    ensures { (taken : TakenRoute) → taken.value ≡ value_of value.now →
        option_map as_flow result ≡ imported_active vrf.now (key.now, taken) }
{
    let flow = active_of(key)?;
    if is_admitted(vrf, value.comms) {
        Some(flow)
    } else {
        None
    }
}

/// Whether a Source Tree Join of that RD and Source AS, with these communities, is one at the VRF.
fn is_join_at(own: &LocalVrf, rd: &Rd, source_as: u32, comms: &[ExtComm]) -> bool
    ensures { (place : EdgePlace) → IsAt place own.now → result ≡ (pointwise nat_eq rd.now.0 own.now.vrf.rd.0
        && (source_as == place.scenario.system) && has_comm (import_target (own_import place own.now.vrf)) comms.now) }
{
    rd.0 == own.vrf().rd.0
        && source_as == u32::from(own.system())
        && has_comm(&import_target(&own_import(own)), comms)
}

/// The source and the group of a Source Tree Join of that key and value, where it is one at the VRF: RD and Source AS are the VRF's
/// own, and one of the Route Targets names the VRF at its edge.
pub fn imported_join(own: &LocalVrf, key: &Key, value: &TakenValue) -> Option<FlowRoute>
    ensures { (place : EdgePlace) (taken : TakenRoute) → IsAt place own.now → taken.value ≡ value_of value.now →
        option_map as_flow result ≡ imported_join place own.now.vrf (key.now, taken) }
{
    match key {
        Key::Mcast(
            _,
            Route::SourceJoin {
                rd,
                source_as,
                source,
                group,
            },
        ) => {
            if is_join_at(own, rd, *source_as, value.comms) {
                Some(FlowRoute {
                    source: *source,
                    group: *group,
                })
            } else {
                None
            }
        }
        _ => None,
    }
}
