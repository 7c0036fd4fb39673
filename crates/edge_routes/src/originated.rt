//! The routes that an edge originates (RFC 6514 sections 6, 7, 9.1.1, 11.1.3, 12.1 and 14.1; RFC 4364 section 4.3).
ghost use Rattle.std.specs.Prelude.{◌≡◌, ◌<◌, ◌≤◌, ◌+◌, ◌++◌, [], ◌∷◌, false, length, map, take, None, Some};
ghost use Rattle.mv_base.specs.declared.ids.NodeId.{NodeId};
ghost use Rattle.mv_base.specs.declared.ids.VrfId.{VrfId};
ghost use Rattle.mv_base.specs.declared.addr.Addr.TheVariants.{V4};
ghost use Rattle.edge_defs.specs.bgp_messages.declared.bgp_attributes.key.Key.TheVariants.{Unicast};
ghost use Rattle.edge_defs.specs.bgp_messages.bgp_attributes.Spelling.{AreComms};
ghost use Rattle.edge_defs.specs.bgp_messages.bgp_update.Written.{IsTunnel};
ghost use Rattle.edge_defs.specs.Edge.{Remote, Upstream, VrfFlow};
ghost use Rattle.edge_defs.specs.Held.{join_route};
ghost use Rattle.edge_defs.specs.bgp_messages.bgp_update.Written.{afi_of};
ghost use Rattle.edge_defs.specs.Originated.{
  active_key,
  afi_by,
  import_comm,
  import_target,
  inclusive_key,
  own_import,
  plain_value,
  selective_key,
  source_as_comm,
  target_comms,
  tunnel_value,
  unicast_value,
};
ghost use Rattle.edge_defs.specs.Place.{EdgePlace, lsp, own_addr};
ghost use Rattle.edge_routes.specs.Local.{IsAt, as_import};
ghost use Rattle.edge_routes.specs.route_order.Values.{as_value};

use crate::route_order::TableValue;
use crate::{LocalVrf, tunnel};
use bgp_values::mvpn_nlri::{Afi, Route};
use bgp_values::pmsi_attr::{Pmsi, Tunnel};
use edge_defs::of_bgp_messages::bgp_attributes::Key;
use mv_base::route_targets::{ExtComm, Targets};
use mv_base::{Addr, Pattern, Prefix, Rd};

/// What a VRF Route Import names: a VRF by its number at the edge of that IPv4 address (RFC 6514 section 7).
#[derive(Clone, Copy)]
pub struct Import {
    pub addr: [u8; 4],
    pub number: u16,
}

/// The unicast route that a VRF chose for a flow of another edge: its Route Distinguisher, VRF Route Import and Source AS.
#[derive(Clone, Copy)]
pub struct RemoteUpstream {
    pub rd: Rd,
    pub import: Import,
    pub source_as: u16,
}

/// The AFI of a flow's addresses (RFC 6514 section 4).
pub fn afi_of(addr: Addr) -> Afi
    ensures { result ≡ afi_of addr }
{
    match addr {
        Addr::V4(_) => Afi::Ipv4,
        Addr::V6(_) => Afi::Ipv6,
    }
}

/// The AFI of a pattern's addresses, which is 1 where both are wildcards.
fn afi_by(source: Option<Addr>, group: Option<Addr>) -> Afi
    ensures { result ≡ afi_by source group }
{
    match (source, group) {
        (Some(source), _) => afi_of(source),
        (None, Some(group)) => afi_of(group),
        (None, None) => Afi::Ipv4,
    }
}

/// The key of the VRF's Intra-AS I-PMSI A-D route.
pub fn inclusive_key(own: &LocalVrf) -> Key
    ensures { (place : EdgePlace) → IsAt place own.now → result ≡ inclusive_key place own.now.vrf }
{
    let route = Route::Intra {
        rd: own.vrf().rd,
        originator: Addr::V4(own.addr()),
    };
    Key::Mcast(Afi::Ipv4, route)
}

/// The key of the S-PMSI A-D route for a pattern that is selected in the VRF.
pub fn selective_key(own: &LocalVrf, pattern: &Pattern) -> Key
    ensures { (place : EdgePlace) → IsAt place own.now → result ≡ selective_key place own.now.vrf pattern.now }
{
    let route = Route::Selective {
        rd: own.vrf().rd,
        source: pattern.source,
        group: pattern.group,
        originator: Addr::V4(own.addr()),
    };
    Key::Mcast(afi_by(pattern.source, pattern.group), route)
}

/// The key of the Source Active A-D route for a source that sends to the group.
pub fn active_key(own: &LocalVrf, source: Addr, group: Addr) -> Key
    ensures { result ≡ active_key own.now.vrf source group }
{
    let route = Route::Active {
        rd: own.vrf().rd,
        source,
        group,
    };
    Key::Mcast(afi_of(source), route)
}

/// The key of the VPN-IPv4 or VPN-IPv6 route for a prefix of an attached site.
pub fn unicast_key(own: &LocalVrf, prefix: Prefix) -> Key
    ensures { result ≡ Unicast own.now.vrf.rd prefix }
{
    Key::Unicast {
        rd: own.vrf().rd,
        prefix,
    }
}

/// The VRF, as other edges name it.
pub fn own_import(own: &LocalVrf) -> Import
    ensures { (place : EdgePlace) → IsAt place own.now → as_import result ≡ own_import place own.now.vrf }
{
    Import {
        addr: own.addr(),
        number: own.vrf().number,
    }
}

/// A VRF Route Import.
fn import_comm(import: &Import) -> ExtComm
    ensures { result ≡ import_comm (as_import import.now) }
{
    let [a, b, c, d] = import.addr;
    let [high, low] = import.number.to_be_bytes();
    ExtComm([0x01, 0x0b, a, b, c, d, high, low])
}

/// The IPv4-address Route Target that is made of a VRF Route Import (RFC 6514 section 11.1.3).
pub fn import_target(import: &Import) -> ExtComm
    ensures { result ≡ import_target (as_import import.now) }
{
    let [a, b, c, d] = import.addr;
    let [high, low] = import.number.to_be_bytes();
    ExtComm([0x01, 0x02, a, b, c, d, high, low])
}

/// A Source AS.
fn source_as_comm(number: u16) -> ExtComm
    ensures { result ≡ source_as_comm number }
{
    let [high, low] = number.to_be_bytes();
    ExtComm([0x00, 0x09, high, low, 0, 0, 0, 0])
}

/// Puts a community after the first `count` ones.
fn put_comm(places: &mut [ExtComm; 10], count: usize, comm: ExtComm)
    requires { count < 10 }
    ensures comms { take (count + 1) places.new ≡ take count places.old ++ comm ∷ [] }
    ensures octets { AreComms (take count places.old) → AreComms (take (count + 1) places.new) }
{
    places[count] = comm;
}

/// The communities of the targets in front of 10 places.
fn target_places(targets: &Targets) -> [ExtComm; 10]
    requires { length targets.now ≤ 8 }
    ensures comms { take (length targets.now) result ≡ map (λ target. target.0) targets.now }
    ensures octets { AreComms (take (length targets.now) result) }
{
    let list = targets.as_slice();
    let mut places = [ExtComm([0; 8]); 10];
    for i in 0..list.len() {
        put_comm(&mut places, i, list[i].0);
    }
    places
}

/// A value whose next hop is the edge.
fn own_value(addr: [u8; 4], comms: &[ExtComm], pmsi: Option<Pmsi>) -> TableValue
    requires few { length comms.now ≤ 10 }
    requires octets { AreComms comms.now }
    requires tunnel { IsTunnel pmsi }
    ensures { result ≡ as_value (V4 addr) comms.now pmsi }
{
    match TableValue::of(Addr::V4(addr), comms, pmsi) {
        Some(value) => value,
        None => unreachable!(),
    }
}

/// The value of a route of the VRF that says no more than its targets.
pub fn plain_value(own: &LocalVrf) -> TableValue
    ensures { (place : EdgePlace) → IsAt place own.now → result ≡ plain_value place own.now.vrf }
{
    let targets = &own.vrf().targets;
    let places = target_places(targets);
    own_value(own.addr(), &places[..targets.as_slice().len()], None)
}

/// The value of the VRF's unicast routes: after its targets stand its VRF Route Import and its Source AS.
pub fn unicast_value(own: &LocalVrf) -> TableValue
    ensures { (place : EdgePlace) → IsAt place own.now → result ≡ unicast_value place own.now.vrf }
{
    let targets = &own.vrf().targets;
    let count = targets.as_slice().len();
    let mut places = target_places(targets);
    put_comm(&mut places, count, import_comm(&own_import(own)));
    put_comm(&mut places, count + 1, source_as_comm(own.system()));
    own_value(own.addr(), &places[..count + 2], None)
}

/// The tunnel of that number, whose root is the edge (RFC 6514 section 5).
fn own_tunnel(addr: [u8; 4], number: u64) -> Pmsi
    ensures value { result ≡ record { leaf_info = false; tunnel = Tunnel.Mldp (lsp (V4 addr) number); label = None } }
    ensures writable { IsTunnel (Some result) }
{
    Pmsi {
        leaf_info: false,
        tunnel: Tunnel::Mldp(tunnel::lsp(Addr::V4(addr), number)),
        label: None,
    }
}

/// The value of a route that names the tunnel of that number.
pub fn tunnel_value(own: &LocalVrf, number: u64) -> TableValue
    ensures { (place : EdgePlace) → IsAt place own.now → result ≡ tunnel_value place own.now.vrf number }
{
    let targets = &own.vrf().targets;
    let places = target_places(targets);
    let pmsi = own_tunnel(own.addr(), number);
    own_value(own.addr(), &places[..targets.as_slice().len()], Some(pmsi))
}

/// The Source Tree Join of a flow at the edge of the upstream's route, put by the edge of that IPv4 address: it has the RD and the
/// Source AS of the route, and the Route Target made of its VRF Route Import.
pub fn join_route(
    addr: [u8; 4],
    upstream: &RemoteUpstream,
    source: Addr,
    group: Addr,
) -> (Key, TableValue)
    ensures { (place : EdgePlace) (vrf : VrfId) (edge : NodeId) → own_addr place ≡ V4 addr →
        let flow : VrfFlow = record { vrf = vrf; source = source; group = group } in
        let chosen : Upstream = Remote edge upstream.now.rd (as_import upstream.now.import) upstream.now.source_as in
        join_route place edge (flow, Some chosen) ≡ Some result }
{
    let route = Route::SourceJoin {
        rd: upstream.rd,
        source_as: u32::from(upstream.source_as),
        source,
        group,
    };
    let mut places = [ExtComm([0; 8]); 10];
    put_comm(&mut places, 0, import_target(&upstream.import));
    (
        Key::Mcast(afi_of(source), route),
        own_value(addr, &places[..1], None),
    )
}
