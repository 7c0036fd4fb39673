//! Keys that have spellings.
ghost use Rattle.std.specs.Prelude.{◌≡◌};
ghost use Rattle.mv_base.specs.declared.addr.Addr.TheVariants.{V4};
ghost use Rattle.bgp_values.specs.mvpn_nlri.Spelling.{IsAnyOr, IsGroup};
ghost use Rattle.bgp_values.specs.declared.mvpn_nlri.route.Afi.TheVariants.{Ipv4};
ghost use Rattle.bgp_values.specs.declared.mvpn_nlri.route.Route.TheVariants as routes;
ghost use Rattle.bgp_messages.specs.declared.bgp_attributes.key.Key.TheVariants.{Mcast, Unicast};
ghost use Rattle.bgp_messages.specs.bgp_update.Written.{afi_of};
ghost use Rattle.scenario_defs.specs.Rules.{IsSitePrefix};
ghost use Rattle.edge_defs.specs.Originated.{active_key, afi_by, inclusive_key, selective_key};
ghost use Rattle.edge_defs.specs.Place.{EdgePlace};
ghost use Rattle.edge_routes.specs.Local.{IsAt};

use bgp_messages::bgp_attributes::Key;
use bgp_values::mvpn_nlri::Route;
use edge_routes::route_order::TableKey;
use edge_routes::{LocalVrf, afi_of};
use mv_base::{Addr, Pattern, Prefix, Rd};

/// The key of a Source Active A-D route.
pub(crate) fn active_key(own: &LocalVrf, source: Addr, group: Addr) -> TableKey
    requires { IsGroup (afi_of source) group }
    ensures { result ≡ active_key own.now.vrf source group }
{
    let key = edge_routes::active_key(own, source, group);
    TableKey::of(key)
}

/// The key of an S-PMSI A-D route of these parts, which have spellings.
fn spelled(
    rd: Rd,
    source: Option<Addr>,
    group: Option<Addr>,
    originator: [u8; 4],
    key: Key,
) -> TableKey
    requires group { IsAnyOr (IsGroup (afi_by source group)) group }
    requires parts { key ≡ Mcast (afi_by source group) (routes.Selective rd source group (V4 originator)) }
    ensures { result ≡ key }
{
    TableKey::of(key)
}

/// The key of an S-PMSI A-D route.
pub(crate) fn selective_key(own: &LocalVrf, pattern: &Pattern) -> TableKey
    requires { IsAnyOr (IsGroup (afi_by pattern.now.source pattern.now.group)) pattern.now.group }
    ensures { (place : EdgePlace) → IsAt place own.now → result ≡ selective_key place own.now.vrf pattern.now }
{
    let key = edge_routes::selective_key(own, pattern);
    spelled(own.vrf().rd, pattern.source, pattern.group, own.addr(), key)
}

/// The key of a Source Tree Join.
pub(crate) fn join_key(rd: Rd, source_as: u16, source: Addr, group: Addr) -> TableKey
    requires { IsGroup (afi_of source) group }
    ensures { result ≡ Mcast (afi_of source) (routes.SourceJoin rd source_as source group) }
{
    let route = Route::SourceJoin {
        rd,
        source_as: u32::from(source_as),
        source,
        group,
    };
    TableKey::of(Key::Mcast(afi_of(source), route))
}

/// The key of an Intra-AS I-PMSI A-D route of these parts, which have spellings.
fn spelled_inclusive(rd: Rd, originator: [u8; 4], key: Key) -> TableKey
    requires { key ≡ Mcast Ipv4 (routes.Intra rd (V4 originator)) }
    ensures { result ≡ key }
{
    TableKey::of(key)
}

/// The key of the VRF's Intra-AS I-PMSI A-D route.
pub(crate) fn inclusive_key(own: &LocalVrf) -> TableKey
    ensures { (place : EdgePlace) → IsAt place own.now → result ≡ inclusive_key place own.now.vrf }
{
    let key = edge_routes::inclusive_key(own);
    spelled_inclusive(own.vrf().rd, own.addr(), key)
}

/// The key of a unicast route.
pub(crate) fn unicast_key(own: &LocalVrf, prefix: Prefix) -> TableKey
    requires { IsSitePrefix prefix }
    ensures { result ≡ Unicast own.now.vrf.rd prefix }
{
    let key = edge_routes::unicast_key(own, prefix);
    TableKey::of(key)
}
