//! Source Tree Joins (RFC 6514 section 11.1.3).
ghost use Rattle.std.specs.Prelude.{◌≡◌, ◌∷◌, ℕ, List, None, Some, OnOk, OnErr};
ghost use Rattle.std.specs.FinMap as maps;
ghost use Rattle.mv_base.specs.declared.ids.NodeId.{NodeId};
ghost use Rattle.bgp_values.specs.mvpn_nlri.Spelling.{IsGroup};
ghost use Rattle.bgp_values.specs.declared.mvpn_nlri.route.Route.TheVariants as routes;
ghost use Rattle.bgp_messages.specs.declared.bgp_attributes.key.Key.{Key};
ghost use Rattle.bgp_messages.specs.declared.bgp_attributes.key.Key.TheVariants.{Mcast};
ghost use Rattle.bgp_messages.specs.bgp_update.Written.{afi_of};
ghost use Rattle.edge_defs.specs.Edge.{Control};
ghost use Rattle.edge_defs.specs.Held.{held_for};
ghost use Rattle.edge_defs.specs.Place.{EdgePlace};
ghost use Rattle.edge_routes.specs.Local.{IsAt, as_import};
ghost use Rattle.edge_tables.specs.Tables.{AtPeer, with_route, without_route};
ghost use Rattle.held_tables.specs.Joins.{HoldAllBut, value_towards};

use crate::keys;
use edge_routes::edge_home::OwnVrf;
use edge_routes::{RemoteUpstream, join_route};
use edge_tables::EdgeTables;
use mv_base::{Addr, NoMemory, NodeId, Rd};

/// That peer is to have the join of a flow for that upstream.
pub fn hold_join(
    tables: &mut EdgeTables,
    own: &OwnVrf,
    peer: NodeId,
    upstream: &RemoteUpstream,
    source: Addr,
    group: Addr,
) -> Result<(), NoMemory>
    requires { IsGroup (afi_of source) group }
    ensures set { OnOk result ((place : EdgePlace) → IsAt place own.now.local →
        let key : Key = Mcast (afi_of source) (routes.SourceJoin upstream.now.rd upstream.now.source_as source group) in
        let value = value_towards place (as_import upstream.now.import) in
        AtPeer peer (λ before thereafter. thereafter ≡ with_route key value before) tables.old tables.new) }
    // Where the edge holds that join, one key less is still to be changed.
    ensures held { OnOk result ((place : EdgePlace) (control : Control) (but : List (NodeId × Key)) → IsAt place own.now.local →
        let key : Key = Mcast (afi_of source) (routes.SourceJoin upstream.now.rd upstream.now.source_as source group) in
        maps.get (held_for place control peer) key ≡ Some (value_towards place (as_import upstream.now.import)) →
        HoldAllBut place control ((peer, key) ∷ but) tables.old → HoldAllBut place control but tables.new) }
    ensures unchanged { OnErr result (tables.new ≡ tables.old) }
{
    let key = keys::join_key(upstream.rd, upstream.source_as, source, group);
    let (_, value) = join_route(own.local.addr(), upstream, source, group);
    tables.set_for(peer, &key, &value)
}

/// That peer is to have no join of a flow with that RD and Source AS.
pub fn drop_join(
    tables: &mut EdgeTables,
    peer: NodeId,
    rd: Rd,
    source_as: u16,
    source: Addr,
    group: Addr,
) -> Result<(), NoMemory>
    requires { IsGroup (afi_of source) group }
    ensures unset { OnOk result (
        let key : Key = Mcast (afi_of source) (routes.SourceJoin rd source_as source group) in
        AtPeer peer (λ before thereafter. thereafter ≡ without_route key before) tables.old tables.new) }
    // Where the edge holds no such join, one key less is still to be changed.
    ensures held { OnOk result ((place : EdgePlace) (control : Control) (but : List (NodeId × Key)) →
        let key : Key = Mcast (afi_of source) (routes.SourceJoin rd source_as source group) in
        maps.get (held_for place control peer) key ≡ None →
        HoldAllBut place control ((peer, key) ∷ but) tables.old → HoldAllBut place control but tables.new) }
    ensures unchanged { OnErr result (tables.new ≡ tables.old) }
{
    let key = keys::join_key(rd, source_as, source, group);
    tables.unset_for(peer, &key)
}
