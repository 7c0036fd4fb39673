//! Laws of what peers are to have.
ghost use Rattle.std.specs.Prelude.{◌≡◌, ℕ, true, List, [], map, Option};
ghost use Rattle.std.specs.FinMap as maps;
ghost use Rattle.std.specs.FinMap.{FinMap};
ghost use Rattle.mv_base.specs.Lists.{Among};
ghost use Rattle.mv_base.specs.declared.addr.Addr.{Addr};
ghost use Rattle.mv_base.specs.declared.ids.IfaceId.{IfaceId};
ghost use Rattle.mv_base.specs.declared.ids.NodeId.{NodeId};
ghost use Rattle.mv_base.specs.declared.ids.VrfId.{VrfId};
ghost use Rattle.mv_base.specs.declared.rd.Rd.{Rd};
ghost use Rattle.bgp_messages.specs.declared.bgp_attributes.key.Key.{Key};
ghost use Rattle.bgp_messages.specs.bgp_update.Written.{afi_of};
ghost use Rattle.scenario_defs.specs.Rules.{Rules};
ghost use Rattle.vrf_words.specs.declared.tree_defs.flow.Flow.{Flow};
ghost use Rattle.edge_defs.specs.Edge.{Control, Upstream, VrfFlow, flow_cmp};
ghost use Rattle.edge_defs.specs.Held.{held_for};
ghost use Rattle.edge_defs.specs.Originated.{is_iface_of};
ghost use Rattle.edge_defs.specs.Place.{EdgePlace, OwnVrf, own_vrfs};
ghost use Rattle.edge_defs.specs.Steps.{selections_run, timed};
ghost use Rattle.edge_tables.specs.Tables.{Tables, fresh};
ghost use Rattle.vrf_words.specs.tree_laws.Joins.{AreOfVrfs, first_told, join_key};
ghost use Rattle.vrf_words.specs.tree_laws.TreeOf.{flow_in};
ghost use Rattle.vrf_words.specs.edge_words.held_laws.Held.{IsJoinKey, IsNotedBeside, note_of, without_note};
ghost use Rattle.held_tables.specs.Holding.{HoldAll};
ghost use Rattle.held_tables.specs.Starting.{AreEmpty};
ghost use Rattle.held_tables.specs.Joins.{AreOthersAlike, HoldAllBut, join_to, joins_of_changed, with_flows};

/// Where another note of a source and a group stays at the interfaces of the VRF, nothing is to be done after the end of one.
pub fn another_note_holds()
    ensures { (place : EdgePlace) (control : Control) (own : OwnVrf) (iface : IfaceId) (source group : Addr) (tables : Tables) →
        Rules place.scenario → Among own (own_vrfs place) → is_iface_of place.scenario own.id iface ≡ true →
        IsNotedBeside place control own (note_of iface source group) → HoldAll place control tables →
        HoldAll place (without_note control (note_of iface source group)) tables }
{}

/// The Source Tree Join of a flow that the edge holds towards a peer, under a route distinguisher and a Source AS, is that of the first of
/// its VRFs whose flow of that source and group has that peer with these for its upstream.
pub fn joins_are_of_first_flows()
    ensures { (place : EdgePlace) (control : Control) (peer : NodeId) (rd : Rd) (source_as : ℕ) (flow : Flow) → AreOfVrfs place control →
        maps.get (held_for place control peer) (join_key (afi_of flow.source) rd source_as flow)
        ≡ first_told (λ own. join_to place peer rd source_as (maps.get control.flows (flow_in own.id flow))) (own_vrfs place) }
{}

/// Where flows alone change, what the edge holds changes at joins alone; and at a join only where some VRF's flow of that source and group
/// has another upstream than it had, as that peer, RD and Source AS have it.
pub fn flows_change_joins_alone()
    ensures others { (place : EdgePlace) (control : Control) (flows : FinMap flow_cmp (Option Upstream)) (peer : NodeId) (key : Key) →
        ¬ (IsJoinKey key) →
        maps.get (held_for place (with_flows control flows) peer) key ≡ maps.get (held_for place control peer) key }
    ensures joins { (place : EdgePlace) (old new : Control) (peer : NodeId) (rd : Rd) (source_as : ℕ) (flow : Flow) →
        AreOfVrfs place old → AreOfVrfs place new → ((vrf : VrfId) →
        join_to place peer rd source_as (maps.get new.flows (flow_in vrf flow))
        ≡ join_to place peer rd source_as (maps.get old.flows (flow_in vrf flow))) →
        maps.get (held_for place new peer) (join_key (afi_of flow.source) rd source_as flow)
        ≡ maps.get (held_for place old peer) (join_key (afi_of flow.source) rd source_as flow) }
{}

/// Where the flows that changed are listed, the joins that change are among those of these flows, as their upstreams were and as they are.
pub fn changed_flows_tell_joins()
    ensures { (place : EdgePlace) (old new : Control) (changed : List VrfFlow) →
        ((flow : VrfFlow) → ¬ (Among flow changed) → maps.get new.flows flow ≡ maps.get old.flows flow) →
        AreOthersAlike place old new (joins_of_changed old new changed) }
{}

/// Tables that hold what the edge held before its flows changed hold what it holds then, but at the joins that changed; and once no such
/// join is left, they hold all.
pub fn joins_are_left_one_by_one()
    ensures begun { (place : EdgePlace) (control : Control) (flows : FinMap flow_cmp (Option Upstream)) (but : List (NodeId × Key))
        (tables : Tables) → AreOfVrfs place control → AreOfVrfs place (with_flows control flows) →
        AreOthersAlike place control (with_flows control flows) but → HoldAll place control tables →
        HoldAllBut place (with_flows control flows) but tables }
    ensures ended { (place : EdgePlace) (control : Control) (tables : Tables) → HoldAllBut place control [] tables →
        HoldAll place control tables }
{}

/// In fresh tables no peer is to have a route.
pub fn fresh_tables_are_empty()
    ensures { (peers : List NodeId) → AreEmpty (maps.from_entries (map (λ peer. (peer, fresh)) peers)) }
{}

/// Delays of selections that are run change nothing of what peers are to have, and neither do all timers of customers and of BGP.
pub fn run_delays_change_nothing()
    ensures selections { (place : EdgePlace) (control : Control) (delay now : ℕ) (tables : Tables) → HoldAll place control tables →
        HoldAll place (record control { selections = selections_run delay now control.selections }) tables }
    ensures timers { (place : EdgePlace) (control : Control) (now : ℕ) (tables : Tables) → HoldAll place control tables →
        HoldAll place (timed place now control) tables }
{}
