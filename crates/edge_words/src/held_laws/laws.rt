//! Laws of what an edge holds towards its peers.
ghost use Rattle.std.specs.Prelude.{◌≡◌, ◌↔◌, true, Some};
ghost use Rattle.std.specs.FinMap as maps;
ghost use Rattle.mv_base.specs.Lists.{Among};
ghost use Rattle.mv_base.specs.declared.addr.Addr.{Addr};
ghost use Rattle.mv_base.specs.declared.ids.IfaceId.{IfaceId};
ghost use Rattle.mv_base.specs.declared.ids.NodeId.{NodeId};
ghost use Rattle.mv_base.specs.declared.pattern.Pattern.{Pattern};
ghost use Rattle.bgp_messages.specs.declared.bgp_attributes.key.Key.{Key};
ghost use Rattle.scenario_defs.specs.Rules.{Rules};
ghost use Rattle.edge_defs.specs.Edge.{Control, Selected};
ghost use Rattle.edge_defs.specs.Held.{held_for};
ghost use Rattle.edge_defs.specs.Keys.{Value};
ghost use Rattle.edge_defs.specs.Originated.{active_key, is_iface_of, plain_value, selective_key, tunnel_value};
ghost use Rattle.edge_defs.specs.Place.{EdgePlace, OwnVrf, own_vrfs, tunnel_number};
ghost use Rattle.edge_words.specs.held_laws.Held.{IsJoinKey, IsNotedBeside, Originates};
ghost use Rattle.edge_words.specs.held_laws.Held.{note_of, with_note, with_selected, without_note, without_selected};

/// Towards each peer an edge holds, besides joins, exactly the routes that its VRFs originate.
pub fn held_are_originated()
    ensures { (place : EdgePlace) (control : Control) (peer : NodeId) (key : Key) (value : Value) → Rules place.scenario →
        ¬ (IsJoinKey key) →
        (maps.get (held_for place control peer) key ≡ Some value) ↔ Originates place control key value }
{}

/// A source and a group that are noted at an interface of a VRF have a Source Active route of the VRF towards each peer. It goes with the
/// last note of them at an interface of the VRF, and no other route changes.
pub fn sources_are_held()
    ensures noted { (place : EdgePlace) (control : Control) (peer : NodeId) (own : OwnVrf) (iface : IfaceId) (source group : Addr) →
        Rules place.scenario → Among own (own_vrfs place) → is_iface_of place.scenario own.id iface ≡ true →
        held_for place (with_note control (note_of iface source group)) peer
        ≡ maps.insert (held_for place control peer) (active_key own.vrf source group) (plain_value place own.vrf) }
    ensures last { (place : EdgePlace) (control : Control) (peer : NodeId) (own : OwnVrf) (iface : IfaceId) (source group : Addr) →
        Rules place.scenario → Among own (own_vrfs place) → is_iface_of place.scenario own.id iface ≡ true →
        ¬ (IsNotedBeside place control own (note_of iface source group)) →
        held_for place (without_note control (note_of iface source group)) peer
        ≡ maps.remove (held_for place control peer) (active_key own.vrf source group) }
    ensures beside { (place : EdgePlace) (control : Control) (peer : NodeId) (own : OwnVrf) (iface : IfaceId) (source group : Addr) →
        Rules place.scenario → Among own (own_vrfs place) → is_iface_of place.scenario own.id iface ≡ true →
        IsNotedBeside place control own (note_of iface source group) →
        held_for place (without_note control (note_of iface source group)) peer ≡ held_for place control peer }
{}

/// A pattern that is selected in a VRF has an S-PMSI A-D route with its tunnel towards each peer, which goes with the selection. No other
/// route changes.
pub fn selections_are_held()
    ensures selected { (place : EdgePlace) (control : Control) (peer : NodeId) (own : OwnVrf) (pattern : Pattern) (selected : Selected) →
        Rules place.scenario → Among own (own_vrfs place) →
        held_for place (with_selected control own.id pattern selected) peer
        ≡ maps.insert (held_for place control peer) (selective_key place own.vrf pattern)
        (tunnel_value place own.vrf (tunnel_number own.vrf selected.number)) }
    ensures gone { (place : EdgePlace) (control : Control) (peer : NodeId) (own : OwnVrf) (pattern : Pattern) →
        Rules place.scenario → Among own (own_vrfs place) →
        held_for place (without_selected control own.id pattern) peer
        ≡ maps.remove (held_for place control peer) (selective_key place own.vrf pattern) }
{}
