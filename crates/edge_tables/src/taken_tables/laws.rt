//! What is taken change by change is what an update makes; and keys that have spellings and are used alike are one key.
ghost use Rattle.std.specs.Prelude.{◌≡◌, ℕ, List, Some, fold};
ghost use Rattle.mv_base.specs.declared.addr.Addr.{Addr};
ghost use Rattle.mv_base.specs.declared.ids.NodeId.{NodeId};
ghost use Rattle.mv_base.specs.declared.rd.Rd.{Rd};
ghost use Rattle.bgp_values.specs.declared.mvpn_nlri.route.Afi.{Afi};
ghost use Rattle.bgp_values.specs.declared.mvpn_nlri.route.Route.TheVariants.{Active};
ghost use Rattle.bgp_messages.specs.declared.bgp_attributes.key.Key.{Key};
ghost use Rattle.bgp_messages.specs.declared.bgp_attributes.key.Key.TheVariants.{Mcast};
ghost use Rattle.bgp_messages.specs.declared.bgp_attributes.update.Change.{Change};
ghost use Rattle.bgp_messages.specs.bgp_update.Written.{IsWritableKey};
ghost use Rattle.scenario_defs.specs.declared.scenario.Vrf.{Vrf};
ghost use Rattle.edge_defs.specs.Edge.{TakenRoute};
ghost use Rattle.edge_defs.specs.Imported.{FlowRoute, ImportedSelective, imported_join, imported_selective};
ghost use Rattle.edge_defs.specs.Place.{EdgePlace};
ghost use Rattle.edge_defs.specs.Steps.{taken_change};
ghost use Rattle.edge_tables.specs.taken_tables.Tables.{Tables, changed_at};

/// A row of changes that are taken from a peer one after another is one change of its table.
pub fn changes_are_one()
    ensures { (now : ℕ) (peer : NodeId) (changes : List Change) (tables : Tables) →
        fold (λ (tables : Tables) (change : Change). changed_at peer (λ taken. taken_change now taken change) tables) tables changes
        ≡ changed_at peer (λ taken. fold (taken_change now) taken changes) tables }
{}

/// The keys of two selective routes that VRFs import from one peer are one key, where the route distinguishers and the patterns
/// are: the originator is the peer's address, and the AFI follows from an address of the pattern (RFC 6514 section 4.3). With both
/// wildcards AFI 2 is not used.
pub fn selective_keys_are_one()
    ensures { (vrf other : Vrf) (peer : Addr) (own next : Key × TakenRoute) (found also : ImportedSelective) →
        IsWritableKey own.0 → IsWritableKey next.0 →
        imported_selective vrf peer own ≡ Some found → imported_selective other peer next ≡ Some also →
        found.route.rd ≡ also.route.rd → found.route.source ≡ also.route.source → found.route.group ≡ also.route.group →
        own.0 ≡ next.0 }
{}

/// The keys of two Source Active routes of one route distinguisher, source and group are one key (RFC 6514 section 4.5).
pub fn active_keys_are_one()
    ensures { (own other : Afi) (rd : Rd) (source group : Addr) →
        IsWritableKey (Mcast own (Active rd source group)) → IsWritableKey (Mcast other (Active rd source group)) → own ≡ other }
{}

/// The keys of two Source Tree Joins that a VRF uses are one key, where source and group are: route distinguisher and autonomous
/// system are the VRF's own (RFC 6514 section 4.6).
pub fn join_keys_are_one()
    ensures { (place : EdgePlace) (vrf : Vrf) (own next : Key × TakenRoute) (flow : FlowRoute) →
        IsWritableKey own.0 → IsWritableKey next.0 →
        imported_join place vrf own ≡ Some flow → imported_join place vrf next ≡ Some flow → own.0 ≡ next.0 }
{}
