//! Laws of what the trees of an edge's VRFs say of the edge.
ghost use Rattle.std.specs.Prelude.{◌≡◌, ◌≢◌, ◌↔◌, ◌⊎◌, ◌<◌, ◌||◌, ℕ, true, List, [], length, map, is_some, option_map};
ghost use Rattle.std.specs.Prelude.{None, Some, if◌then◌else◌};
ghost use Rattle.std.specs.FinMap as maps;
ghost use Rattle.std.specs.FinMap.{FinMap};
ghost use Rattle.std.specs.FinSet as sets;
ghost use Rattle.mv_base.specs.Lists.{Among};
ghost use Rattle.selective_defs.specs.mldp.declared.mldp_fec.fec.Fec.{Fec};
ghost use Rattle.edge_words.specs.label_defs.LabelData.{branches_of};
ghost use Rattle.mv_base.specs.declared.ids.NodeId.{NodeId};
ghost use Rattle.mv_base.specs.declared.ids.SiteId.{SiteId};
ghost use Rattle.mv_base.specs.declared.rd.Rd.{Rd};
ghost use Rattle.edge_words.specs.bgp_messages.bgp_values.declared.mvpn_nlri.route.Afi.{Afi};
ghost use Rattle.edge_words.specs.bgp_messages.bgp_update.Written.{afi_of};
ghost use Rattle.scenario_defs.specs.Rules.{Rules};
ghost use Rattle.umh_select.specs.Order.{key_cmp};
ghost use Rattle.umh_select.specs.declared.key.RouteKey.{RouteKey};
ghost use Rattle.umh_select.specs.declared.route.Choice.{Choice};
ghost use Rattle.vrf_words.specs.declared.tree_defs.flow.Flow.{Flow};
ghost use Rattle.vrf_words.specs.declared.tree_defs.flow.Origin.TheVariants as origins;
ghost use Rattle.vrf_words.specs.tree_defs.Flows.{asking, chosen_for, flow_of, is_from, outgoing};
ghost use Rattle.vrf_words.specs.tree_defs.Keys.{flow_cmp};
ghost use Rattle.vrf_words.specs.tree_defs.Trees.{TreeData};
ghost use Rattle.edge_words.specs.edge_defs.Datagrams.{entering_fate, outs_at};
ghost use Rattle.edge_words.specs.edge_defs.Edge.{Control, EdgeData, no_control};
ghost use Rattle.edge_words.specs.edge_defs.Flows.{asking_ifaces, flows_at};
ghost use Rattle.edge_words.specs.edge_defs.Held.{held_for};
ghost use Rattle.edge_words.specs.edge_defs.Place.{EdgePlace, OwnVrf, addr_of, own_vrfs};
ghost use Rattle.edge_words.specs.edge_defs.Steps.{refreshed};
ghost use Rattle.edge_words.specs.edge_defs.Tunnels.{is_joined_in, leaves, transmit_tunnel};
ghost use Rattle.edge_words.specs.edge_defs.Upstream.{known_routes, upstream_for};
ghost use Rattle.edge_words.specs.Known.{AreNodes};
ghost use Rattle.edge_words.specs.Leaf.{IsInclusive};
ghost use Rattle.vrf_words.specs.tree_laws.Imports.{has_learned, imports, imports_inclusive};
ghost use Rattle.vrf_words.specs.tree_laws.Joined.{has_join, tunnel_for};
ghost use Rattle.vrf_words.specs.tree_laws.Joins.{AreOfVrfs, first_told, join_key, join_of};
ghost use Rattle.vrf_words.specs.tree_laws.Refreshed.{with_flows};
ghost use Rattle.vrf_words.specs.tree_laws.TreeOf.{IsAttachedAt, IsTreeOf, choice_of, flow_in, iface_id, start_tree};
ghost use Rattle.vrf_words.specs.tree_laws.Wanting.{AreTreesOf, IsWantedIn};
ghost use Rattle.vrf_words.specs.tree_laws.Whole.{AreWhole, HasPrefixes, HaveSpellings};

/// Where nothing has happened yet, a tree is one of its VRF that keeps its interfaces and the prefixes of the sites that are attached at
/// it, and nothing else.
pub fn trees_start()
    ensures { (place : EdgePlace) (own : OwnVrf) (attached : FinMap key_cmp SiteId) → ((key : RouteKey) (site : SiteId) →
        (maps.get attached key ≡ Some site) ↔ IsAttachedAt place.scenario own key.prefix key.place site) →
        IsTreeOf place no_control own (start_tree place own attached) }
{}

/// The interfaces of the tree that ask for a flow are those of the VRF at the edge, in the same order.
pub fn asking_is_told()
    ensures { (place : EdgePlace) (now : ℕ) (control : Control) (own : OwnVrf) (tree : TreeData) (flow : Flow) →
        IsTreeOf place control own tree →
        map iface_id (asking tree.vrf now flow) ≡ asking_ifaces place now control own flow.source flow.group }
{}

/// Of the routes that a VRF knows, prefixes of one length that cover one address are one: in a scenario that meets its rules, where each
/// key under which a route was taken has a spelling.
pub fn prefixes_are_whole()
    ensures { (place : EdgePlace) (control : Control) (own : OwnVrf) → Rules place.scenario → HasPrefixes place.scenario →
        HaveSpellings control → AreWhole (known_routes place control own) }
{}

/// In a scenario that meets its rules, where the peers are nodes of it and prefixes are whole: what the tree chooses for a flow is the
/// upstream that the VRF chooses for it, and the tree has the flow exactly where the edge has it, with its upstream.
pub fn flow_looked_up()
    ensures choice { (place : EdgePlace) (control : Control) (own : OwnVrf) (tree : TreeData) (flow : Flow) →
        IsTreeOf place control own tree → Rules place.scenario → AreNodes place control → AreWhole (known_routes place control own) →
        chosen_for tree.vrf.routes (place.core.cost place.me) flow ≡ choice_of (upstream_for place control own flow.source flow.group) }
    ensures flow { (place : EdgePlace) (now : ℕ) (control : Control) (own : OwnVrf) (tree : TreeData) (flow : Flow) →
        Among own (own_vrfs place) → IsTreeOf place control own tree → Rules place.scenario → AreNodes place control →
        AreWhole (known_routes place control own) →
        flow_of tree.vrf (place.core.cost place.me) now flow
        ≡ option_map choice_of (maps.get (flows_at place now control) (flow_in own.id flow)) }
{}

/// After a refresh of the edge's flows, the tree is one of the VRF again with the flows that it has at that clock, and what they want; and
/// each flow is one of a VRF of the edge, as it is where nothing has happened.
pub fn trees_are_refreshed()
    ensures tree { (place : EdgePlace) (now : ℕ) (control : Control) (own : OwnVrf) (tree : TreeData) (flows : FinMap flow_cmp Choice) →
        Among own (own_vrfs place) → IsTreeOf place control own tree → Rules place.scenario → AreNodes place control →
        AreWhole (known_routes place control own) →
        ((flow : Flow) → maps.get flows flow ≡ flow_of tree.vrf (place.core.cost place.me) now flow) →
        IsTreeOf place (refreshed place now control) own (with_flows tree flows) }
    ensures vrfs { (place : EdgePlace) (now : ℕ) (control : Control) → AreOfVrfs place (refreshed place now control) }
    ensures start { (place : EdgePlace) → AreOfVrfs place no_control }
{}

/// The edge wants to be a leaf of exactly the tunnels of the inclusive routes that its VRFs import, and of those that one of the trees of
/// its VRFs wants.
pub fn leaves_are_wanted()
    ensures { (place : EdgePlace) (control : Control) (trees : List TreeData) (fec : Fec) →
        AreTreesOf place control (own_vrfs place) trees →
        (sets.contains (leaves place control) fec ≡ true) ↔ (IsInclusive place control fec ⊎ IsWantedIn trees fec) }
{}

/// Another edge has joined a flow at the VRF exactly where the tree has a join for it, and the tunnel on which the VRF transmits it is that
/// of the tree's selections.
pub fn transmitted_is_told()
    ensures joined { (place : EdgePlace) (control : Control) (own : OwnVrf) (tree : TreeData) (flow : Flow) →
        IsTreeOf place control own tree → is_joined_in place control own flow.source flow.group ≡ has_join tree flow }
    ensures tunnel { (place : EdgePlace) (control : Control) (own : OwnVrf) (tree : TreeData) (flow : Flow) →
        IsTreeOf place control own tree → transmit_tunnel place control own flow.source flow.group ≡ tunnel_for place tree flow }
{}

/// A datagram of a site that enters at a VRF leaves at the interfaces that the tree gives for one from there, and goes on the branches of
/// the tree's tunnel where the tree chooses that site and has a join.
pub fn entering_is_told()
    ensures outs { (place : EdgePlace) (now : ℕ) (edge : EdgeData) (own : OwnVrf) (tree : TreeData) (site : SiteId) (flow : Flow) →
        IsTreeOf place edge.control own tree → Rules place.scenario → AreNodes place edge.control →
        AreWhole (known_routes place edge.control own) →
        (entering_fate place now edge own site flow.source flow.group).outs
        ≡ outgoing tree.vrf (place.core.cost place.me) now flow (origins.Site site) }
    ensures branches { (place : EdgePlace) (now : ℕ) (edge : EdgeData) (own : OwnVrf) (tree : TreeData) (site : SiteId) (flow : Flow) →
        IsTreeOf place edge.control own tree → Rules place.scenario → AreNodes place edge.control →
        AreWhole (known_routes place edge.control own) →
        (entering_fate place now edge own site flow.source flow.group).branches
        ≡ (if is_from (origins.Site site) (chosen_for tree.vrf.routes (place.core.cost place.me) flow)
        then (if has_join tree flow then branches_of edge.part (tunnel_for place tree flow) else [])
        else []) }
{}

/// A copy that arrives on a tunnel leaves at a VRF, where the edge is a leaf, at the interfaces that the tree gives for one from the
/// tunnel's root, if the VRF imports a route of the tunnel from there; and nowhere where no peer is the root.
pub fn leaving_is_told()
    ensures root { (place : EdgePlace) (now : ℕ) (control : Control) (own : OwnVrf) (tree : TreeData) (fec : Fec) (root : NodeId)
        (flow : Flow) → IsTreeOf place control own tree → Rules place.scenario → AreNodes place control →
        AreWhole (known_routes place control own) → root.0 < length place.scenario.nodes → addr_of place.scenario root ≡ fec.root →
        outs_at place now control fec flow.source flow.group own
        ≡ (if imports place control own root fec
        then outgoing tree.vrf (place.core.cost place.me) now flow (origins.Edge root)
        else []) }
    ensures none { (place : EdgePlace) (now : ℕ) (control : Control) (own : OwnVrf) (fec : Fec) (flow : Flow) →
        ((peer : NodeId) → is_some (maps.get control.peers peer) ≡ true → addr_of place.scenario peer ≢ fec.root) →
        outs_at place now control fec flow.source flow.group own ≡ [] }
{}

/// A VRF imports a route of a tunnel from an edge where it imports an inclusive one, or its tree has learned a selective one.
pub fn imports_are_told()
    ensures { (place : EdgePlace) (control : Control) (own : OwnVrf) (tree : TreeData) (edge : NodeId) (fec : Fec) →
        IsTreeOf place control own tree →
        imports place control own edge fec ≡ (imports_inclusive place control own edge fec || has_learned tree edge fec) }
{}

/// The Source Tree Join of a flow that the edge holds towards a peer, under a route distinguisher and a Source AS, is that of the first of
/// the trees whose choice for the flow is that peer with these; and it stands under the AFI of the source alone.
pub fn joins_are_told()
    ensures joins { (place : EdgePlace) (control : Control) (trees : List TreeData) (peer : NodeId) (rd : Rd) (source_as : ℕ)
        (flow : Flow) → AreTreesOf place control (own_vrfs place) trees → AreOfVrfs place control →
        maps.get (held_for place control peer) (join_key (afi_of flow.source) rd source_as flow)
        ≡ first_told (join_of place peer rd source_as flow) trees }
    ensures none { (place : EdgePlace) (control : Control) (peer : NodeId) (afi : Afi) (rd : Rd) (source_as : ℕ) (flow : Flow) →
        afi ≢ afi_of flow.source → maps.get (held_for place control peer) (join_key afi rd source_as flow) ≡ None }
{}
