//! Laws of what the definitions of an edge say.
ghost use Rattle.std.specs.Prelude.{◌≡◌, ◌↔◌, ◌⊎◌, ◌<◌, ℕ, true, length, Option, None, Some};
ghost use Rattle.std.specs.FinMap as maps;
ghost use Rattle.std.specs.FinSet as sets;
ghost use Rattle.mv_base.specs.declared.ids.NodeId.{NodeId};
ghost use Rattle.mv_base.specs.declared.addr.Addr.{Addr};
ghost use Rattle.mv_base.specs.declared.ids.IfaceId.{IfaceId};
ghost use Rattle.mv_base.specs.declared.ids.SiteId.{SiteId};
ghost use Rattle.mv_base.specs.declared.ids.VrfId.{VrfId};
ghost use Rattle.mv_base.specs.declared.pattern.Pattern.{Pattern};
ghost use Rattle.label_defs.specs.mldp.declared.mldp_fec.fec.Fec.{Fec};
ghost use Rattle.scenario_defs.specs.Rules.{Rules};
ghost use Rattle.edge_defs.specs.choice_defs.Choice.{AreOfEdges, IsChosen, IsUncovered};
ghost use Rattle.edge_defs.specs.choice_defs.declared.origin.Origin.{Origin};
ghost use Rattle.label_defs.specs.declared.branch.Branch.{Branch};
ghost use Rattle.selective_defs.specs.Selective.{Among};
ghost use Rattle.selective_defs.specs.declared.learned_route.LearnedRoute.{LearnedRoute};
ghost use Rattle.edge_defs.specs.Edge.{Control, EdgeData, Upstream, VrfFlow};
ghost use Rattle.label_defs.specs.Steps as label_steps;
ghost use Rattle.edge_defs.specs.Datagrams.{arriving_fate, entering_fate};
ghost use Rattle.edge_defs.specs.Due.{due};
ghost use Rattle.edge_defs.specs.Flows.{flows_at};
ghost use Rattle.edge_defs.specs.Place.{EdgePlace, OwnVrf, label_place};
ghost use Rattle.edge_defs.specs.Steps.{timed};
ghost use Rattle.edge_defs.specs.Tunnels.{leaves, learned_routes, selections_of};
ghost use Rattle.edge_defs.specs.Upstream.{known_routes, upstream_for};
ghost use Rattle.edge_words.specs.Asked.{IsAsked};
ghost use Rattle.edge_words.specs.Goes.{ArrivesOn, ArrivesOut, EntersOn, EntersOut};
ghost use Rattle.edge_words.specs.Known.{AreNodes, IsNumbered, Says};
ghost use Rattle.edge_words.specs.Leaf.{IsInclusive, IsSelective, IsLearned};
ghost use Rattle.edge_words.specs.Quiet.{NoneDue};

/// The flows of an edge at a clock are exactly those that some interface of a VRF asks for then, each with the upstream that the VRF
/// chooses for it.
pub fn flows_are_asked()
    ensures { (place : EdgePlace) (now : ℕ) (control : Control) (flow : VrfFlow) (upstream : Option Upstream) →
        (maps.get (flows_at place now control) flow ≡ Some upstream) ↔ IsAsked place now control flow upstream }
{}

/// The edge wants to be a leaf of exactly the tunnels of the inclusive routes that its VRFs import, and of those of the selective routes
/// that a flow with a remote upstream wants of that edge. What a VRF has learned of an edge are the selective routes that it imports.
pub fn leaves_are_tunnels()
    ensures leaves { (place : EdgePlace) (control : Control) (fec : Fec) →
        (sets.contains (leaves place control) fec ≡ true) ↔ (IsInclusive place control fec ⊎ IsSelective place control fec) }
    ensures learned { (place : EdgePlace) (control : Control) (own : OwnVrf) (peer : NodeId) (learned : LearnedRoute) →
        Among learned (learned_routes place control own peer) ↔ IsLearned place control own peer learned }
{}

/// A datagram that enters at a VRF leaves at exactly the interfaces outside its site that ask for it, and goes on exactly the branches of
/// the tunnel on which the VRF transmits it, where another edge has joined it; and all this only where the VRF's upstream is the site.
pub fn entering_goes()
    ensures outs { (place : EdgePlace) (now : ℕ) (edge : EdgeData) (own : OwnVrf) (site : SiteId) (source group : Addr) (iface : IfaceId) →
        Among iface (entering_fate place now edge own site source group).outs ↔ EntersOut place now edge own site source group iface }
    ensures branches { (place : EdgePlace) (now : ℕ) (edge : EdgeData) (own : OwnVrf) (site : SiteId) (source group : Addr)
        (branch : Branch) → Among branch (entering_fate place now edge own site source group).branches ↔
        EntersOn place edge own site source group branch }
{}

/// A copy that arrives under a label leaves at exactly the interfaces that ask for it of the VRFs that import a route of its tree from
/// their upstream, where the edge is a leaf of the tree; and it goes on exactly the branches of the tree.
pub fn arriving_goes()
    ensures outs { (place : EdgePlace) (now : ℕ) (edge : EdgeData) (from : NodeId) (label : ℕ) (source group : Addr) (iface : IfaceId) →
        Among iface (arriving_fate place now edge from label source group).outs ↔ ArrivesOut place now edge from label source group iface }
    ensures branches { (place : EdgePlace) (now : ℕ) (edge : EdgeData) (from : NodeId) (label : ℕ) (source group : Addr)
        (branch : Branch) → Among branch (arriving_fate place now edge from label source group).branches ↔
        ArrivesOn edge from label branch }
{}

/// No timer of an edge is due exactly where none is due entry by entry: no label has rested to its moment, each hold and each delay was
/// run or its end is to come, and each entry ends later.
pub fn none_is_due()
    ensures { (place : EdgePlace) (now : ℕ) (edge : EdgeData) → (due place now edge ≡ 0) ↔ NoneDue place now edge }
{}

/// A run of the timers leaves none of them due.
pub fn timers_leave_none_due()
    ensures { (place : EdgePlace) (now : ℕ) (edge : EdgeData) → NoneDue place now
        (record edge {
          control = timed place now edge.control;
          part = label_steps.timed (label_place place.scenario place.core place.me) now edge.part;
        }) }
{}

/// A pattern that is selected gets the least number from 1 on that no selection of its VRF has. So it is below 2^20 where these are fewer
/// than 2^20 - 1.
pub fn numbers_are_free()
    ensures least { (now : ℕ) (control : Control) (vrf : VrfId) (pattern : Pattern) → IsNumbered now control vrf pattern }
    ensures few { (now : ℕ) (control : Control) (vrf : VrfId) (pattern : Pattern) → length (selections_of control vrf) < 1048575 →
        (numbered : IsNumbered now control vrf pattern) × (numbered.number < 1048576) }
{}

/// What a VRF chooses over all that its edge knows, in a scenario that meets its rules and where the peers are nodes of it: each peer has
/// an address of its own; the origin is chosen by the VRF's rule and the core that the edge knows, and the upstream says it; and there
/// is none exactly where no route covers the source.
pub fn choices_are_by_the_rule()
    ensures edges { (place : EdgePlace) (control : Control) (own : OwnVrf) → Rules place.scenario → AreNodes place control →
        AreOfEdges (known_routes place control own) }
    ensures chosen { (place : EdgePlace) (control : Control) (own : OwnVrf) (source group : Addr) → Rules place.scenario →
        AreNodes place control → (upstream : Upstream) → upstream_for place control own source group ≡ Some upstream →
        (origin : Origin) × IsChosen own.vrf.rule (place.core.cost place.me) (known_routes place control own) source group origin ×
        Says origin upstream }
    ensures none { (place : EdgePlace) (control : Control) (own : OwnVrf) (source group : Addr) →
        (upstream_for place control own source group ≡ None) ↔ IsUncovered (known_routes place control own) source }
{}
