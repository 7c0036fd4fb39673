//! Laws of the upstream choice.
ghost use Rattle.std.specs.Prelude.{◌≡◌, ℕ, ◌↔◌, List, map, None, Some, option_map};
ghost use Rattle.scenario_defs.specs.mv_base.declared.addr.Addr.{Addr};
ghost use Rattle.scenario_defs.specs.mv_base.declared.ids.NodeId.{NodeId};
ghost use Rattle.scenario_defs.specs.mv_base.declared.rd.Rule.{Rule};
ghost use Rattle.scenario_defs.specs.declared.scenario.Route.{Route};
ghost use Rattle.scenario_defs.specs.Home.{home_by};
ghost use Rattle.choice_defs.specs.declared.known_route.KnownRoute.{KnownRoute};
ghost use Rattle.choice_defs.specs.declared.origin.Origin.{Origin};
ghost use Rattle.choice_defs.specs.declared.origin.Origin.TheVariants.{Local};
ghost use Rattle.choice_defs.specs.Choice.{Among, choose, of_site, IsChosen, IsEdgeOfCandidate, IsHashed};
ghost use Rattle.choice_defs.specs.Choice.{IsUncovered, AreOfEdges, AreOfSites, AreLocal, IsSiteOfLongest};
ghost use Rattle.choice_defs.specs.Example.{Worked};

/// Where each edge has an address of its own, what a VRF chooses is chosen as the rule says; and it chooses nothing exactly
/// where no route covers the source.
pub fn choice_is()
    ensures chosen { (rule : Rule) (cost : NodeId → ℕ) (routes : List KnownRoute) (source group : Addr) (origin : Origin) →
        AreOfEdges routes → choose rule cost routes source group ≡ Some origin → IsChosen rule cost routes source group origin }
    ensures none { (rule : Rule) (cost : NodeId → ℕ) (routes : List KnownRoute) (source group : Addr) →
        (choose rule cost routes source group ≡ None) ↔ IsUncovered routes source }
{}

/// Where each edge has an address of its own, and a prefix has one local site at most, at most one origin is chosen, that is
/// the choice, and it is the same in whatever order the routes stand.
pub fn one_choice()
    ensures one { (rule : Rule) (cost : NodeId → ℕ) (routes : List KnownRoute) (source group : Addr) (origin other : Origin) →
        AreOfEdges routes → AreOfSites routes →
        IsChosen rule cost routes source group origin → IsChosen rule cost routes source group other → origin ≡ other }
    ensures all { (rule : Rule) (cost : NodeId → ℕ) (routes : List KnownRoute) (source group : Addr) (origin : Origin) →
        AreOfEdges routes → AreOfSites routes →
        IsChosen rule cost routes source group origin → choose rule cost routes source group ≡ Some origin }
    ensures order { (rule : Rule) (cost : NodeId → ℕ) (routes others : List KnownRoute) (source group : Addr) →
        AreOfEdges routes → AreOfSites routes → ((route : KnownRoute) → Among route routes ↔ Among route others) →
        choose rule cost routes source group ≡ choose rule cost others source group }
{}

/// With local routes alone, the choice is the site of a longest route that covers the source.
pub fn local_choice()
    ensures { (rule : Rule) (cost : NodeId → ℕ) (routes : List KnownRoute) (source group : Addr) (origin : Origin) → AreLocal routes →
        choose rule cost routes source group ≡ Some origin → IsSiteOfLongest routes source origin }
{}

/// With the local routes of a VRF alone, the choice is the site by which the network of this version chooses, whatever the
/// rule and the group.
pub fn local_home()
    ensures { (rule : Rule) (cost : NodeId → ℕ) (routes : List Route) (source group : Addr) →
        choose rule cost (map of_site routes) source group ≡ option_map (λ site. Local site) (home_by routes source) }
{}

/// Where edges have routes to a source, the hash names one: exactly one address is that of the edge that it names.
pub fn hash_names()
    ensures some { (routes : List KnownRoute) (source group address : Addr) → IsEdgeOfCandidate routes source address →
        (named : Addr) × IsHashed routes source group named }
    ensures one { (routes : List KnownRoute) (source group named other : Addr) →
        IsHashed routes source group named → IsHashed routes source group other → named ≡ other }
    ensures candidate { (routes : List KnownRoute) (source group named : Addr) →
        IsHashed routes source group named → IsEdgeOfCandidate routes source named }
{}

/// A worked VRF with a short local route and longer ones of two edges.
pub fn worked_choice()
    ensures { Worked }
{}
