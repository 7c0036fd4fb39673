//! Laws of selective tunnels.
ghost use Rattle.std.specs.Prelude.{◌≡◌, ℕ, ◌+◌, ◌≤◌, ◌↔◌, Bool, true, false, List, length, None, Some};
ghost use Rattle.mldp.specs.mv_base.declared.addr.Addr.{Addr};
ghost use Rattle.mldp.specs.declared.mldp_fec.fec.Fec.{Fec};
ghost use Rattle.selective_defs.specs.declared.learned_route.LearnedRoute.{LearnedRoute};
ghost use Rattle.selective_defs.specs.declared.selection.Selection.{Selection};
ghost use Rattle.selective_defs.specs.Selective.{Among, Matches, free_number, IsLeastUnused, next_number, IsLeastNumber};
ghost use Rattle.selective_defs.specs.Selective.{transmitted, IsTransmitted, AreDistinct, wanted, IsWanted, InStep};
ghost use Rattle.selective_defs.specs.Example.{Overlap};

/// Where the numbers that are used are among so many, a search through as many finds the least from 1 on that is not used; so it is at
/// most one more than they are.
pub fn free_number_is()
    ensures least { (used : ℕ → Bool) (numbers : List ℕ) (count : ℕ) → ((number : ℕ) → used number ≡ true → Among number numbers) →
        length numbers ≤ count → IsLeastUnused used (free_number used count 1) }
    ensures few { (used : ℕ → Bool) (numbers : List ℕ) (count : ℕ) → ((number : ℕ) → used number ≡ true → Among number numbers) →
        length numbers ≤ count → free_number used count 1 ≤ length numbers + 1 }
{}

/// One more selection of a VRF gets the least number from 1 on that no other one has.
pub fn next_number_is()
    ensures { (selections : List Selection) → IsLeastNumber selections (next_number selections) }
{}

/// A root transmits a flow on the tunnel of the most specific selection that matches it and whose delay was run, and on the
/// inclusive tunnel exactly where there is none.
pub fn transmitted_is()
    ensures selective { (selections : List Selection) (source group : Addr) (selection : Selection) → AreDistinct selections →
        (transmitted selections source group ≡ Some selection) ↔ IsTransmitted selections source group selection }
    ensures inclusive { (selections : List Selection) (source group : Addr) →
        (transmitted selections source group ≡ None) ↔
        ((selection : Selection) → Among selection selections → Matches selection.pattern source group → selection.run ≡ false) }
{}

/// An egress wants each matching route of which no more specific matching one has had its delay run, and no other.
pub fn wanted_is()
    ensures { (routes : List LearnedRoute) (source group : Addr) (route : LearnedRoute) →
        Among route (wanted routes source group) ↔ IsWanted routes source group route }
{}

/// Where an egress is in step with a root, it wants the selective tunnel that the root transmits on: it has a route of that
/// pattern, and wants each one.
pub fn egress_wants_what_root_transmits()
    ensures some { (delay now : ℕ) (selections : List Selection) (routes : List LearnedRoute) (source group : Addr)
        (selection : Selection) → InStep delay now selections routes → transmitted selections source group ≡ Some selection →
        (route : LearnedRoute) × (route.pattern ≡ selection.pattern) × Among route (wanted routes source group) }
    ensures each { (delay now : ℕ) (selections : List Selection) (routes : List LearnedRoute) (source group : Addr)
        (selection : Selection) (route : LearnedRoute) → InStep delay now selections routes →
        transmitted selections source group ≡ Some selection → Among route routes → route.pattern ≡ selection.pattern →
        Among route (wanted routes source group) }
{}

/// A worked root and egress that are in step: while the delay of a more specific selection runs, the root transmits on the
/// old tunnel, and the egress wants both.
pub fn tunnels_overlap()
    ensures { (source group : Addr) (first second : Fec) → Overlap source group first second }
{}
