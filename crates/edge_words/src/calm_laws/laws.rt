//! Laws of calm sessions.
ghost use Rattle.std.specs.Prelude.{◌≡◌, ℕ, false, List, [], Some};
ghost use Rattle.std.specs.FinMap as maps;
ghost use Rattle.mv_base.specs.declared.ids.NodeId.{NodeId};
ghost use Rattle.mv_base.specs.declared.rd.Rd.{Rd};
ghost use Rattle.scenario_defs.specs.declared.scenario.Scenario.{Scenario};
ghost use Rattle.selective_defs.specs.Selective.{Among, InStep};
ghost use Rattle.edge_defs.specs.Edge.{VrfFlow, Import, Remote, no_control};
ghost use Rattle.edge_defs.specs.Held.{held_for};
ghost use Rattle.edge_defs.specs.Place.{OwnVrf, own_vrfs};
ghost use Rattle.mv_base.specs.core_walks.Core.{Core};
ghost use Rattle.edge_defs.specs.Tunnels.{learned_routes, selections_of};
ghost use Rattle.edge_words.specs.edge_laws.Acts.{Act, run};
ghost use Rattle.edge_words.specs.edge_laws.Network.{EdgeNetwork, place_of};
ghost use Rattle.edge_words.specs.edge_laws.Rule.{Rule, taken_values};
ghost use Rattle.edge_words.specs.calm_laws.Calm.{CalmSession, NoneDue, FlowsStand, AreOfOneVpn, CalmFlow};

/// The flows of each edge are those that were asked for at some clock so far, with the upstreams that its VRFs choose now.
pub fn flows_stand()
    ensures start { (scenario : Scenario) (core : NodeId → Core) →
        FlowsStand (record {
          clock = 0;
          scenario = scenario;
          core = core;
          node = λ n. no_control;
          direction = λ a b. record { joined = false; transit = [] };
        }) }
    ensures runs { (network : EdgeNetwork) (acts : List Act) → FlowsStand network → FlowsStand (run network acts) }
{}

/// On a calm session each edge has taken the table that the other one holds for it.
pub fn calm_tables_are_equal()
    ensures { (network : EdgeNetwork) (root egress : NodeId) → Rule network → CalmSession network root egress →
        taken_values (network.node egress) root ≡ held_for (place_of network root) (network.node root) egress }
{}

/// On a calm session, where no delay of a selection is due, an egress is in step with a VRF of its VPN at the root: it has learned
/// routes of the patterns of that VRF's selections and of no others, none before its selection was made.
pub fn egress_is_in_step()
    ensures { (network : EdgeNetwork) (root egress : NodeId) (root_vrf own : OwnVrf) → Rule network → CalmSession network root egress →
        NoneDue network root → Among root_vrf (own_vrfs (place_of network root)) → Among own (own_vrfs (place_of network egress)) →
        AreOfOneVpn root_vrf own → InStep network.scenario.delay network.clock (selections_of (network.node root) root_vrf.id)
        (learned_routes (place_of network egress) (network.node egress) own root) }
{}

/// On a calm session, where no delay of a selection is due, each flow of an egress whose upstream is the root is joined there, and by
/// what the egress keeps of its customers and of BGP it is to be a leaf of the tunnel on which the root transmits it. That its label
/// part has exactly these leaves is the law `leaves_are_those_wanted` of `edge_defs`.
pub fn egress_is_a_leaf_of_what_root_transmits()
    ensures { (network : EdgeNetwork) (root egress : NodeId) (own : OwnVrf) (flow : VrfFlow) (rd : Rd) (import : Import)
        (source_as : ℕ) → Rule network → FlowsStand network → CalmSession network root egress → NoneDue network root →
        Among own (own_vrfs (place_of network egress)) → own.id ≡ flow.vrf →
        maps.get (network.node egress).flows flow ≡ Some (Some (Remote root rd import source_as)) →
        CalmFlow network root egress own flow rd import source_as }
{}
