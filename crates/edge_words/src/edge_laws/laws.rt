//! Laws of a network of edges.
ghost use Rattle.std.specs.Prelude.{◌≡◌, ◌≢◌, ◌≤◌, ◌++◌, ◌+◌, ℕ, true, false, List, [], ◌∷◌, Some};
ghost use Rattle.std.specs.FinMap as maps;
ghost use Rattle.mv_base.specs.declared.ids.NodeId.{NodeId};
ghost use Rattle.bgp_messages.specs.declared.bgp_attributes.key.Key.{Key};
ghost use Rattle.scenario_defs.specs.Rules.{Rules};
ghost use Rattle.scenario_defs.specs.declared.scenario.Scenario.{Scenario};
ghost use Rattle.mv_base.specs.declared.table_defs.change.Change.{Change};
ghost use Rattle.mv_base.specs.table_defs.Changes.{LeadsTo, applied_all, key_of, value_of, values_at};
ghost use Rattle.edge_defs.specs.Edge.{no_control, Selected, TakenRoute};
ghost use Rattle.edge_defs.specs.Held.{held_for};
ghost use Rattle.edge_defs.specs.Imported.{taken_from};
ghost use Rattle.edge_defs.specs.Keys.{Value, key_cmp};
ghost use Rattle.mv_base.specs.core_walks.Core.{Core};
ghost use Rattle.edge_words.specs.edge_laws.Network.{EdgeNetwork, place_of};
ghost use Rattle.edge_words.specs.edge_laws.Acts.{Act, run};
ghost use Rattle.edge_words.specs.edge_laws.Rule.{Rule, selected_at, taken_values};

/// A network in which nothing has happened meets the rule.
pub fn start_keeps_the_rule()
    ensures { (scenario : Scenario) (core : NodeId → Core) → Rules scenario →
        Rule (record {
          clock = 0;
          scenario = scenario;
          core = core;
          node = λ n. no_control;
          direction = λ a b. record { joined = false; transit = [] };
        }) }
{}

/// Whatever happens, the rule is kept.
pub fn runs_keep_the_rule()
    ensures { (network : EdgeNetwork) (acts : List Act) → Rule network → Rule (run network acts) }
{}

/// On a session that is joined, the changes in transit lead from what the receiver took to the table that the sender holds for it, at
/// each key. Applied to what the receiver took they give that table, and each of them changes the table to which it is applied.
pub fn tables_are_in_step()
    ensures leads { (network : EdgeNetwork) (a b : NodeId) → Rule network → a ≢ b → (network.direction a b).joined ≡ true →
        LeadsTo (taken_values (network.node b) a) (network.direction a b).transit (held_for (place_of network a) (network.node a) b) }
    ensures reached { (network : EdgeNetwork) (a b : NodeId) → Rule network → a ≢ b → (network.direction a b).joined ≡ true →
        applied_all (taken_values (network.node b) a) (network.direction a b).transit ≡ held_for (place_of network a) (network.node a) b }
    ensures changing { (network : EdgeNetwork) (a b : NodeId) (before after : List (Change Key Value)) (change : Change Key Value) →
        Rule network → a ≢ b → (network.direction a b).joined ≡ true → (network.direction a b).transit ≡ before ++ change ∷ after →
        maps.get (applied_all (taken_values (network.node b) a) before) (key_of change) ≢ value_of change }
{}

/// On a session that is joined, where no change of a key is in transit, its route was learned no earlier than its selection was made. On
/// any session, no delay of a route is run before it is over.
pub fn routes_are_learned_no_earlier()
    ensures learned { (network : EdgeNetwork) (a b : NodeId) (key : Key) (selected : Selected) (route : TakenRoute) →
        Rule network → a ≢ b → (network.direction a b).joined ≡ true → values_at key_cmp key (network.direction a b).transit ≡ [] →
        selected_at (place_of network a) (network.node a) key ≡ Some selected →
        maps.get (taken_from (network.node b) a) key ≡ Some route → selected.since ≤ route.since }
    ensures over { (network : EdgeNetwork) (a b : NodeId) (key : Key) (route : TakenRoute) → Rule network → a ≢ b →
        maps.get (taken_from (network.node b) a) key ≡ Some route → route.run ≡ true →
        route.since + network.scenario.delay ≤ network.clock }
{}
