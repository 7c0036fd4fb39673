//! The cores of a scenario.
ghost use Rattle.scenario_defs.specs.declared.scenario.Scenario.{Scenario};
ghost use Rattle.scenario_defs.specs.Rules.{Rules};
ghost use Rattle.network_defs.specs.Costs.{Cores, AreCoresOf};

/// Whatever the costs of a scenario's links become, from 1 to 65,535 each, there are least costs and next hops by them (RFC 6388
/// section 2.4.1.1).
pub fn each_scenario_has_cores()
    ensures { (scenario : Scenario) → Rules scenario → (cores : Cores) × AreCoresOf scenario cores }
{}
