//! There are least costs and next hops in each scenario: a law over definitions.

mod laws;

pub use laws::each_scenario_has_cores;
