//! A scenario that the edges of a network have together.
ghost use Rattle.std.specs.Prelude.{◌≡◌, IfOk};

use crate::edge_home::copying::copied_scenario;
use crate::shared::Shared;
use mv_base::NoMemory;
use scenario_defs::Scenario;
use std::alloc::Global;

/// A scenario that several have, and that is in memory once.
pub type SharedScenario = Shared<Scenario>;

/// A copy of the scenario, which nobody else has yet.
pub fn shared_copy(alloc: Global, scenario: &Scenario) -> Result<SharedScenario, NoMemory>
    ensures { IfOk result (λ shared. shared ≡ scenario.now) }
{
    let copy = copied_scenario(alloc, scenario)?;
    Shared::of(alloc, copy)
}
