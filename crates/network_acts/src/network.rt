//! A whole network, as its callers have it.
ghost use Rattle.std.specs.Prelude.{◌≡◌, IfOk};
ghost use Rattle.scenario_defs.specs.Rules.{Rules};
ghost use Rattle.network_defs.specs.Costs.{AreCoresOf, Cores};
ghost use Rattle.network_acts.specs.Instant.{IsWorld, beginning};

use crate::control_plane::ControlPlane;
use data_plane::datagram_acts::Datagrams;
use mv_base::NoMemory;
use run_laws::of_edge_routes::edge_home::SharedScenario;
use scenario_defs::Scenario;
use std::alloc::Global;
use std::marker::Model;

/// A scenario, the control plane of its network, and the datagrams on its links. Contracts see it as a `NetworkView`. It must be closed.
///
/// An act that answers `NoLabel` or `NoMemory` is its last one: of what it does afterwards nothing is said.
pub struct Network {
    pub(crate) scenario: SharedScenario,
    pub(crate) plane: ControlPlane,
    /// What asks for copies and datagrams alone, or changes them alone, is called here.
    pub datagrams: Datagrams,
}

impl Model for Network {
    ghost use Rattle.network_acts.specs.NetworkView.{NetworkView, network_code};

    ghost Value = { NetworkView };

    ghost coded = { network_code };

    ghost view = { λ n. record { scenario = n.scenario; plane = n.plane; datagrams = n.datagrams } };

    ghost use Rattle.network_acts.specs.control_plane.Plane.{ArePlaced};

    ghost invariant = { λ n. ArePlaced n.scenario n.plane.nodes };
}

impl Network {
    /// The network of a scenario that meets its rules, before anything has happened.
    pub fn of(alloc: Global, scenario: Scenario) -> Result<Network, NoMemory>
        requires { Rules scenario }
        ensures scenario { IfOk result (λ network. network.scenario ≡ scenario) }
        ensures beginning { IfOk result (λ network. (cores : Cores) → AreCoresOf scenario cores →
            IsWorld (beginning scenario cores) network) }
    {
        let scenario = SharedScenario::of(alloc, scenario)?;
        let plane = ControlPlane::of(alloc, &scenario)?;
        Ok(Network {
            scenario,
            plane,
            datagrams: Datagrams::of(alloc),
        })
    }

    /// The scenario.
    pub fn scenario(&self) -> &Scenario
        ensures { result.now ≡ self.now.scenario }
    {
        self.scenario.lent()
    }

    /// Frees all that it has, and spends the label bindings of its nodes.
    pub fn close(self) {
        let Network {
            scenario: _,
            plane,
            datagrams: _,
        } = self;
        plane.close();
    }
}
