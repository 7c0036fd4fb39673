//! Which VRFs are of one VPN, and which edge an interface is of.
ghost use Rattle.std.specs.Prelude.{◌≡◌};
ghost use Rattle.scenario_defs.specs.Vpn.{targets_of, same_vpn, edge_of};

use crate::Scenario;
use mv_base::route_targets::{Target, same_members};
use mv_base::{IfaceId, NodeId, VrfId};

/// The Route Targets of a VRF, none where there is no such VRF.
fn targets_of(scenario: &Scenario, vrf: VrfId) -> &[Target]
    ensures { result.now ≡ targets_of scenario.now vrf }
{
    match scenario.vrfs.as_slice().get(usize::from(vrf.0)) {
        Some(found) => found.targets.as_slice(),
        None => &[],
    }
}

/// Whether the VRFs are of one VPN: their target sets are equal.
pub fn same_vpn(scenario: &Scenario, a: VrfId, b: VrfId) -> bool
    ensures { result ≡ same_vpn scenario.now a b }
{
    same_members(targets_of(scenario, a), targets_of(scenario, b))
}

/// The edge of an interface's VRF, where the scenario has them.
pub fn edge_of(scenario: &Scenario, iface: IfaceId) -> Option<NodeId>
    ensures { result ≡ edge_of scenario.now iface }
{
    let found = scenario.ifaces.as_slice().get(usize::from(iface.0))?;
    let vrf = scenario.vrfs.as_slice().get(usize::from(found.vrf.0))?;
    Some(vrf.edge)
}
