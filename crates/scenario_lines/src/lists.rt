//! Looks through the lists of a scenario.
ghost use Rattle.std.specs.Prelude.{◌≡◌};
ghost use Rattle.std.specs.List.{list_any};
ghost use Rattle.scenario_lines.specs.VrfGrammar.{overlaps, is_vpn_at};
ghost use Rattle.scenario_lines.specs.SiteGrammar.{is_mixed, is_taken};

use mv_base::NodeId;
use mv_base::route_targets::Targets;
use scenario_defs::{Iface, Scenario, Vrf, prefixes_of, same_vpn, share_prefix};

fn overlaps(targets: &Targets, vrf: &Vrf) -> bool
    ensures { result ≡ overlaps targets.now vrf.now }
{
    mv_base::route_targets::shares(&vrf.targets, targets)
        && !mv_base::route_targets::same(&vrf.targets, targets)
}

/// Whether some VRF has a member of the set among its targets, and its own set is not equal to it.
pub fn is_overlap(targets: &Targets, vrfs: &[Vrf]) -> bool
    ensures { result ≡ list_any (overlaps targets.now) vrfs.now }
{
    vrfs.iter().any(|vrf| overlaps(targets, vrf))
}

fn is_vpn_at(edge: NodeId, targets: &Targets, vrf: &Vrf) -> bool
    ensures { result ≡ is_vpn_at edge targets.now vrf.now }
{
    vrf.edge.0 == edge.0 && mv_base::route_targets::same(&vrf.targets, targets)
}

/// Whether some VRF of that edge has an equal set.
pub fn is_vpn_taken(edge: NodeId, targets: &Targets, vrfs: &[Vrf]) -> bool
    ensures { result ≡ list_any (is_vpn_at edge targets.now) vrfs.now }
{
    vrfs.iter().any(|vrf| is_vpn_at(edge, targets, vrf))
}

fn is_mixed(scenario: &Scenario, new: &Iface, iface: &Iface) -> bool
    ensures { result ≡ is_mixed scenario.now new.now iface.now }
{
    iface.site.0 == new.site.0 && !same_vpn(scenario, iface.vrf, new.vrf)
}

/// Whether some interface puts the site of the new one into another VPN.
pub fn is_any_mixed(scenario: &Scenario, new: &Iface, ifaces: &[Iface]) -> bool
    ensures { result ≡ list_any (is_mixed scenario.now new.now) ifaces.now }
{
    ifaces.iter().any(|iface| is_mixed(scenario, new, iface))
}

/// The prefixes are compared first: where they differ, as they do between the sites of one VPN, no targets need be.
fn is_taken(scenario: &Scenario, new: &Iface, iface: &Iface) -> bool
    ensures { result ≡ is_taken scenario.now new.now iface.now }
{
    if iface.site.0 == new.site.0 {
        return false;
    }
    let shared = share_prefix(
        prefixes_of(scenario, new.site),
        prefixes_of(scenario, iface.site),
    );
    shared && same_vpn(scenario, iface.vrf, new.vrf)
}

/// Whether some interface attaches another site with a prefix of the new one's site to its VPN.
pub fn is_any_taken(scenario: &Scenario, new: &Iface, ifaces: &[Iface]) -> bool
    ensures { result ≡ list_any (is_taken scenario.now new.now) ifaces.now }
{
    ifaces.iter().any(|iface| is_taken(scenario, new, iface))
}
