//! The values of a scenario.
ghost use Rattle.std.specs.Prelude.{All};
ghost use Rattle.mv_base.specs.Address.{addr_octets};
ghost use Rattle.mv_base.specs.Octets.{IsOctets};
ghost use Rattle.delivery_laws.specs.network_laws.Sound.{HasOctets};

use edge_routes::edge_home::sites_have_octets;
use edge_routes::route_order::are_octets;
use mv_base::Addr;
use mv_base::route_targets::Target;
use scenario_defs::{Iface, Node, Scenario, Vrf};

/// Shows that the address is of octets.
pub(crate) fn addr_has_octets(addr: &Addr)
    ensures { IsOctets (addr_octets addr.now) }
{
    are_octets(addr.octets());
}

/// Shows that the addresses of the nodes are of octets.
fn nodes_have_octets(nodes: &[Node])
    ensures { All (λ node. IsOctets (addr_octets node.addr)) nodes.now }
{
    for node in nodes {
        addr_has_octets(&node.addr);
    }
}

/// Shows that the targets are of octets.
fn targets_have_octets(targets: &[Target])
    ensures { All (λ target. IsOctets target.0.0) targets.now }
{
    for target in targets {
        are_octets(target.0.0.as_slice());
    }
}

/// Shows that the targets of the VRF are of octets.
fn vrf_has_octets(vrf: &Vrf)
    ensures rd { IsOctets vrf.now.rd.0 }
    ensures targets { All (λ target. IsOctets target.0.0) vrf.now.targets }
{
    are_octets(vrf.rd.0.as_slice());
    targets_have_octets(vrf.targets.as_slice());
}

/// Shows that the route distinguishers and the targets of the VRFs are of octets.
fn vrfs_have_octets(vrfs: &[Vrf])
    ensures rds { All (λ vrf. IsOctets vrf.rd.0) vrfs.now }
    ensures targets { All (λ vrf. All (λ target. IsOctets target.0.0) vrf.targets) vrfs.now }
{
    for vrf in vrfs {
        vrf_has_octets(vrf);
    }
}

/// Shows that the addresses of the interfaces are of octets.
fn ifaces_have_octets(ifaces: &[Iface])
    ensures { All (λ iface. IsOctets (addr_octets iface.addr)) ifaces.now }
{
    for iface in ifaces {
        addr_has_octets(&iface.addr);
    }
}

/// Shows that the addresses, route distinguishers, targets and prefixes of the scenario are of octets. It does nothing.
pub fn scenario_has_octets(scenario: &Scenario)
    ensures { HasOctets scenario.now }
{
    nodes_have_octets(scenario.nodes.as_slice());
    vrfs_have_octets(scenario.vrfs.as_slice());
    sites_have_octets(scenario.sites.as_slice());
    ifaces_have_octets(scenario.ifaces.as_slice());
}
