//! The trees of an edge before anything has happened.
ghost use Rattle.std.specs.Prelude.{◌≡◌, ◌<◌, ◌≤◌, ◌^◌, ℕ, length, get_or, map, IfOk, OnOk};
ghost use Rattle.scenario_defs.specs.Rules.{IsVrf, Rules};
ghost use Rattle.edge_routes.specs.edge_home.Home.{as_own};
ghost use Rattle.edge_routes.specs.declared.edge_home.own_vrf.OwnVrf.{OwnVrf};
ghost use Rattle.scenario_defs.specs.Home.{local_routes};
ghost use Rattle.vrf_trees.specs.Trees.{no_tree};
ghost use Rattle.vrf_words.specs.tree_laws.TreeOf.{site_ifaces};
ghost use Rattle.edge_control.specs.Places.{vrfs_of};
ghost use Rattle.edge_control.specs.Start.{first_tree, with_ifaces, with_routes};

use edge_routes::edge_home::{EdgeHome, OwnVrf};
use mv_base::{IfaceId, NoMemory, VrfId};
use mvpn_model::local_routes;
use scenario_defs::{Iface, Route, Scenario, Vrf};
use std::alloc::Global;
use vrf_trees::VrfTree;
use vrf_words::tree_defs::SiteIface;

/// The interfaces of the VRF, in order.
fn site_ifaces(alloc: Global, vrf: VrfId, ifaces: &[Iface]) -> Result<Vec<SiteIface>, NoMemory>
    requires { length ifaces.now ≤ 2 ^ 16 }
    ensures { IfOk result (λ found. found.items ≡ site_ifaces vrf 0 ifaces.now) }
{
    let mut found = Vec::new(alloc);
    for (number, iface) in ifaces.iter().enumerate() {
        if iface.vrf.0 == vrf.0 {
            found.push(SiteIface {
                iface: IfaceId(number as u16),
                site: iface.site,
            })?;
        }
    }
    Ok(found)
}

/// The tree gets the interfaces, in order.
#[tactic(auto, using(crate::proofs::StartLemmas::folded_more))]
fn add_ifaces(tree: &mut VrfTree, ifaces: &[SiteIface]) -> Result<(), NoMemory>
    ensures { OnOk result (tree.new ≡ with_ifaces ifaces.now tree.old) }
{
    for own in ifaces {
        tree.add_iface(own.iface, own.site)?;
    }
    Ok(())
}

/// The prefixes are attached with their sites.
#[tactic(auto, using(crate::proofs::StartLemmas::folded_more))]
fn attach(tree: &mut VrfTree, routes: &[Route]) -> Result<(), NoMemory>
    ensures { OnOk result (tree.new ≡ with_routes routes.now tree.old) }
{
    for route in routes {
        tree.umh_attach(route.prefix, route.site)?;
    }
    Ok(())
}

/// The tree of the VRF, without interfaces and prefixes.
fn bare_tree(alloc: Global, vrf: &Vrf, delay: u64) -> VrfTree
    requires number { (1 ≤ vrf.now.number) × (vrf.now.number ≤ 4095) }
    requires delay { (1 ≤ delay) × (delay ≤ 1000) }
    ensures { result ≡ no_tree vrf.now.number vrf.now.rule delay }
{
    VrfTree::of(alloc, vrf.number, vrf.rule, delay)
}

/// The tree gets the interfaces of the VRF.
fn add_own_ifaces(
    tree: &mut VrfTree,
    alloc: Global,
    scenario: &Scenario,
    vrf: VrfId,
) -> Result<(), NoMemory>
    requires { length scenario.now.ifaces ≤ 1024 }
    ensures { OnOk result (tree.new ≡ with_ifaces (site_ifaces vrf 0 scenario.now.ifaces) tree.old) }
{
    let ifaces = site_ifaces(alloc, vrf, scenario.ifaces.as_slice())?;
    add_ifaces(tree, &ifaces)
}

/// The prefixes of the sites at the VRF are attached.
fn attach_own(
    tree: &mut VrfTree,
    alloc: Global,
    scenario: &Scenario,
    vrf: VrfId,
) -> Result<(), NoMemory>
    requires { length scenario.now.sites ≤ 512 }
    ensures { OnOk result (tree.new ≡ with_routes (local_routes scenario.now vrf) tree.old) }
{
    let routes = local_routes(alloc, scenario, vrf)?;
    attach(tree, routes.as_slice())
}

/// The tree of the VRF.
fn first_tree(alloc: Global, scenario: &Scenario, own: &OwnVrf) -> Result<VrfTree, NoMemory>
    requires rules { Rules scenario.now }
    requires own { IsVrf scenario.now own.now.local.vrf }
    ensures { IfOk result (λ tree. tree ≡ first_tree scenario.now (as_own own.now)) }
{
    let mut tree = bare_tree(alloc, own.local.vrf(), scenario.delay);
    add_own_ifaces(&mut tree, alloc, scenario, own.id)?;
    attach_own(&mut tree, alloc, scenario, own.id)?;
    Ok(tree)
}

/// The tree of each of the VRFs, in order.
fn trees_of(alloc: Global, scenario: &Scenario, vrfs: &[OwnVrf]) -> Result<Vec<VrfTree>, NoMemory>
    requires rules { Rules scenario.now }
    requires each { (i : ℕ) (own : OwnVrf) → i < length vrfs.now → IsVrf scenario.now (get_or vrfs.now i own).local.vrf }
    ensures { IfOk result (λ trees. trees.items ≡ map (λ own. first_tree scenario.now (as_own own)) vrfs.now) }
{
    let mut trees = Vec::new(alloc);
    for own in vrfs {
        trees.push(first_tree(alloc, scenario, own)?)?;
    }
    Ok(trees)
}

/// The tree of each VRF of the edge, in order.
pub(crate) fn first_trees(alloc: Global, home: &EdgeHome) -> Result<Vec<VrfTree>, NoMemory>
    ensures { IfOk result (λ trees. trees.items ≡ map (first_tree home.now.scenario) (vrfs_of home.now)) }
{
    trees_of(alloc, home.scenario(), home.vrfs())
}
