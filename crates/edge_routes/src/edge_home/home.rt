//! What an edge knows of the network.
ghost use Rattle.std.specs.Prelude.{◌≡◌, ◌<◌, ◌≤◌, ◌^◌, length, IfOk};
ghost use Rattle.mv_base.specs.declared.addr.Addr.TheVariants.{V4};
ghost use Rattle.edge_defs.specs.Place.{HasPrefixes, addr_of};
ghost use Rattle.edge_routes.specs.edge_home.Home.{AreOwn, IsHome, home_of, peers_from, peers_of};

use crate::edge_home::octets::sites_have_octets;
use crate::edge_home::own_vrf::{OwnVrf, own_vrfs};
use crate::edge_home::shared::SharedScenario;
use mv_base::{Addr, NoMemory, NodeId};
use scenario_defs::{Node, Scenario};
use std::alloc::Global;
use std::marker::Model;

/// An edge of a scenario. Contracts see the scenario, and which of its nodes the edge is.
#[derive(Drop)]
pub struct EdgeHome {
    scenario: SharedScenario,
    me: NodeId,
    vrfs: Vec<OwnVrf>,
}

impl Model for EdgeHome {
    ghost use Rattle.edge_defs.specs.Place.{HasPrefixes};
    ghost use Rattle.edge_routes.specs.edge_home.Home.{Home, home_code, home_of, IsHome, AreOwn};

    ghost Value = { Home };

    ghost coded = { home_code };

    ghost view = { λ h. home_of h.scenario h.me };

    ghost invariant = { λ h. IsHome h.scenario h.me × (HasPrefixes h.scenario × AreOwn (home_of h.scenario h.me) h.vrfs.items) };
}

/// The octets of the IPv4 address of the edge.
fn own_octets(scenario: &Scenario, me: NodeId) -> [u8; 4]
    requires { IsHome scenario.now me }
    ensures { addr_of scenario.now me ≡ V4 result }
{
    match scenario.nodes.as_slice().get(usize::from(me.0)) {
        Some(
            Node {
                addr: Addr::V4(octets),
                ..
            },
        ) => *octets,
        _ => unreachable!(),
    }
}

/// The edges among the nodes besides this one, in order.
fn peers(alloc: Global, nodes: &[Node], me: NodeId) -> Result<Vec<NodeId>, NoMemory>
    requires { length nodes.now ≤ 2 ^ 16 }
    ensures { IfOk result (λ found. found.items ≡ peers_from me 0 nodes.now) }
{
    let mut found = Vec::new(alloc);
    for (number, node) in nodes.iter().enumerate() {
        if node.edge && number != usize::from(me.0) {
            found.push(NodeId(number as u16))?;
        }
    }
    Ok(found)
}

impl EdgeHome {
    /// The node of that number in the scenario, which it shares.
    pub fn of(alloc: Global, scenario: &SharedScenario, me: NodeId) -> Result<EdgeHome, NoMemory>
        requires { IsHome scenario.now me }
        ensures { IfOk result (λ home. home ≡ home_of scenario.now me) }
    {
        let shared = scenario.share()?;
        let scenario = scenario.lent();
        sites_have_octets(scenario.sites.as_slice());
        let addr = own_octets(scenario, me);
        let vrfs = own_vrfs(alloc, scenario.vrfs.as_slice(), me, addr, scenario.system)?;
        Ok(EdgeHome {
            scenario: shared,
            me,
            vrfs,
        })
    }

    /// The scenario.
    pub fn scenario(&self) -> &Scenario
        ensures scenario { result.now ≡ self.now.scenario }
        ensures is { IsHome self.now.scenario self.now.me }
        ensures octets { HasPrefixes self.now.scenario }
    {
        self.scenario.lent()
    }

    /// Which of the scenario's nodes the edge is.
    pub fn me(&self) -> NodeId
        ensures { result ≡ self.now.me }
    {
        self.me
    }

    /// The VRFs of the edge, in order.
    pub fn vrfs(&self) -> &[OwnVrf]
        ensures vrfs { AreOwn self.now result.now }
        ensures is { IsHome self.now.scenario self.now.me }
    {
        &self.vrfs
    }

    /// The address of the node.
    pub fn addr_of(&self, node: NodeId) -> Addr
        requires { node.0 < length self.now.scenario.nodes }
        ensures { result ≡ addr_of self.now.scenario node }
    {
        self.scenario.lent().nodes.as_slice()[usize::from(node.0)].addr
    }

    /// The other edges, in order.
    pub fn peers(&self, alloc: Global) -> Result<Vec<NodeId>, NoMemory>
        ensures { IfOk result (λ found. found.items ≡ peers_of self.now) }
    {
        peers(alloc, self.scenario.lent().nodes.as_slice(), self.me)
    }
}
