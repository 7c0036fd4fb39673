//! The core of the provider's network.
ghost use Rattle.std.specs.Prelude.{◌≡◌, ◌<◌, ◌≤◌, ◌+◌, ◌*◌, ◌↔◌, IfOk, IfErr, IfSome};
ghost use Rattle.mv_base.specs.declared.ids.NodeId.{NodeId};
ghost use Rattle.mv_base.specs.core_walks.Core.{Core as Walks, IsCoreOf};
ghost use Rattle.mv_base.specs.core_walks.Walks.{IsLeast, IsToward};
ghost use Rattle.mv_base.specs.core_walks.Topology.{IsTopology, IsConnected, IsFirstUnreached};
ghost use Rattle.mv_base.specs.core_walks.Costs.{with_cost};

use crate::costs::with_cost;
use crate::tables::{Tables, all_rows, first_unreached};
use mv_base::{Link, NoMemory, NodeId};
use std::alloc::Global;
use std::marker::Model;

/// The nodes and links of a core, each node reached from node 0, with the least costs and first steps of its walks.
/// Contracts see its nodes and links.
#[derive(Drop)]
pub struct Core {
    nodes: u16,
    links: Vec<Link>,
    tables: Tables,
}

impl Model for Core {
    ghost use Rattle.mv_base.specs.core_walks.Topology.{Topology};
    ghost use Rattle.core_paths.specs.Tables.{IsCore};

    ghost Value = { Topology };

    ghost view = { λ core. record { nodes = core.nodes; links = core.links.items } };

    ghost invariant = { λ core. IsCore core.nodes core.links.items core.tables.costs.items core.tables.nexts.items };
}

/// Why there is no core.
#[derive(Clone, Copy, Debug, PartialEq, Eq)]
pub enum CoreFault {
    /// The node is not reached from node 0, and each lower one is.
    Disconnected(NodeId),
    NoMemory,
}

impl From<NoMemory> for CoreFault {
    ghost use Rattle.std.specs.Prelude.{◌≡◌};
    ghost use Rattle.core_paths.specs.declared.paths.CoreFault.TheVariants as faults;

    ghost from_gives = { λ _ fault. fault ≡ faults.NoMemory };

    fn from(_: NoMemory) -> Self {
        CoreFault::NoMemory
    }
}

fn copied(alloc: Global, links: &[Link]) -> Result<Vec<Link>, NoMemory>
    ensures { IfOk result (λ copy. copy.items ≡ links.now) }
{
    let mut copy = Vec::new(alloc);
    copy.extend_from_slice(links)?;
    Ok(copy)
}

impl Core {
    /// The core of so many nodes and these links; `Disconnected` with the lowest node that node 0 does not reach.
    pub fn of(alloc: Global, nodes: u16, links: &[Link]) -> Result<Core, CoreFault>
        requires { IsTopology nodes links.now }
        ensures ok { IfOk result (λ core. core ≡ record { nodes = nodes; links = links.now }) }
        ensures connected { IfOk result (λ _. IsConnected nodes links.now) }
        ensures disconnected { (node : NodeId) → result ≡ Err (CoreFault.Disconnected node) → IsFirstUnreached nodes links.now node.0 }
    {
        if let Some(node) = first_unreached(alloc, nodes, links)? {
            return Err(CoreFault::Disconnected(node));
        }
        let tables = all_rows(alloc, nodes, links)?;
        let links = copied(alloc, links)?;
        Ok(Core {
            nodes,
            links,
            tables,
        })
    }

    /// How many nodes there are.
    pub fn nodes(&self) -> u16
        ensures value { result ≡ self.now.nodes }
        ensures topology { IsTopology self.now.nodes self.now.links }
        ensures connected { IsConnected self.now.nodes self.now.links }
        // A core as nodes know it is there.
        ensures told { (own : Walks) × IsCoreOf self.now.nodes self.now.links own }
    {
        self.nodes
    }

    /// The link between the two nodes costs so much from now on, in both directions. Without such a link nothing changes.
    pub fn set_cost(&mut self, a: NodeId, b: NodeId, cost: u32) -> Result<(), NoMemory>
        requires { (1 ≤ cost) × (cost ≤ 65535) }
        ensures set { IfOk result (λ _. self.new ≡ record { nodes = self.old.nodes; links = with_cost a b cost self.old.links }) }
        ensures unchanged { IfErr result (λ _. self.new ≡ self.old) }
    {
        let alloc = *self.links.allocator();
        let links = with_cost(alloc, &self.links, a, b, cost)?;
        let tables = all_rows(alloc, self.nodes, &links)?;
        self.links = links;
        self.tables = tables;
        Ok(())
    }

    fn place(&self, from: NodeId, to: NodeId) -> usize
        ensures { result ≡ to.0 * self.now.nodes + from.0 }
    {
        usize::from(to.0) * usize::from(self.nodes) + usize::from(from.0)
    }

    /// What a walk costs at least.
    pub fn cost(&self, from: NodeId, to: NodeId) -> u64
        requires from { from.0 < self.now.nodes }
        requires to { to.0 < self.now.nodes }
        ensures { IsLeast self.now.links from.0 to.0 result }
    {
        u64::from(self.tables.costs[self.place(from, to)])
    }

    /// The neighbour of `from` toward `to`: the lowest to which a walk of least cost leads first. `None` exactly where
    /// both are one node.
    pub fn toward(&self, from: NodeId, to: NodeId) -> Option<NodeId>
        requires from { from.0 < self.now.nodes }
        requires to { to.0 < self.now.nodes }
        ensures next { IfSome result (λ next. IsToward self.now.links from.0 to.0 next.0) }
        ensures none { (result ≡ None) ↔ (from.0 ≡ to.0) }
    {
        if from.0 == to.0 {
            return None;
        }
        Some(NodeId(self.tables.nexts[self.place(from, to)]))
    }
}
