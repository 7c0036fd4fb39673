//! The label part of an edge.
ghost use Rattle.std.specs.Prelude.{◌≡◌, ◌≤◌, ◌<◌, ◌^◌, not, false, length, map, is_some, All, None, Some, IfOk};
ghost use Rattle.std.specs.FinMap as maps;
ghost use Rattle.std.specs.FinSet.{FinSet};
ghost use Rattle.mv_base.specs.core_walks.Core.{Core as Walks};
ghost use Rattle.label_defs.specs.Keys.{fec_cmp};
ghost use Rattle.label_defs.specs.LabelData.{due};
ghost use Rattle.label_defs.specs.Node.{fresh_node, place_in, handed, handed_out};
ghost use Rattle.mldp_node.specs.Standing.{IsPlace};
ghost use Rattle.node_laws.specs.edge_defs.Steps.{changed_leaves};
ghost use Rattle.edge_labels.specs.Calls.{IsWantable, MayMake, AnswersAll, calls_of, leaf_call};
ghost use Rattle.edge_labels.specs.Changes.{AreCandidates};

use crate::changes::{LeafChange, changes_in};
use crate::own_call::OwnCall;
use crate::row::make_all;
use core_paths::Core;
use mldp::mldp_fec::Fec;
use mldp_node::of_label_trees::in_order;
use mldp_node::{Addrs, LdpNode, NodeFault};
use mv_base::{Bytes, NoMemory, NodeId};
use std::alloc::Global;
use std::marker::Model;

/// The label part of an edge, which goes through a row of label steps in one step of the edge. It must be closed.
///
/// Where a step answered a fault it is spent: each later one answers the same, and nothing is handed out.
pub struct EdgeLabels {
    alloc: Global,
    node: LdpNode,
    spent: Option<NodeFault>,
}

impl Model for EdgeLabels {
    ghost use Rattle.mldp_node.specs.NodeData.{NodeData, node_code};

    ghost Value = { NodeData };

    ghost coded = { node_code };

    ghost view = { λ l. l.node };

    ghost use Rattle.std.specs.Prelude.{◌≡◌, option_map};
    ghost use Rattle.mldp_node.specs.NodeData.{cause};

    ghost invariant = { λ l. option_map cause l.spent ≡ l.node.node.spent };
}

impl EdgeLabels {
    /// The label part of the node of that number among nodes of these addresses, with so many labels from 16 on. A copy may be on a
    /// link for `life` ticks.
    pub fn of(
        alloc: Global,
        me: NodeId,
        addrs: &Addrs,
        labels: u32,
        life: u64,
    ) -> Result<EdgeLabels, NoMemory>
        requires place { IsPlace (record { me = me; addrs = addrs.now; life = life }) }
        requires few { labels ≤ 65536 }
        ensures { IfOk result (λ fresh. fresh ≡
            record { place = record { me = me; addrs = addrs.now; life = life }; node = fresh_node labels; awaited = maps.empty }) }
    {
        Ok(EdgeLabels {
            alloc,
            node: LdpNode::of(alloc, me, addrs, labels, life)?,
            spent: None,
        })
    }

    /// The label node. It takes no memory.
    pub fn node(&self) -> &LdpNode
        ensures { result.now ≡ self.now }
    {
        &self.node
    }

    /// The trees of which the edge becomes or stops being a leaf, in their order: of the candidates, in any order, it is to be a leaf of
    /// those that are listed.
    pub fn leaf_changes(
        &self,
        candidates: Vec<Fec>,
        leaves: &[Fec],
    ) -> Result<Vec<LeafChange>, NoMemory>
        ensures { (new : FinSet fec_cmp) → AreCandidates self.now.node.part.leaves new candidates.items leaves.now →
            IfOk result (λ changes. map leaf_call changes.items ≡ changed_leaves self.now.node.part.leaves new) }
    {
        let fecs = in_order(candidates)?;
        changes_in(self.alloc, self.node.fib(), &fecs, leaves)
    }

    /// The label steps of one step of the edge: that of the call itself, if it has one, and then one for each tree of which the edge
    /// becomes or stops being a leaf, in their order.
    pub fn step(
        &mut self,
        own: &OwnCall,
        changes: &[LeafChange],
        now: u64,
        core: &Core,
    ) -> Result<(), NodeFault>
        requires nodes { core.now.nodes ≡ length self.old.place.addrs }
        requires now { now < 2 ^ 63 }
        requires own { MayMake self.old own.now }
        requires trees { All (IsWantable self.old.place) changes.now }
        ensures { AnswersAll core.now now (calls_of own.now changes.now) self.old self.new result }
    {
        if let Some(fault) = self.spent {
            return Err(fault);
        }
        match make_all(&mut self.node, own, changes, now, core) {
            Ok(()) => Ok(()),
            Err(fault) => {
                self.spent = Some(fault);
                Err(fault)
            }
        }
    }

    /// All octets that wait for the neighbour are handed out. It takes no memory.
    pub fn take_out(&mut self, peer: NodeId) -> Bytes
        ensures octets { result ≡ handed peer self.old.node }
        ensures rest { self.new ≡ record self.old { node = handed_out peer self.old.node } }
    {
        self.node.take_out(peer)
    }

    /// How many timers are due: resting labels, and holds. It takes no memory. Of a spent node nothing is said.
    pub fn due(&self, now: u64) -> u64
        ensures { self.now.node.spent ≡ None → (own : Walks) → result ≡ due (place_in self.now.place own) now self.now.node.part }
    {
        self.node.due(now)
    }

    /// Whether the end of the session with the neighbour is up. It takes no memory.
    pub fn is_up(&self, peer: NodeId) -> bool
        ensures { result ≡ is_some (maps.get self.now.node.part.ends peer) }
    {
        self.node.is_up(peer)
    }

    /// Whether that end is up and its hold was not run. It takes no memory.
    pub fn holding(&self, peer: NodeId) -> bool
        ensures { result ≡ elim (maps.get self.now.node.part.ends peer) [ None ↦ false | Some end ↦ not end.held ] }
    {
        self.node.holding(peer)
    }

    /// Frees all that it has.
    pub fn close(self) {
        let EdgeLabels {
            alloc: _,
            node,
            spent: _,
        } = self;
        node.close();
    }
}
