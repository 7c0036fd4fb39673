//! The label part of a node.
ghost use Rattle.std.specs.Prelude.{◌≡◌, ◌<◌, ◌≤◌, ◌^◌, not, false, length, is_some, None, Some, IfOk};
ghost use Rattle.std.specs.FinMap as maps;
ghost use Rattle.mv_base.specs.core_walks.Core.{Core as Walks};
ghost use Rattle.label_defs.specs.LabelData.{due};
ghost use Rattle.label_defs.specs.Node.{fresh_node, place_in, handed, handed_out};
ghost use Rattle.label_defs.specs.Steps.{Taken, Want, Unwant, Raised, Noticed, Timers, Rerouted};
ghost use Rattle.mldp_node.specs.NodeData.{Answers, AreOwnBindings, IsFibOfPart, MayWant};
ghost use Rattle.mldp_node.specs.Parts.{IsSpelled};
ghost use Rattle.mldp_node.specs.Standing.{IsPlace};

use crate::fault::NodeFault;
use crate::label_ends::Ends;
use crate::standing::Standing;
use crate::steps;
use core_paths::Core;
use label_trees::LabelTrees;
use label_trees::of_label_forwarding::Fib;
use label_trees::of_tunnel_bindings::Bindings;
use mldp::mldp_fec::Fec;
use mldp::mldp_msgs::LabelMessage;
use mv_base::{Addr, Bytes, NoMemory, NodeId, Seq};
use std::alloc::Global;
use std::marker::Model;

/// The addresses of nodes by number.
pub type Addrs = Seq<Addr>;

/// The label part of a node: labels, branches and leaves of its trees, and the ends of its LDP sessions. It must be closed.
///
/// A node whose call answered a fault is spent: each later call answers the same, and nothing is handed out.
pub struct LdpNode {
    place: Standing,
    trees: LabelTrees,
    ends: Ends,
    spent: Option<NodeFault>,
}

impl Model for LdpNode {
    ghost use Rattle.std.specs.Prelude.{◌≡◌, None};
    ghost use Rattle.mldp_node.specs.NodeData.{NodeData, node_code, seen, IsNode};

    ghost Value = { NodeData };

    ghost coded = { node_code };

    ghost view = { λ n. seen n.place n.trees n.ends n.spent };

    ghost invariant = { λ n. n.spent ≡ None → IsNode n.place n.trees n.ends };
}

fn copied(alloc: Global, addrs: &Addrs) -> Result<Addrs, NoMemory>
    ensures { IfOk result (λ copy. copy ≡ addrs.now) }
{
    let mut copy = Vec::new(alloc);
    copy.extend_from_slice(addrs.as_slice())?;
    Ok(Seq::from_vec(copy))
}

impl LdpNode {
    /// The node of that number among nodes of these addresses, with so many labels from 16 on. A copy may be on a link for `life`
    /// ticks.
    pub fn of(
        alloc: Global,
        me: NodeId,
        addrs: &Addrs,
        labels: u32,
        life: u64,
    ) -> Result<LdpNode, NoMemory>
        requires place { IsPlace (record { me = me; addrs = addrs.now; life = life }) }
        requires few { labels ≤ 65536 }
        ensures { IfOk result (λ fresh. fresh ≡
            record { place = record { me = me; addrs = addrs.now; life = life }; node = fresh_node labels; awaited = maps.empty }) }
    {
        let addrs = copied(alloc, addrs)?;
        Ok(LdpNode {
            place: Standing::of(me, addrs, life),
            trees: LabelTrees::of(alloc, labels, life)?,
            ends: Ends::of(alloc),
            spent: None,
        })
    }

    /// The node becomes a leaf of the tree.
    pub fn want(&mut self, fec: Fec, now: u64, core: &Core) -> Result<(), NodeFault>
        requires nodes { core.now.nodes ≡ length self.old.place.addrs }
        requires tree { MayWant self.old.place fec }
        ensures { Answers core.now now (Want fec) self.old self.new result }
    {
        if let Some(fault) = self.spent {
            return Err(fault);
        }
        match steps::want(&self.place, core, &mut self.trees, &mut self.ends, &fec) {
            Ok(()) => Ok(()),
            Err(fault) => {
                self.spent = Some(fault);
                Err(fault)
            }
        }
    }

    /// The node stops being a leaf of the tree.
    pub fn unwant(&mut self, fec: Fec, now: u64, core: &Core) -> Result<(), NodeFault>
        requires nodes { core.now.nodes ≡ length self.old.place.addrs }
        ensures { Answers core.now now (Unwant fec) self.old self.new result }
    {
        if let Some(fault) = self.spent {
            return Err(fault);
        }
        match steps::unwant(&self.place, core, &mut self.trees, &mut self.ends, &fec) {
            Ok(()) => Ok(()),
            Err(fault) => {
                self.spent = Some(fault);
                Err(fault)
            }
        }
    }

    /// Takes a label message of the neighbour.
    pub fn take(
        &mut self,
        from: NodeId,
        message: LabelMessage,
        now: u64,
        core: &Core,
    ) -> Result<(), NodeFault>
        requires nodes { core.now.nodes ≡ length self.old.place.addrs }
        requires now { now < 2 ^ 63 }
        requires spelled { IsSpelled message }
        ensures { Answers core.now now (Taken from message) self.old self.new result }
    {
        if let Some(fault) = self.spent {
            return Err(fault);
        }
        match steps::take(
            &self.place,
            core,
            &mut self.trees,
            &mut self.ends,
            from,
            &message,
            now,
        ) {
            Ok(()) => Ok(()),
            Err(fault) => {
                self.spent = Some(fault);
                Err(fault)
            }
        }
    }

    /// The end of the session with the neighbour comes up.
    pub fn raised(&mut self, peer: NodeId, now: u64, core: &Core) -> Result<(), NodeFault>
        requires nodes { core.now.nodes ≡ length self.old.place.addrs }
        requires down { self.old.node.spent ≡ None → maps.get self.old.node.part.ends peer ≡ None }
        ensures { Answers core.now now (Raised peer) self.old self.new result }
    {
        if let Some(fault) = self.spent {
            return Err(fault);
        }
        match steps::raised(
            &self.place,
            core,
            &mut self.trees,
            &mut self.ends,
            peer,
            now,
        ) {
            Ok(()) => Ok(()),
            Err(fault) => {
                self.spent = Some(fault);
                Err(fault)
            }
        }
    }

    /// The end of the session with the neighbour notices its loss: its labels are free at once, and its branches are dropped.
    pub fn noticed(&mut self, peer: NodeId, now: u64, core: &Core) -> Result<(), NodeFault>
        requires nodes { core.now.nodes ≡ length self.old.place.addrs }
        ensures { Answers core.now now (Noticed peer) self.old self.new result }
    {
        if let Some(fault) = self.spent {
            return Err(fault);
        }
        match steps::noticed(&self.place, core, &mut self.trees, &mut self.ends, peer) {
            Ok(()) => Ok(()),
            Err(fault) => {
                self.spent = Some(fault);
                Err(fault)
            }
        }
    }

    /// The timers run: labels whose rest is over are free, and holds that are due are over.
    pub fn timers(&mut self, now: u64, core: &Core) -> Result<(), NodeFault>
        requires nodes { core.now.nodes ≡ length self.old.place.addrs }
        ensures { Answers core.now now Timers self.old self.new result }
    {
        if let Some(fault) = self.spent {
            return Err(fault);
        }
        match steps::timers(&self.place, core, &mut self.trees, &mut self.ends, now) {
            Ok(()) => Ok(()),
            Err(fault) => {
                self.spent = Some(fault);
                Err(fault)
            }
        }
    }

    /// Costs of links changed, and with them the next hops towards roots: a tree whose next hop is another one moves to it.
    pub fn rerouted(&mut self, now: u64, core: &Core) -> Result<(), NodeFault>
        requires nodes { core.now.nodes ≡ length self.old.place.addrs }
        ensures { Answers core.now now Rerouted self.old self.new result }
    {
        if let Some(fault) = self.spent {
            return Err(fault);
        }
        match steps::rerouted(&self.place, core, &mut self.trees, &mut self.ends) {
            Ok(()) => Ok(()),
            Err(fault) => {
                self.spent = Some(fault);
                Err(fault)
            }
        }
    }

    /// All octets that wait for the neighbour are handed out. It takes no memory.
    pub fn take_out(&mut self, peer: NodeId) -> Bytes
        ensures octets { result ≡ handed peer self.old.node }
        ensures rest { self.new ≡ record self.old { node = handed_out peer self.old.node } }
    {
        let octets = self.ends.take_out(peer);
        if self.spent.is_some() {
            return Bytes::new(self.place.alloc());
        }
        octets
    }

    /// The forwarding table. It takes no memory.
    pub fn fib(&self) -> &Fib
        ensures { IsFibOfPart self.now.node.part result.now }
    {
        self.trees.fib()
    }

    /// The bindings, each under its name. It takes no memory.
    pub fn bindings(&self) -> &Bindings
        ensures { AreOwnBindings self.now result.now }
    {
        self.trees.bindings()
    }

    /// How many timers are due: resting labels, and holds. It takes no memory. Of a spent node nothing is said.
    pub fn due(&self, now: u64) -> u64
        ensures { self.now.node.spent ≡ None → (own : Walks) → result ≡ due (place_in self.now.place own) now self.now.node.part }
    {
        self.trees
            .due(now)
            .saturating_add(self.ends.due(self.place.life(), now))
    }

    /// Whether the end of the session with the neighbour is up. It takes no memory.
    pub fn is_up(&self, peer: NodeId) -> bool
        ensures { result ≡ is_some (maps.get self.now.node.part.ends peer) }
    {
        self.ends.end(peer).is_some()
    }

    /// Whether that end is up and its hold was not run. It takes no memory.
    pub fn holding(&self, peer: NodeId) -> bool
        ensures { result ≡ elim (maps.get self.now.node.part.ends peer) [ None ↦ false | Some end ↦ not end.held ] }
    {
        match self.ends.end(peer) {
            None => false,
            Some(end) => !end.held,
        }
    }

    /// Frees all that it has.
    pub fn close(self) {
        let LdpNode {
            place: _,
            trees,
            ends: _,
            spent: _,
        } = self;
        trees.close();
    }
}
