//! A core node, as its callers have it.
ghost use Rattle.std.specs.Prelude.{◌≡◌, ◌<◌, ◌≤◌, ◌^◌, not, true, false, length, option_map, None, Some, IfOk, OnOk};
ghost use Rattle.std.specs.FinMap as maps;
ghost use Rattle.mv_base.specs.core_walks.Core.{Core as Walks};
ghost use Rattle.label_defs.specs.LabelData.{due};
ghost use Rattle.label_defs.specs.Node.{handed, handed_out, place_in};
ghost use Rattle.label_defs.specs.Steps.{Noticed, Raised, Rerouted, Timers};
ghost use Rattle.mldp_node.specs.NodeData.{WaitsTowardRootsOf, cause};
ghost use Rattle.mldp_node.specs.Standing.{IsPlace};
ghost use Rattle.wire_laws.specs.CoreNodes.{core_handed_out, fresh_core};
ghost use Rattle.network_nodes.specs.core_node.Answers.{Answers, IsSpending, step_of};
ghost use Rattle.network_nodes.specs.core_node.Called.{spent_after};
ghost use Rattle.network_nodes.specs.core_node.Taking.{AnswersOctets};
ghost use Rattle.network_nodes.specs.core_node.View.{is_up, state_of};

use crate::core_node::fault::{CoreAnswer, CoreFault};
use crate::core_node::parts::Parts;
use core_paths::Core;
use edge_streams::EdgeStreams;
use mldp_node::{Addrs, LdpNode, NodeFault};
use mv_base::{Bytes, NoMemory, NodeId};
use std::alloc::Global;
use std::marker::Model;

/// A core node of the network. Contracts see it as a `CoreView`. It must be closed.
///
/// Where a call answered `NoLabel` or `NoMemory` it is spent: each later call that may change it answers the same, and nothing is handed
/// out.
pub struct CoreNode {
    parts: Parts,
    spent: Option<NodeFault>,
}

impl Model for CoreNode {
    ghost use Rattle.std.specs.Prelude.{◌≡◌, None};
    ghost use Rattle.network_nodes.specs.core_node.Called.{seen};
    ghost use Rattle.network_nodes.specs.core_node.View.{CoreView, IsLive, view_code};

    ghost Value = { CoreView };

    ghost coded = { view_code };

    ghost view = { λ n. seen n.parts n.spent };

    ghost invariant = { λ n. n.spent ≡ None → IsLive n.parts.node n.parts.streams };
}

/// Why a node is spent after the answer, if it is.
fn spent_by(answer: &CoreAnswer) -> Option<NodeFault>
    ensures { option_map cause result ≡ spent_after answer.now }
{
    match answer {
        Err(CoreFault::NoLabel) => Some(NodeFault::NoLabel),
        Err(CoreFault::NoMemory) => Some(NodeFault::NoMemory),
        _ => None,
    }
}

impl CoreNode {
    /// The node of that number among nodes of these addresses, with so many labels from 16 on, before anything has happened. A copy may be
    /// on a link for `life` ticks.
    pub fn of(
        alloc: Global,
        me: NodeId,
        addrs: &Addrs,
        labels: u32,
        life: u64,
    ) -> Result<CoreNode, NoMemory>
        requires place { IsPlace (record { me = me; addrs = addrs.now; life = life }) }
        requires few { labels ≤ 65536 }
        ensures place { IfOk result (λ core. core.labels.place ≡ record { me = me; addrs = addrs.now; life = life }) }
        ensures fresh { IfOk result (λ core. state_of core ≡ fresh_core labels) }
        ensures waits { IfOk result (λ core. core.labels.awaited ≡ maps.empty) }
    {
        let streams = EdgeStreams::of(alloc);
        let node = LdpNode::of(alloc, me, addrs, labels, life)?;
        Ok(CoreNode {
            parts: Parts {
                alloc,
                node,
                streams,
            },
            spent: None,
        })
    }

    /// Octets come from the neighbour, whose session is up (RFC 5036 section 3.1): the messages that are whole with them are taken, those
    /// before the first fault of the stream too.
    pub fn take_ldp(&mut self, peer: NodeId, bytes: &[u8], now: u64, core: &Core) -> CoreAnswer
        requires nodes { core.now.nodes ≡ length self.old.labels.place.addrs }
        requires now { now < 2 ^ 63 }
        requires up { self.old.labels.node.spent ≡ None → is_up self.old peer ≡ true }
        ensures { AnswersOctets core.now now peer bytes.now self.old self.new result }
    {
        if let Some(fault) = self.spent {
            return Err(CoreFault::from(fault));
        }
        let answer = self.parts.take(peer, bytes, now, core);
        self.spent = spent_by(&answer);
        answer
    }

    /// The end of the session with the neighbour comes up, and has a fresh stream.
    pub fn raised(&mut self, peer: NodeId, now: u64, core: &Core) -> CoreAnswer
        requires nodes { core.now.nodes ≡ length self.old.labels.place.addrs }
        requires down { self.old.labels.node.spent ≡ None → is_up self.old peer ≡ false }
        ensures answers { Answers core.now (step_of self.old now (Raised peer)) self.old self.new result }
        ensures only { IsSpending result }
    {
        if let Some(fault) = self.spent {
            return Err(CoreFault::from(fault));
        }
        let answer = self.parts.raise(peer, now, core);
        self.spent = spent_by(&answer);
        answer
    }

    /// The end of the session with the neighbour notices its loss: its labels are free at once, its branches are dropped, and so is what
    /// waits for the neighbour.
    pub fn noticed(&mut self, peer: NodeId, now: u64, core: &Core) -> CoreAnswer
        requires nodes { core.now.nodes ≡ length self.old.labels.place.addrs }
        ensures answers { Answers core.now (step_of self.old now (Noticed peer)) self.old self.new result }
        ensures only { IsSpending result }
    {
        if let Some(fault) = self.spent {
            return Err(CoreFault::from(fault));
        }
        let answer = self.parts.lose(peer, now, core);
        self.spent = spent_by(&answer);
        answer
    }

    /// The timers run: labels whose rest is over are free, and holds that are due are over.
    pub fn timers(&mut self, now: u64, core: &Core) -> CoreAnswer
        requires nodes { core.now.nodes ≡ length self.old.labels.place.addrs }
        ensures answers { Answers core.now (step_of self.old now Timers) self.old self.new result }
        ensures only { IsSpending result }
    {
        if let Some(fault) = self.spent {
            return Err(CoreFault::from(fault));
        }
        let answer = self.parts.run_timers(now, core);
        self.spent = spent_by(&answer);
        answer
    }

    /// Costs of links changed, and with them the next hops towards roots: a tree whose next hop is another one moves to it, and each tree
    /// that waits for a label does so by the new ones.
    pub fn rerouted(&mut self, now: u64, core: &Core) -> CoreAnswer
        requires nodes { core.now.nodes ≡ length self.old.labels.place.addrs }
        ensures answers { Answers core.now (step_of self.old now Rerouted) self.old self.new result }
        ensures toward { OnOk result (WaitsTowardRootsOf core.now self.new.labels) }
        ensures only { IsSpending result }
    {
        if let Some(fault) = self.spent {
            return Err(CoreFault::from(fault));
        }
        let answer = self.parts.reroute(now, core);
        self.spent = spent_by(&answer);
        answer
    }

    /// All octets that wait for the neighbour are handed out. It takes no memory. A node that is spent hands out none.
    pub fn take_out(&mut self, peer: NodeId) -> Bytes
        ensures octets { result ≡ handed peer self.old.labels.node }
        ensures rest { self.new ≡ record self.old { labels = record self.old.labels { node = handed_out peer self.old.labels.node } } }
        ensures state { state_of self.new ≡ core_handed_out peer (state_of self.old) }
    {
        let octets = self.parts.node.take_out(peer);
        if self.spent.is_some() {
            return Bytes::new(self.parts.alloc);
        }
        octets
    }

    /// How many timers are due: resting labels, and holds. It takes no memory. Of a spent node nothing is said.
    pub fn due(&self, now: u64) -> u64
        ensures { self.now.labels.node.spent ≡ None → (own : Walks) →
            result ≡ due (place_in self.now.labels.place own) now self.now.labels.node.part }
    {
        self.parts.node.due(now)
    }

    /// Whether the end of the session with the neighbour is up. It takes no memory.
    pub fn is_up(&self, peer: NodeId) -> bool
        ensures { result ≡ is_up self.now peer }
    {
        self.parts.node.is_up(peer)
    }

    /// Whether that end is up and its hold was not run. It takes no memory.
    pub fn holding(&self, peer: NodeId) -> bool
        ensures { result ≡ elim (maps.get self.now.labels.node.part.ends peer) [ None ↦ false | Some end ↦ not end.held ] }
    {
        self.parts.node.holding(peer)
    }

    /// The label part. It takes no memory. Where a stream lacked memory the node is spent, and its label part may not be.
    pub fn label_node(&self) -> &LdpNode
        ensures goes_on { self.now.labels.node.spent ≡ None → result.now ≡ self.now.labels }
        ensures same { record self.now.labels { node = record self.now.labels.node { spent = result.now.node.spent } } ≡ result.now }
    {
        &self.parts.node
    }

    /// Frees all that it has.
    pub fn close(self) {
        let CoreNode { parts, spent: _ } = self;
        parts.close();
    }
}
