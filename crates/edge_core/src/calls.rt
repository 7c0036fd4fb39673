//! The calls that may change an edge.
ghost use Rattle.std.specs.Prelude.{◌≡◌, ◌<◌, ◌^◌, [], true, length, None, Some};
ghost use Rattle.scenario_defs.specs.declared.event.Kind.TheVariants as kinds;
ghost use Rattle.label_defs.specs.Node.{Spent};
ghost use Rattle.edge_routing.specs.edge_control.Places.{is_own_iface};
ghost use Rattle.edge_routing.specs.edge_streams.Kept.{session};
ghost use Rattle.network_defs.specs.node_defs.EdgeState.{EdgeState, handed, handed_out};
ghost use Rattle.edge_core.specs.Calls.{AnswersCall, Fits, call_of};
ghost use Rattle.edge_core.specs.Pim.{AnswersPim};
ghost use Rattle.edge_core.specs.State.{IsIn, IsPeer, home_of, is_up};
ghost use Rattle.edge_core.specs.Taking.{AnswersOctets};

use crate::edge::{Edge, spent_by};
use crate::edge_call::EdgeCall;
use crate::fault::{EdgeAnswer, EdgeFault};
use bgp_messages::bgp_update::Message;
use core_paths::Core;
use mldp::mldp_msgs::LabelMessage;
use mv_base::{Bytes, IfaceId, NodeId};
use scenario_defs::Kind;

impl Edge {
    /// Makes the call, which fits the edge.
    pub fn call(&mut self, call: EdgeCall<'_>, now: u64, core: &Core) -> EdgeAnswer
        requires nodes { core.now.nodes ≡ length (home_of self.old).scenario.nodes }
        requires now { now < 2 ^ 63 }
        requires fits { Fits self.old (call_of call) }
        ensures { AnswersCall core.now now (call_of call.entry) self.old self.new result }
    {
        if let Some(fault) = self.spent {
            return Err(EdgeFault::from(fault));
        }
        let answer = self.parts.call(call, now, core);
        self.spent = spent_by(&answer);
        answer
    }

    /// Octets come from the BGP peer, whose session is up (RFC 4271 section 4): the messages that are whole with them are taken, those
    /// before the first fault of the stream too.
    pub fn take_bgp(&mut self, peer: NodeId, bytes: &[u8], now: u64, core: &Core) -> EdgeAnswer
        requires nodes { core.now.nodes ≡ length (home_of self.old).scenario.nodes }
        requires now { now < 2 ^ 63 }
        requires up { self.old.spent ≡ None → is_up self.old kinds.Bgp peer ≡ true }
        ensures { AnswersOctets core.now now (session kinds.Bgp peer) bytes.now self.old self.new result }
    {
        if let Some(fault) = self.spent {
            return Err(EdgeFault::from(fault));
        }
        let answer = self.parts.take_octets::<Message>(peer, bytes, now, core);
        self.spent = spent_by(&answer);
        answer
    }

    /// Octets come from the LDP neighbour, whose session is up (RFC 5036 section 3.1): the messages that are whole with them are taken,
    /// those before the first fault of the stream too.
    pub fn take_ldp(&mut self, peer: NodeId, bytes: &[u8], now: u64, core: &Core) -> EdgeAnswer
        requires nodes { core.now.nodes ≡ length (home_of self.old).scenario.nodes }
        requires now { now < 2 ^ 63 }
        requires up { self.old.spent ≡ None → is_up self.old kinds.Ldp peer ≡ true }
        ensures { AnswersOctets core.now now (session kinds.Ldp peer) bytes.now self.old self.new result }
    {
        if let Some(fault) = self.spent {
            return Err(EdgeFault::from(fault));
        }
        let answer = self
            .parts
            .take_octets::<LabelMessage>(peer, bytes, now, core);
        self.spent = spent_by(&answer);
        answer
    }

    /// Octets of a PIM message come to the interface from a router of the customer (RFC 7761 sections 4.5 and 4.9.5). Those that are no
    /// Join/Prune message, or one for another router, or one by which there would be too many entries, change nothing.
    pub fn take_pim(&mut self, iface: IfaceId, bytes: &[u8], now: u64, core: &Core) -> EdgeAnswer
        requires nodes { core.now.nodes ≡ length (home_of self.old).scenario.nodes }
        requires own { is_own_iface (home_of self.old) iface ≡ true }
        requires now { now < 2 ^ 63 }
        ensures { AnswersPim core.now now iface bytes.now self.old self.new result }
    {
        if let Some(fault) = self.spent {
            return Err(EdgeFault::from(fault));
        }
        let answer = self.parts.take_pim(iface, bytes, now, core);
        self.spent = spent_by(&answer);
        answer
    }

    /// All octets that wait for the session are handed out. It takes no memory. An edge that is spent hands out none.
    pub fn take_out(&mut self, kind: Kind, peer: NodeId) -> Bytes
        requires peer { IsPeer self.old kind peer }
        ensures octets { self.old.spent ≡ None → (state : EdgeState) → IsIn state self.old → result ≡ handed (session kind peer) state }
        ensures rest { self.old.spent ≡ None → (state : EdgeState) → IsIn state self.old →
            IsIn (handed_out (session kind peer) state) self.new }
        ensures spent { (spent : Spent) → self.old.spent ≡ Some spent → (result ≡ []) × (self.new ≡ self.old) }
        ensures stays { (home_of self.new ≡ home_of self.old) × (self.new.spent ≡ self.old.spent) }
        ensures waits { (self.new.labels.place ≡ self.old.labels.place) × (self.new.labels.awaited ≡ self.old.labels.awaited) }
    {
        if self.spent.is_some() {
            return Bytes::new(self.parts.alloc);
        }
        match kind {
            Kind::Bgp => self.parts.routing.tables.take_out(peer),
            Kind::Ldp => self.parts.labels.take_out(peer),
        }
    }
}
