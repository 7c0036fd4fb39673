//! Octets that come over sessions, and the messages that they spell (RFC 4271 section 4, RFC 5036 section 3.1).
ghost use Rattle.std.specs.Prelude.{◌≡◌, [], true, is_some, option_map, IfSome, OnOk, Err, None};
ghost use Rattle.std.specs.FinMap as maps;
ghost use Rattle.std.specs.FinMap.{FinMap};
ghost use Rattle.scenario_defs.specs.declared.event.Kind.{Kind as Kinds};
ghost use Rattle.scenario_defs.specs.declared.event.Kind.TheVariants as kinds;
ghost use Rattle.network_defs.specs.node_defs.EdgeState.{call_of};
ghost use Rattle.network_defs.specs.session_defs.Message.{SessionMessage, Bgp, Label};
ghost use Rattle.network_defs.specs.session_defs.Octets.{Stream};
ghost use Rattle.network_defs.specs.session_defs.PeerSession.{fault_at, peer_cmp, stream_at};
ghost use Rattle.edge_routing.specs.edge_streams.Kept.{session};
ghost use Rattle.edge_routing.specs.edge_streams.Spelled.{SaysWritable, SaysWritableLabel};
ghost use Rattle.edge_routing.specs.edge_streams.Streams.{drained, with_octets, TakesFirst};
ghost use Rattle.edge_core.specs.Answers.{IsOneOf};
ghost use Rattle.edge_core.specs.Called.{IsReady, Settles, SettlesCall, thereafter, going, spent_after, with_streams};
ghost use Rattle.edge_core.specs.State.{IsLive, is_up};
ghost use Rattle.edge_core.specs.Taking.{AnswersOctets, IsSessionFault, taken_by};
ghost use Rattle.edge_core.specs.declared.fault.EdgeFault.{EdgeFault as EdgeFaults};

use crate::fault::{EdgeAnswer, EdgeFault};
use crate::parts::Parts;
use bgp_messages::bgp_update::Message;
use core_paths::Core;
use edge_routing::of_edge_labels::OwnCall;
use edge_routing::of_edge_streams::EdgeStreams;
use mldp::mldp_msgs::LabelMessage;
use mv_base::{NoMemory, NodeId};
use scenario_defs::Kind;

/// A message that comes over sessions of one protocol.
pub(crate) trait EdgeMessage: Drop {
    // The protocol.
    ghost protocol: { Kinds };

    // The message as one of a session.
    ghost of_session: { Self → SessionMessage };

    // What it says can be written.
    ghost is_writable: { Self → Type 0 };

    /// The protocol.
    fn kind() -> Kind
        ensures { result ≡ protocol };

    /// Octets go to the stream of the session with the peer.
    fn feed(streams: &mut EdgeStreams, peer: NodeId, bytes: &[u8]) -> Result<(), NoMemory>
        ensures { OnOk result (streams.new ≡ with_octets (session protocol peer) bytes.now streams.old) };

    /// Takes the first message that waits in that stream, if one does.
    fn next(streams: &mut EdgeStreams, peer: NodeId) -> Option<Self>
        ensures first { TakesFirst (session protocol peer) streams.old (option_map of_session result) streams.new }
        ensures writable { IfSome result is_writable };

    /// The edge takes the message of the peer. It goes by no stream, and changes none.
    fn take(self, edge: &mut Parts, peer: NodeId, now: u64, core: &Core) -> EdgeAnswer
        requires ready { (streams : FinMap peer_cmp Stream) × IsReady core.now now (with_streams streams edge.old) }
        requires writable { is_writable self }
        ensures settles { (streams : FinMap peer_cmp Stream) → IsReady core.now now (with_streams streams edge.old) →
            SettlesCall core.now now (call_of peer (of_session self)) (going (with_streams streams edge.old)) (with_streams streams edge.new) result }
        ensures same { edge.new.streams ≡ edge.old.streams }
        ensures only { IsOneOf [] result };
}

impl EdgeMessage for Message {
    ghost protocol = { kinds.Bgp };

    ghost of_session = { λ message. Bgp message };

    ghost is_writable = { SaysWritable };

    fn kind() -> Kind {
        Kind::Bgp
    }

    fn feed(streams: &mut EdgeStreams, peer: NodeId, bytes: &[u8]) -> Result<(), NoMemory> {
        streams.feed_bgp(peer, bytes)
    }

    fn next(streams: &mut EdgeStreams, peer: NodeId) -> Option<Message> {
        streams.next_bgp(peer)
    }

    fn take(self, edge: &mut Parts, peer: NodeId, now: u64, core: &Core) -> EdgeAnswer {
        let told = edge.routing.take_update(edge.alloc, peer, self, now, core);
        edge.settle(&OwnCall::None, told, now, core)
    }
}

impl EdgeMessage for LabelMessage {
    ghost protocol = { kinds.Ldp };

    ghost of_session = { λ message. Label message };

    ghost is_writable = { SaysWritableLabel };

    fn kind() -> Kind {
        Kind::Ldp
    }

    fn feed(streams: &mut EdgeStreams, peer: NodeId, bytes: &[u8]) -> Result<(), NoMemory> {
        streams.feed_ldp(peer, bytes)
    }

    fn next(streams: &mut EdgeStreams, peer: NodeId) -> Option<LabelMessage> {
        streams.next_ldp(peer)
    }

    fn take(self, edge: &mut Parts, peer: NodeId, now: u64, core: &Core) -> EdgeAnswer {
        let told = edge.routing.step(edge.alloc, now, core);
        edge.settle(&OwnCall::Take(peer, self), told, now, core)
    }
}

impl Parts {
    /// Takes all messages of the peer that wait in the session's stream, one after another. The session has one.
    fn take_all<M: EdgeMessage>(&mut self, peer: NodeId, now: u64, core: &Core) -> EdgeAnswer
        requires there { is_some (maps.get self.old.streams (session M.protocol peer)) ≡ true }
        requires ready { IsReady core.now now (with_streams (drained (session M.protocol peer) self.old.streams) self.old) }
        ensures settles { Settles core.now (taken_by (going self.old) now peer (stream_at self.old.streams (session M.protocol peer)).waiting)
            (going (with_streams (drained (session M.protocol peer) self.old.streams) self.old)) self.new result }
        ensures only { IsOneOf [] result }
    {
        while let Some(message) = M::next(&mut self.streams, peer) {
            if let Err(fault) = message.take(self, peer, now, core) {
                return Err(fault);
            }
        }
        Ok(())
    }

    /// The first fault of the session's stream, if it has had one.
    fn sound(&self, kind: Kind, peer: NodeId) -> EdgeAnswer
        ensures sound { OnOk result (fault_at self.now.streams (session kind peer) ≡ None) }
        ensures fault { (fault : EdgeFaults) → result ≡ Err fault → IsSessionFault (session kind peer) (going self.now) fault }
    {
        match self.streams.fault(kind, peer) {
            None => Ok(()),
            Some((place, reason)) => Err(EdgeFault::Session {
                peer,
                place,
                reason,
            }),
        }
    }

    /// Takes octets of the session with the peer, which is up: the messages that are whole with them, those before its first fault too.
    pub(crate) fn take_octets<M: EdgeMessage>(
        &mut self,
        peer: NodeId,
        bytes: &[u8],
        now: u64,
        core: &Core,
    ) -> EdgeAnswer
        requires ready { IsReady core.now now self.old }
        requires up { is_up (going self.old) M.protocol peer ≡ true }
        ensures answers { AnswersOctets core.now now (session M.protocol peer) bytes.now (going self.old) (thereafter self.new result) result }
        ensures live { spent_after result ≡ None → IsLive self.new.routing self.new.labels self.new.streams }
    {
        M::feed(&mut self.streams, peer, bytes)?;
        match self.take_all::<M>(peer, now, core) {
            Ok(()) => self.sound(M::kind(), peer),
            Err(fault) => Err(fault),
        }
    }
}
