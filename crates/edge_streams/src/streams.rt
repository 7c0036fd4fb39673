//! The streams of a node's sessions.
ghost use Rattle.std.specs.Prelude.{◌≡◌, option_map, IfSome, OnOk, OnErr};
ghost use Rattle.std.specs.FinMap as maps;
ghost use Rattle.mv_base.specs.framing.Feed.{unfed};
ghost use Rattle.scenario_defs.specs.declared.event.Kind.TheVariants as kinds;
ghost use Rattle.network_defs.specs.session_defs.Message.{Bgp, Label};
ghost use Rattle.network_defs.specs.session_defs.PeerSession.{fault_at};
ghost use Rattle.edge_streams.specs.Kept.{session};
ghost use Rattle.edge_streams.specs.Spelled.{IsSpelled, IsSpelledLabel, SaysWritable, SaysWritableLabel};
ghost use Rattle.edge_streams.specs.Streams.{with_octets, TakesFirst, told_fault};

use crate::peer_streams::{self, PeerStreams};
use crate::reason::SessionReason;
use bgp_messages::bgp_update::{self, Message};
use indexmap::IndexMap;
use mldp::mldp_msgs::{self, LabelMessage};
use mv_base::{NoMemory, NodeId};
use scenario_defs::Kind;
use std::alloc::Global;
use std::marker::Model;

/// What comes over the sessions of a node that are up: for each its stream, that is the messages that wait, the octets held back,
/// and the first fault.
#[derive(Drop)]
pub struct EdgeStreams {
    alloc: Global,
    bgp: PeerStreams<bgp_update::Stream>,
    ldp: PeerStreams<mldp_msgs::Stream>,
}

impl Model for EdgeStreams {
    ghost use Rattle.std.specs.FinMap.{FinMap};
    ghost use Rattle.indexmap.specs.IndexMap.{IsUnique};
    ghost use Rattle.network_defs.specs.session_defs.Octets as sessions;
    ghost use Rattle.network_defs.specs.session_defs.PeerSession.{peer_cmp};
    ghost use Rattle.edge_streams.specs.Kept.{is_node, streams_of};
    ghost use Rattle.edge_streams.specs.Streams.{streams_code};

    ghost Value = { FinMap peer_cmp sessions.Stream };

    ghost coded = { streams_code };

    ghost view = { λ s. streams_of s.bgp s.ldp };

    ghost invariant = { λ s. IsUnique is_node s.bgp × IsUnique is_node s.ldp };
}

impl EdgeStreams {
    /// No session has a stream. It takes no memory.
    pub fn of(alloc: Global) -> EdgeStreams
        ensures { result ≡ maps.empty }
    {
        EdgeStreams {
            alloc,
            bgp: IndexMap::new(alloc),
            ldp: IndexMap::new(alloc),
        }
    }

    /// The session comes up, and has a stream of which nothing has come, whatever its stream was before.
    pub fn raise(&mut self, kind: Kind, peer: NodeId) -> Result<(), NoMemory>
        ensures raised { OnOk result (self.new ≡ maps.insert self.old (session kind peer) unfed) }
        ensures same { OnErr result (self.new ≡ self.old) }
    {
        match kind {
            Kind::Bgp => peer_streams::raise(&mut self.bgp, self.alloc, peer),
            Kind::Ldp => peer_streams::raise(&mut self.ldp, self.alloc, peer),
        }
    }

    /// The loss of the session is noticed: its stream goes, with what waits in it and what it holds back. It takes no memory.
    pub fn lose(&mut self, kind: Kind, peer: NodeId)
        ensures { self.new ≡ maps.remove self.old (session kind peer) }
    {
        match kind {
            Kind::Bgp => peer_streams::lose(&mut self.bgp, peer),
            Kind::Ldp => peer_streams::lose(&mut self.ldp, peer),
        }
    }

    /// Octets come from the BGP peer (RFC 4271 section 4). They go to its stream, where it has one that has had no fault.
    pub fn feed_bgp(&mut self, peer: NodeId, bytes: &[u8]) -> Result<(), NoMemory>
        ensures fed { OnOk result (self.new ≡ with_octets (session kinds.Bgp peer) bytes.now self.old) }
        ensures same { OnErr result (self.new ≡ self.old) }
    {
        peer_streams::feed(&mut self.bgp, peer, bytes)
    }

    /// Octets come from the LDP neighbour (RFC 5036 section 3.1). They go to its stream, where it has one that has had no fault.
    pub fn feed_ldp(&mut self, peer: NodeId, bytes: &[u8]) -> Result<(), NoMemory>
        ensures fed { OnOk result (self.new ≡ with_octets (session kinds.Ldp peer) bytes.now self.old) }
        ensures same { OnErr result (self.new ≡ self.old) }
    {
        peer_streams::feed(&mut self.ldp, peer, bytes)
    }

    /// Takes the first message from the BGP peer that waits, if one does. It takes no memory.
    pub fn next_bgp(&mut self, peer: NodeId) -> Option<Message>
        ensures first { TakesFirst (session kinds.Bgp peer) self.old (option_map (λ message. Bgp message) result) self.new }
        // Octets spell it, and so each route and each key that it says can be written.
        ensures spelled { IfSome result (λ message. IsSpelled message) }
        ensures writable { IfSome result (λ message. SaysWritable message) }
    {
        peer_streams::next(&mut self.bgp, peer)
    }

    /// Takes the first message from the LDP neighbour that waits, if one does. It takes no memory.
    pub fn next_ldp(&mut self, peer: NodeId) -> Option<LabelMessage>
        ensures first { TakesFirst (session kinds.Ldp peer) self.old (option_map (λ message. Label message) result) self.new }
        // Octets spell it, and so its tree and its label can be written.
        ensures spelled { IfSome result (λ message. IsSpelledLabel message) }
        ensures writable { IfSome result (λ message. SaysWritableLabel message) }
    {
        peer_streams::next(&mut self.ldp, peer)
    }

    /// The first fault of the session's stream, and its place, counted from the stream's first octet. A place past the greatest
    /// number is that number. It takes no memory.
    pub fn fault(&self, kind: Kind, peer: NodeId) -> Option<(u64, SessionReason)>
        ensures { result ≡ told_fault (fault_at self.now (session kind peer)) }
    {
        match kind {
            Kind::Bgp => peer_streams::fault(&self.bgp, peer),
            Kind::Ldp => peer_streams::fault(&self.ldp, peer),
        }
    }
}
