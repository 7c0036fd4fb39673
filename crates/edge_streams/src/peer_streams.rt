//! The streams of one protocol's sessions, by peer.
ghost use Rattle.std.specs.Prelude.{◌≡◌, false, Some, None, IfSome, OnOk, OnErr};
ghost use Rattle.mv_base.specs.framing.Feed.{fed, unfed};
ghost use Rattle.indexmap.specs.IndexMap.{get, IsUnique};
ghost use Rattle.mv_base.specs.declared.ids.NodeId.{NodeId};
ghost use Rattle.edge_streams.specs.Kept.{is_node, NextAt, PutAt, ChangedAt, IsSame, fault_as, fault_in};
ghost use Rattle.edge_streams.specs.Streams.{told_fault};

use crate::message_stream::MessageStream;
use crate::reason::SessionReason;
use crate::session_stream::SessionStream;
use indexmap::IndexMap;
use mv_base::{NoMemory, NodeId};
use std::alloc::Global;

/// The streams by peer.
pub(crate) type PeerStreams<S> = IndexMap<NodeId, SessionStream<S>>;

/// The peer has a stream of which nothing has come, whatever its stream was before.
pub(crate) fn raise<S: MessageStream>(
    streams: &mut PeerStreams<S>,
    alloc: Global,
    peer: NodeId,
) -> Result<(), NoMemory>
    requires { IsUnique is_node streams.old }
    ensures raised { OnOk result (PutAt peer (Some unfed) streams.old streams.new) }
    ensures same { OnErr result (IsSame streams.old streams.new) }
    ensures unique { IsUnique is_node streams.new }
{
    streams.insert(peer, SessionStream::of(alloc))?;
    Ok(())
}

/// The stream of the peer goes, where there is one. It takes no memory.
pub(crate) fn lose<S: MessageStream>(streams: &mut PeerStreams<S>, peer: NodeId)
    requires { IsUnique is_node streams.old }
    ensures lost { PutAt peer None streams.old streams.new }
    ensures unique { IsUnique is_node streams.new }
{
    streams.swap_remove(&peer);
}

/// Feeds the stream of the peer, where there is one.
pub(crate) fn feed<S: MessageStream>(
    streams: &mut PeerStreams<S>,
    peer: NodeId,
    bytes: &[u8],
) -> Result<(), NoMemory>
    requires { IsUnique is_node streams.old }
    ensures fed { OnOk result (ChangedAt peer (λ d. fed S.front d bytes.now) streams.old streams.new) }
    ensures same { OnErr result (IsSame streams.old streams.new) }
    ensures unique { IsUnique is_node streams.new }
{
    match streams.get_mut(&peer) {
        None => Ok(()),
        Some(stream) => stream.feed(bytes),
    }
}

/// Takes the first message that waits in the stream of the peer.
pub(crate) fn next<S: MessageStream>(
    streams: &mut PeerStreams<S>,
    peer: NodeId,
) -> Option<S::Message>
    requires { IsUnique is_node streams.old }
    ensures first { NextAt (get is_node streams.old peer) result (get is_node streams.new peer) }
    ensures others { (q : NodeId) → is_node peer q ≡ false → get is_node streams.new q ≡ get is_node streams.old q }
    ensures spelled { IfSome result (λ message. S.is_spelled message) }
    ensures unique { IsUnique is_node streams.new }
{
    match streams.get_mut(&peer) {
        None => None,
        Some(stream) => stream.next(),
    }
}

/// The first fault of the peer's stream, and its place.
pub(crate) fn fault<S: MessageStream>(
    streams: &PeerStreams<S>,
    peer: NodeId,
) -> Option<(u64, SessionReason)>
    ensures { result ≡ told_fault (fault_as S.session_fault (fault_in (get is_node streams.now peer))) }
{
    match streams.get(&peer)?.fault() {
        None => None,
        Some((place, fault)) => Some((place, S::reason(fault))),
    }
}
