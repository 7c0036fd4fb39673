//! Octets that come over sessions, and the messages that they spell (RFC 5036 section 3.1).
ghost use Rattle.std.specs.Prelude.{◌≡◌, ◌<◌, ◌^◌, true, length, is_some, OnOk, Err, None};
ghost use Rattle.std.specs.FinMap as maps;
ghost use Rattle.network_defs.specs.session_defs.PeerSession.{fault_at, stream_at};
ghost use Rattle.edge_streams.specs.Streams.{drained};
ghost use Rattle.wire_laws.specs.CoreNodes.{ldp_with};
ghost use Rattle.network_nodes.specs.core_node.Answers.{IsSpending};
ghost use Rattle.network_nodes.specs.core_node.Called.{Settles, thereafter, going, spent_after, with_streams};
ghost use Rattle.network_nodes.specs.core_node.Taking.{AnswersOctets, IsSessionFault, taken_by};
ghost use Rattle.network_nodes.specs.core_node.View.{IsLive, is_up};
ghost use Rattle.network_nodes.specs.declared.core_node.fault.CoreFault.{CoreFault as CoreFaults};

use crate::core_node::fault::{CoreAnswer, CoreFault};
use crate::core_node::parts::{Parts, told};
use core_paths::Core;
use mv_base::NodeId;
use scenario_defs::Kind;

impl Parts {
    /// Takes all messages of the neighbour that wait in the session's stream, one after another. The session has one.
    fn take_labels(&mut self, peer: NodeId, now: u64, core: &Core) -> CoreAnswer
        requires there { is_some (maps.get self.old.streams (ldp_with peer)) ≡ true }
        requires live { IsLive self.old.node (drained (ldp_with peer) self.old.streams) }
        requires nodes { core.now.nodes ≡ length self.old.node.place.addrs }
        requires now { now < 2 ^ 63 }
        ensures settles { Settles core.now (taken_by (going self.old) now peer (stream_at self.old.streams (ldp_with peer)).waiting)
            (going (with_streams (drained (ldp_with peer) self.old.streams) self.old)) self.new result }
        ensures only { IsSpending result }
    {
        // It is known here that a core as nodes know it is there.
        let _ = core.nodes();
        while let Some(message) = self.streams.next_ldp(peer) {
            if let Err(fault) = told(self.node.take(peer, message, now, core)) {
                return Err(fault);
            }
        }
        Ok(())
    }

    /// The first fault of the session's stream, if it has had one.
    fn sound(&self, peer: NodeId) -> CoreAnswer
        ensures sound { OnOk result (fault_at self.now.streams (ldp_with peer) ≡ None) }
        ensures fault { (fault : CoreFaults) → result ≡ Err fault → IsSessionFault peer (going self.now) fault }
    {
        match self.streams.fault(Kind::Ldp, peer) {
            None => Ok(()),
            Some((place, reason)) => Err(CoreFault::Session {
                peer,
                place,
                reason,
            }),
        }
    }

    /// Takes octets of the session with the neighbour, which is up: the messages that are whole with them, those before its first fault
    /// too.
    pub(crate) fn take(&mut self, peer: NodeId, bytes: &[u8], now: u64, core: &Core) -> CoreAnswer
        requires live { IsLive self.old.node self.old.streams }
        requires nodes { core.now.nodes ≡ length self.old.node.place.addrs }
        requires now { now < 2 ^ 63 }
        requires up { is_up (going self.old) peer ≡ true }
        ensures answers { AnswersOctets core.now now peer bytes.now (going self.old) (thereafter self.new result) result }
        ensures live { spent_after result ≡ None → IsLive self.new.node self.new.streams }
    {
        self.streams.feed_ldp(peer, bytes)?;
        match self.take_labels(peer, now, core) {
            Ok(()) => self.sound(peer),
            Err(fault) => Err(fault),
        }
    }
}
