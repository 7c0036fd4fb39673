//! A stream of one protocol's messages, over BGP or LDP.
ghost use Rattle.std.specs.Prelude.{◌≡◌, ℕ, List};
ghost use Rattle.std.specs.List.{AllByRecursion};
ghost use Rattle.mv_base.specs.framing.Cut.{Front};
ghost use Rattle.mv_base.specs.framing.Feed.{Fed, unfed};
ghost use Rattle.mv_base.specs.framing.Feeding.{FeedIs, NextIs};
ghost use Rattle.bgp_messages.specs.bgp_update.Reading.{message_front};
ghost use Rattle.mldp.specs.mldp_msgs.Reading.{pdu_front};
ghost use Rattle.network_defs.specs.session_defs.Message.{SessionFault, BgpFault, LabelFault};
ghost use Rattle.edge_streams.specs.Spelled.{IsSpelled, IsSpelledLabel};
ghost use Rattle.edge_streams.specs.Streams.{reason_of};

use crate::reason::SessionReason;
use bgp_messages::bgp_update::{self, Message, StreamFault};
use mldp::mldp_msgs::{self, LabelMessage, LdpFault};
use mv_base::framing::FeedFault;
use std::alloc::Global;

/// A stream of one protocol's messages that comes in any pieces.
pub(crate) trait MessageStream: Drop {
    type Message: Drop;

    type Fault: Copy + Drop;

    // What came of it: the messages that wait, the octets held back, and the first fault.
    ghost inbound: { Self → Fed Self.Message Self.Fault };

    // What is at the front of octets.
    ghost front: { List ℕ → Front Self.Message Self.Fault };

    // Octets spell the message.
    ghost is_spelled: { Self.Message → Type 0 };

    // A fault as that of a session.
    ghost session_fault: { Self.Fault → SessionFault };

    /// A stream of which nothing has come. It takes no memory.
    fn of(alloc: Global) -> Self
        ensures { inbound result ≡ unfed };

    /// Takes the next octets.
    fn feed(&mut self, bytes: &[u8]) -> Result<(), FeedFault<Self::Fault>>
        ensures exact { FeedIs front (inbound self.old) bytes.now result (inbound self.new) }
        // Octets spell each message that comes to wait.
        ensures spelled { AllByRecursion is_spelled (inbound self.old).waiting → AllByRecursion is_spelled (inbound self.new).waiting };

    /// Takes the first message that waits.
    fn next(&mut self) -> Option<Self::Message>
        ensures { NextIs (inbound self.old) result (inbound self.new) };

    /// The fault as the reason that a session's stream ends.
    fn reason(fault: Self::Fault) -> SessionReason
        ensures { result ≡ reason_of (session_fault fault) };
}

impl MessageStream for bgp_update::Stream {
    type Message = Message;

    type Fault = StreamFault;

    ghost inbound = { λ s. s };

    ghost front = { message_front };

    ghost is_spelled = { IsSpelled };

    ghost session_fault = { λ fault. BgpFault fault };

    fn of(alloc: Global) -> Self {
        bgp_update::Stream::of(alloc)
    }

    fn feed(&mut self, bytes: &[u8]) -> Result<(), FeedFault<StreamFault>> {
        self.feed(bytes)
    }

    fn next(&mut self) -> Option<Message> {
        self.next()
    }

    fn reason(fault: StreamFault) -> SessionReason {
        SessionReason::Bgp(fault)
    }
}

impl MessageStream for mldp_msgs::Stream {
    type Message = LabelMessage;

    type Fault = LdpFault;

    ghost inbound = { λ s. s };

    ghost front = { pdu_front };

    ghost is_spelled = { IsSpelledLabel };

    ghost session_fault = { λ fault. LabelFault fault };

    fn of(alloc: Global) -> Self {
        mldp_msgs::Stream::of(alloc)
    }

    fn feed(&mut self, bytes: &[u8]) -> Result<(), FeedFault<LdpFault>> {
        self.feed(bytes)
    }

    fn next(&mut self) -> Option<LabelMessage> {
        self.next()
    }

    fn reason(fault: LdpFault) -> SessionReason {
        SessionReason::Ldp(fault)
    }
}
