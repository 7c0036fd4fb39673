//! The streams of sessions of BGP and LDP.
use crate::stream::SessionStream;
use bgp_messages::bgp_update::{Message, StreamFault};
use mldp::mldp_msgs::{LabelMessage, LdpFault};
use mv_base::framing::FeedFault;

impl SessionStream for bgp_messages::bgp_update::Stream {
    type Message = Message;

    type Fault = StreamFault;

    ghost use Rattle.bgp_messages.specs.bgp_update.FirstFault.{UnitFault};
    ghost use Rattle.bgp_messages.specs.bgp_update.Spelling.{SpellsMessage};

    ghost spells = { SpellsMessage };

    ghost faulty = { UnitFault };

    ghost limit = { 4096 };

    ghost state = { λ s. s };

    fn feed(&mut self, piece: &[u8]) -> Result<(), FeedFault<StreamFault>> {
        bgp_messages::bgp_update::Stream::feed(self, piece)
    }

    fn next(&mut self) -> Option<Message> {
        bgp_messages::bgp_update::Stream::next(self)
    }

    fn unfinished(&self) -> Option<u64> {
        bgp_messages::bgp_update::Stream::unfinished(self)
    }
}

impl SessionStream for mldp::mldp_msgs::Stream {
    type Message = LabelMessage;

    type Fault = LdpFault;

    ghost use Rattle.mldp.specs.mldp_msgs.FirstFault.{PduFault};
    ghost use Rattle.mldp.specs.mldp_msgs.Spelling.{SpellsPdu};

    ghost spells = { SpellsPdu };

    ghost faulty = { PduFault };

    ghost limit = { 4100 };

    ghost state = { λ s. s };

    fn feed(&mut self, piece: &[u8]) -> Result<(), FeedFault<LdpFault>> {
        mldp::mldp_msgs::Stream::feed(self, piece)
    }

    fn next(&mut self) -> Option<LabelMessage> {
        mldp::mldp_msgs::Stream::next(self)
    }

    fn unfinished(&self) -> Option<u64> {
        mldp::mldp_msgs::Stream::unfinished(self)
    }
}
