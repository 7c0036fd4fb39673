//! A stream of PDUs, in any pieces.
ghost use Rattle.std.specs.Prelude.{◌≡◌};
ghost use Rattle.mv_base.specs.framing.Feed.{unfed};
ghost use Rattle.mv_base.specs.framing.Feeding.{FeedIs, Feeds, AnswersFirst, NextIs, unfinished};
ghost use Rattle.mldp.specs.mldp_msgs.FirstFault.{PduFault};
ghost use Rattle.mldp.specs.mldp_msgs.Reading.{pdu_front};
ghost use Rattle.mldp.specs.mldp_msgs.Spelling.{SpellsPdu};

use crate::mldp_msgs::fault::{FeedFault, LdpFault};
use crate::mldp_msgs::message::LabelMessage;
use crate::mldp_msgs::pdu::cut_pdus;
use mv_base::framing::Inbound;
use std::alloc::Global;
use std::marker::Model;

/// What came of a session's octets. Contracts see it as a `Fed`.
#[derive(Drop)]
pub struct Stream {
    inbound: Inbound<LabelMessage, LdpFault>,
}

impl Model for Stream {
    ghost use Rattle.mv_base.specs.framing.Feed.{Fed};
    ghost use Rattle.mldp.specs.declared.mldp_msgs.fault.LdpFault.{LdpFault};
    ghost use Rattle.mldp.specs.declared.mldp_msgs.message.LabelMessage.{LabelMessage};

    ghost Value = { Fed LabelMessage LdpFault };

    ghost view = { λ s. s.inbound };
}

impl Stream {
    /// A stream of which nothing has come. It takes no memory.
    pub fn of(alloc: Global) -> Stream
        ensures { result ≡ unfed }
    {
        Stream {
            inbound: Inbound::of(alloc),
        }
    }

    /// Takes the next piece of the stream. The messages of each PDU that is whole wait then, and of one in which a message
    /// has a fault those before it. A fault of a PDU's version or length is answered with its first four octets, another
    /// once the PDU is whole. After a fault each call answers `Failed`, and adds no message.
    pub fn feed(&mut self, bytes: &[u8]) -> Result<(), FeedFault>
        // It is what cutting from left to right gives.
        ensures exact { FeedIs pdu_front self.old bytes.now result self.new }
        // The messages of whole PDUs were added, and less than one is held back; or all those before the first fault were.
        ensures feeds { Feeds SpellsPdu PduFault 4100 self.old bytes.now result self.new }
        // The first fault is answered.
        ensures first { AnswersFirst SpellsPdu PduFault self.old bytes.now result }
    {
        let len = self.inbound.held().len();
        self.inbound.append(bytes)?;
        let found = cut_pdus(self.inbound.alloc(), self.inbound.held());
        self.inbound.accept(len, found)
    }

    /// Takes the first message that waits.
    pub fn next(&mut self) -> Option<LabelMessage>
        ensures { NextIs self.old result self.new }
    {
        self.inbound.next()
    }

    /// The place of the first octet of the PDU that has not come whole, if there is one.
    pub fn unfinished(&self) -> Option<u64>
        ensures { result ≡ unfinished self.now }
    {
        self.inbound.unfinished()
    }

    /// What came of the stream.
    pub fn into_inbound(self) -> Inbound<LabelMessage, LdpFault>
        ensures { result ≡ self }
    {
        let Stream { inbound } = self;
        inbound
    }
}
