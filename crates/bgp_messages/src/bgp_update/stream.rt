//! A stream of messages in any pieces.
ghost use Rattle.std.specs.Prelude.{◌≡◌};
ghost use Rattle.mv_base.specs.framing.Feed.{unfed};
ghost use Rattle.mv_base.specs.framing.Feeding.{FeedIs, Feeds, AnswersFirst, NextIs, unfinished};
ghost use Rattle.bgp_messages.specs.bgp_update.Reading.{message_front};
ghost use Rattle.bgp_messages.specs.bgp_update.Spelling.{SpellsMessage};
ghost use Rattle.bgp_messages.specs.bgp_update.FirstFault.{UnitFault};

use crate::bgp_attributes::{Message, StreamFault};
use crate::bgp_update::cutting::cut_messages;
use mv_base::framing::Inbound;
use std::alloc::Global;
use std::marker::Model;

/// Why a stream did not take a piece.
pub type FeedFault = mv_base::framing::FeedFault<StreamFault>;

/// A stream of BGP messages (RFC 4271 section 4) that comes in any pieces: the messages that wait, and the octets held
/// back because they begin a message that has not come whole, fewer than 4096. Contracts see it as a `Fed`.
#[derive(Drop)]
pub struct Stream {
    inbound: Inbound<Message, StreamFault>,
}

impl Model for Stream {
    ghost use Rattle.mv_base.specs.framing.Feed.{Fed};
    ghost use Rattle.bgp_messages.specs.declared.bgp_attributes.update.Message.{Message};
    ghost use Rattle.bgp_messages.specs.declared.bgp_attributes.fault.StreamFault.{StreamFault};

    ghost Value = { Fed Message StreamFault };

    ghost view = { λ s. s.inbound };
}

impl Stream {
    /// A stream of which nothing has come. It takes no memory.
    pub fn of(alloc: Global) -> Stream
        ensures { result ≡ unfed }
    {
        Stream {
            inbound: Inbound::of(alloc),
        }
    }

    /// Takes the next octets of the stream: whole messages wait then, and the octets after them are held back. The
    /// first fault is answered by the call that brings the octets which show it, with its place counted from the
    /// stream's first octet, and each later call answers `Failed`. Where there is no memory, nothing was taken.
    pub fn feed(&mut self, bytes: &[u8]) -> Result<(), FeedFault>
        // It is what cutting the octets held back and these gives.
        ensures exact { FeedIs message_front self.old bytes.now result self.new }
        // Messages that are spelled were added, and what is held back begins none that is whole and has no fault.
        ensures feeds { Feeds SpellsMessage UnitFault 4096 self.old bytes.now result self.new }
        // The first fault is answered.
        ensures first { AnswersFirst SpellsMessage UnitFault self.old bytes.now result }
    {
        let len = self.inbound.held().len();
        self.inbound.append(bytes)?;
        let found = cut_messages(self.inbound.alloc(), self.inbound.held());
        self.inbound.accept(len, found)
    }

    /// Takes the first message that waits.
    pub fn next(&mut self) -> Option<Message>
        ensures { NextIs self.old result self.new }
    {
        self.inbound.next()
    }

    /// The place of the first octet of the message that has not come whole, counted from the stream's first octet, where
    /// there is one. A place past the greatest number is that number.
    pub fn unfinished(&self) -> Option<u64>
        ensures { result ≡ unfinished self.now }
    {
        self.inbound.unfinished()
    }

    /// What came of the stream.
    pub fn into_inbound(self) -> Inbound<Message, StreamFault>
        ensures { result ≡ self }
    {
        let Stream { inbound } = self;
        inbound
    }
}
