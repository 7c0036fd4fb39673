//! Streams of the octets of a session.
ghost use Rattle.std.specs.Prelude.{◌≡◌, List, ℕ};
ghost use Rattle.mv_base.specs.framing.Feed.{Fed};
ghost use Rattle.mv_base.specs.framing.Feeding.{Feeds, NextIs, unfinished};

use mv_base::framing::FeedFault;
use value_text::{Lined, Worded};

/// A stream of the octets of a session, which come in pieces.
pub trait SessionStream: Drop {
    /// A message of the session.
    type Message: Lined + Drop;
    /// Why octets are no unit.
    type Fault: Worded + Copy + Drop;

    /// How a unit is spelled, with its messages.
    ghost spells: { List Self.Message → List ℕ → Type 0 };

    /// The first fault of octets, with the messages that stand before it.
    ghost faulty: { List ℕ → List Self.Message → ℕ → Self.Fault → Type 0 };

    /// Fewer octets than these are held back.
    ghost limit: { ℕ };

    /// What came of the stream.
    ghost state: { Self → Fed Self.Message Self.Fault };

    /// Takes the next octets.
    fn feed(&mut self, piece: &[u8]) -> Result<(), FeedFault<Self::Fault>>
        ensures { Feeds spells faulty limit (state self.old) piece.now result (state self.new) };

    /// Takes the first message that waits.
    fn next(&mut self) -> Option<Self::Message>
        ensures { NextIs (state self.old) result (state self.new) };

    /// The place of the first octet held back, if there is one.
    fn unfinished(&self) -> Option<u64>
        ensures { result ≡ unfinished (state self.now) };
}
