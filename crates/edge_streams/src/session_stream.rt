//! The stream of one session, whichever its protocol.
ghost use Rattle.std.specs.Prelude.{◌≡◌, IfSome, OnOk, OnErr};
ghost use Rattle.mv_base.specs.framing.Feed.{fed, unfed};
ghost use Rattle.mv_base.specs.framing.Feeding.{NextIs};

use crate::message_stream::MessageStream;
use mv_base::NoMemory;
use mv_base::framing::FeedFault;
use std::alloc::Global;
use std::marker::Model;

/// The stream of a session, with the first fault that it answered. Each message that waits has a spelling.
#[derive(Drop)]
pub(crate) struct SessionStream<S: MessageStream> {
    stream: S,
    fault: Option<(u64, S::Fault)>,
}

impl<S: MessageStream> Model for SessionStream<S> {
    ghost use Rattle.std.specs.Prelude.{◌≡◌};
    ghost use Rattle.std.specs.List.{AllByRecursion};
    ghost use Rattle.mv_base.specs.framing.Feed.{Fed};

    ghost Value = { Fed S.Message S.Fault };

    ghost view = { λ s. S.inbound s.stream };

    ghost invariant = { λ s. (s.fault ≡ (S.inbound s.stream).fault) × AllByRecursion S.is_spelled (S.inbound s.stream).waiting };
}

impl<S: MessageStream> SessionStream<S> {
    /// The stream of a session that comes up. It takes no memory.
    pub(crate) fn of(alloc: Global) -> SessionStream<S>
        ensures { result ≡ unfed }
    {
        SessionStream {
            stream: S::of(alloc),
            fault: None,
        }
    }

    /// Takes the next octets. After the first fault it takes none.
    pub(crate) fn feed(&mut self, bytes: &[u8]) -> Result<(), NoMemory>
        ensures fed { OnOk result (self.new ≡ fed S.front self.old bytes.now) }
        ensures same { OnErr result (self.new ≡ self.old) }
    {
        match self.stream.feed(bytes) {
            Ok(()) => Ok(()),
            Err(FeedFault::First { place, fault }) => {
                self.fault = Some((place, fault));
                Ok(())
            }
            Err(FeedFault::Failed) => Ok(()),
            Err(FeedFault::NoMemory) => Err(NoMemory),
        }
    }

    /// Takes the first message that waits.
    pub(crate) fn next(&mut self) -> Option<S::Message>
        ensures first { NextIs self.old result self.new }
        ensures spelled { IfSome result (λ message. S.is_spelled message) }
    {
        self.stream.next()
    }

    /// The first fault, and its place.
    pub(crate) fn fault(&self) -> Option<(u64, S::Fault)>
        ensures { result ≡ self.now.fault }
    {
        self.fault
    }
}
