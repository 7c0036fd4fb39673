//! The peers of a root: the stream of each, and its answer so far.
ghost use Rattle.std.specs.Prelude.{◌≡◌, fold, OnOk, IfOk};
ghost use Rattle.bgp_messages.specs.bgp_update.Table.{announced, unannounced};
ghost use Rattle.ingress_text.specs.Telling.{answer_after, answer_by, drained, fault_by, first_fault, fresh, taken, Takes};

use crate::draft::number_of;
use bgp_messages::bgp_update::{Advert, FeedFault, Key, Message, Stream, StreamFault};
use ingress_rep::{Request, is_answer};
use mv_base::{Addr, NoMemory};
use std::alloc::Global;
use std::collections::BTreeMap;

/// The stream of a peer, and its answer so far.
#[derive(Drop)]
pub struct Peer {
    pub(crate) stream: Stream,
    pub(crate) answer: Option<Advert>,
}

/// The peers by the numbers of their addresses.
pub(crate) type Peers = BTreeMap<u32, Peer>;

/// The answer is withdrawn, if it is one of the keys.
fn withdraw(request: &Request, leaf: [u8; 4], answer: &mut Option<Advert>, keys: &[Key])
    ensures { answer.new ≡ fold (answer_after request.now leaf) answer.old (unannounced keys.now) }
{
    let mut rest = keys;
    'keys: while let [key, more @ ..] = rest {
        if is_answer(request, Addr::V4(leaf), key) {
            *answer = None;
        }
        rest = more;
    }
}

/// The last of the routes that is an answer takes the place of the answer.
fn announce(request: &Request, leaf: [u8; 4], answer: &mut Option<Advert>, adverts: Vec<Advert>)
    ensures { answer.new ≡ fold (answer_after request.now leaf) answer.old (announced adverts.items) }
{
    for advert in adverts {
        if is_answer(request, Addr::V4(leaf), &advert.key) {
            *answer = Some(advert);
        }
    }
}

/// The answer after a message, which withdraws first and then announces.
fn hear(request: &Request, leaf: [u8; 4], answer: &mut Option<Advert>, message: Message)
    ensures { answer.new ≡ answer_by request.now leaf answer.old message }
{
    match message {
        Message::Update(update) => {
            withdraw(request, leaf, answer, update.unreach.as_slice());
            announce(request, leaf, answer, update.reach.into_vec());
        }
        Message::Other(_) => {}
    }
}

impl Peer {
    /// A peer of which nothing has come.
    fn new(alloc: Global) -> Peer
        ensures { result ≡ fresh }
    {
        Peer {
            stream: Stream::of(alloc),
            answer: None,
        }
    }

    /// Hears the messages that wait.
    fn drain(&mut self, request: &Request, leaf: [u8; 4])
        ensures { self.new ≡ drained request.now leaf self.old }
    {
        while let Some(message) = self.stream.next() {
            hear(request, leaf, &mut self.answer, message);
        }
    }

    /// Takes octets, and answers the first fault of its stream where they show it.
    fn take(
        &mut self,
        request: &Request,
        leaf: [u8; 4],
        octets: &[u8],
    ) -> Result<Option<(u64, StreamFault)>, NoMemory>
        ensures peer { OnOk result (self.new ≡ taken request.now leaf self.old octets.now) }
        ensures fault { IfOk result (λ fault. fault ≡ first_fault self.old (taken request.now leaf self.old octets.now)) }
    {
        let fault = match self.stream.feed(octets) {
            Ok(()) | Err(FeedFault::Failed) => None,
            Err(FeedFault::First { place, fault }) => Some((place, fault)),
            Err(FeedFault::NoMemory) => return Err(NoMemory),
        };
        self.drain(request, leaf);
        Ok(fault)
    }
}

/// The peer of that address takes octets, and answers the first fault of its stream where they show it.
pub(crate) fn take_from(
    alloc: Global,
    peers: &mut Peers,
    request: &Request,
    addr: [u8; 4],
    octets: &[u8],
) -> Result<Option<(u64, StreamFault)>, NoMemory>
    ensures peer { OnOk result (Takes request.now addr octets.now peers.old peers.new) }
    ensures fault { IfOk result (λ fault. fault ≡ fault_by request.now addr octets.now peers.old) }
{
    let mut peer = peers.remove(&number_of(addr)).unwrap_or(Peer::new(alloc));
    let fault = peer.take(request, addr, octets)?;
    peers.insert(number_of(addr), peer)?;
    Ok(fault)
}
