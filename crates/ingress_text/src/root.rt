//! The route of a root, from octets.
ghost use Rattle.std.specs.Prelude.{◌≡◌, IfOk, IfSome};
ghost use Rattle.std.specs.List.{AllByRecursion};
ghost use Rattle.edge_streams.specs.Spelled.{IsSpelled};
ghost use Rattle.ingress_rep.specs.Ingress.{IsSpelledSelective};
ghost use Rattle.ingress_text.specs.Root.{root_of, root_by, sole, sole_advert, sole_message};

use crate::input::Root;
use bgp_messages::bgp_update::{Advert, FeedFault, Message, Stream};
use ingress_rep::request_of;
use mv_base::NoMemory;
use std::alloc::Global;

/// The message that waits, where it is the only one and no octets stand after it.
fn sole(mut stream: Stream) -> Option<Message>
    requires { AllByRecursion IsSpelled stream.waiting }
    ensures value { result ≡ sole stream }
    ensures spelled { IfSome result IsSpelled }
{
    if stream.unfinished().is_some() {
        return None;
    }
    let message = stream.next()?;
    match stream.next() {
        None => Some(message),
        Some(_) => None,
    }
}

/// The message that the octets are, if they are one.
fn sole_message(alloc: Global, octets: &[u8]) -> Result<Option<Message>, NoMemory>
    ensures value { IfOk result (λ message. message ≡ sole_message octets.now) }
    ensures spelled { IfOk result (λ message. IfSome message IsSpelled) }
{
    let mut stream = Stream::of(alloc);
    match stream.feed(octets) {
        Ok(()) => Ok(sole(stream)),
        Err(FeedFault::First { .. }) | Err(FeedFault::Failed) => Ok(None),
        Err(FeedFault::NoMemory) => Err(NoMemory),
    }
}

/// The route that the message announces, where it announces that alone and withdraws none.
fn sole_advert(message: Message) -> Option<Advert>
    requires { IsSpelled message }
    ensures value { result ≡ sole_advert message }
    ensures spelled { IfSome result (λ advert. IsSpelledSelective advert.key) }
{
    let Message::Update(update) = message else {
        return None;
    };
    if !update.unreach.is_empty() {
        return None;
    }
    let mut adverts = update.reach.into_vec();
    let advert = adverts.pop()?;
    if adverts.is_empty() {
        Some(advert)
    } else {
        None
    }
}

/// The root of that address, where the route asks for answers and is its own.
fn root_by(addr: [u8; 4], advert: Advert) -> Option<Root>
    requires { IsSpelledSelective advert.key }
    ensures { result ≡ root_by addr advert }
{
    let request = request_of(&advert)?;
    if request.root == addr {
        Some(Root::of(request, advert))
    } else {
        None
    }
}

/// The root of that address whose route the octets announce, and nothing else.
pub(crate) fn root_of(alloc: Global, addr: [u8; 4], octets: &[u8]) -> Result<Option<Root>, NoMemory>
    ensures { IfOk result (λ root. root ≡ root_of addr octets.now) }
{
    let Some(message) = sole_message(alloc, octets)? else {
        return Ok(None);
    };
    let Some(advert) = sole_advert(message) else {
        return Ok(None);
    };
    Ok(root_by(addr, advert))
}
