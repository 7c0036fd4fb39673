//! What stands at the front of octets: a message of BGP (RFC 4271 section 4).
ghost use Rattle.std.specs.Prelude.{◌≡◌, ◌+◌, ◌<◌, ◌≤◌, ◌==◌, length, IfOk};
ghost use Rattle.std.specs.List.{list_all};
ghost use Rattle.bgp_messages.specs.bgp_update.Reading.{is_marker, is_length, is_type, fits_type, list_at, body_at, contents, message_by, message_front};
ghost use Rattle.bgp_messages.specs.bgp_attributes.Answers.{Gives, IsWithin};
ghost use Rattle.bgp_messages.specs.bgp_update.Answers.{front_of, IsRoom};

use crate::bgp_attributes::{AttributesFault, Message, StreamFault, Update, read_update};
use mv_base::NoMemory;
use std::alloc::Global;

/// Marker, length and type.
pub(crate) const HEADER_LEN: usize = 19;

/// The most octets of a message.
pub(crate) const MESSAGE_LIMIT: usize = 4096;

const MARKER_LEN: usize = 16;

/// The type of UPDATE (RFC 4271 section 4.1).
pub(crate) const UPDATE: u8 = 2;

/// The type of KEEPALIVE.
const KEEPALIVE: u8 = 4;

/// What stands at the front: too few octets to tell, a message of so many octets, or a fault at a place.
#[derive(Drop)]
pub(crate) enum Front {
    More,
    Whole(usize, Message),
    Bad(usize, StreamFault),
}

fn is_marker(octets: &[u8]) -> bool
    ensures { result ≡ is_marker octets.now }
{
    octets.iter().all(|octet| *octet == 0xff)
}

fn is_length(len: usize) -> bool
    ensures { result ≡ is_length len }
{
    HEADER_LEN <= len && len <= MESSAGE_LIMIT
}

fn is_type(kind: u8) -> bool
    ensures { result ≡ is_type kind }
{
    1 <= kind && kind <= 5
}

/// Whether a message of the type may have so many octets: an UPDATE has two lengths, and a KEEPALIVE is a header.
fn fits_type(kind: u8, len: usize) -> bool
    ensures { result ≡ fits_type kind len }
{
    match kind {
        UPDATE => HEADER_LEN + 4 <= len,
        KEEPALIVE => len == HEADER_LEN,
        _ => true,
    }
}

/// The withdrawn routes or the attributes pass the message: the fault stands at their length.
fn list_fault() -> AttributesFault
    ensures { result ≡ AttributesFault.Bad 0 StreamFault.AttributeList }
{
    AttributesFault::Bad {
        place: 0,
        fault: StreamFault::AttributeList,
    }
}

/// The attributes after their length.
#[tactic(auto, unfolding(crate::specs::bgp_update::Reading::list_at))]
fn read_list(alloc: Global, octets: &[u8]) -> Result<Update, AttributesFault>
    ensures value { Gives result (list_at octets.now) }
    ensures within { IsWithin result (length octets.now) }
{
    let [high, low, rest @ ..] = octets else {
        return Err(list_fault());
    };
    let len = u16::from_be_bytes([*high, *low]) as usize;
    if rest.len() < len {
        return Err(list_fault());
    }
    match read_update(alloc, &rest[..len]) {
        Ok(update) => Ok(update),
        Err(fault) => Err(fault.thereafter(2)),
    }
}

/// What stands after the header of an UPDATE (RFC 4271 section 4.3): the attributes, after the withdrawn routes and
/// the length of these.
#[tactic(auto, unfolding(crate::specs::bgp_update::Reading::body_at))]
fn read_body(alloc: Global, body: &[u8]) -> Result<Update, AttributesFault>
    ensures value { Gives result (body_at body.now) }
    ensures within { IsWithin result (length body.now) }
{
    let [high, low, rest @ ..] = body else {
        return Err(list_fault());
    };
    let withdrawn = u16::from_be_bytes([*high, *low]) as usize;
    if rest.len() < withdrawn {
        return Err(list_fault());
    }
    match read_list(alloc, &rest[withdrawn..]) {
        Ok(update) => Ok(update),
        Err(fault) => Err(fault.thereafter(2 + withdrawn)),
    }
}

fn read_contents(alloc: Global, kind: u8, body: &[u8]) -> Result<Message, AttributesFault>
    ensures value { Gives result (contents kind body.now) }
    ensures within { IsWithin result (length body.now) }
{
    if kind != UPDATE {
        return Ok(Message::Other(kind));
    }
    match read_body(alloc, body) {
        Ok(update) => Ok(Message::Update(update)),
        Err(fault) => Err(fault),
    }
}

/// The message of that length and type at the front, whose header is there.
fn read_message(alloc: Global, len: usize, kind: u8, octets: &[u8]) -> Result<Front, NoMemory>
    requires { HEADER_LEN ≤ length octets.now }
    ensures value { IfOk result (λ front. message_by len kind octets.now ≡ front_of front) }
    ensures room { IfOk result (λ front. IsRoom front (length octets.now)) }
{
    if !is_length(len) {
        return Ok(Front::Bad(16, StreamFault::MessageLength));
    }
    if !is_type(kind) {
        return Ok(Front::Bad(18, StreamFault::MessageType));
    }
    if !fits_type(kind, len) {
        return Ok(Front::Bad(16, StreamFault::MessageLength));
    }
    if octets.len() < len {
        return Ok(Front::More);
    }
    match read_contents(alloc, kind, &octets[HEADER_LEN..len]) {
        Ok(message) => Ok(Front::Whole(len, message)),
        Err(AttributesFault::Bad { place, fault }) => Ok(Front::Bad(HEADER_LEN + place, fault)),
        Err(AttributesFault::NoMemory) => Err(NoMemory),
    }
}

/// The message at the front of a stream, or its fault. A fault of the header is told once the header is there, and
/// others once the message is whole.
#[tactic(auto, unfolding(crate::specs::bgp_update::Reading::message_front))]
pub(crate) fn message_at(alloc: Global, octets: &[u8]) -> Result<Front, NoMemory>
    ensures value { IfOk result (λ front. message_front octets.now ≡ front_of front) }
    ensures room { IfOk result (λ front. IsRoom front (length octets.now)) }
{
    if octets.len() < HEADER_LEN {
        return Ok(Front::More);
    }
    if !is_marker(&octets[..MARKER_LEN]) {
        return Ok(Front::Bad(0, StreamFault::Marker));
    }
    let len = u16::from_be_bytes([octets[16], octets[17]]) as usize;
    read_message(alloc, len, octets[18], octets)
}
