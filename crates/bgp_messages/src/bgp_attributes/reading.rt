//! Reading the path attributes of an UPDATE message.
ghost use Rattle.std.specs.Prelude.{◌≡◌, ◌+◌, ◌<◌, ◌≤◌, ◌^◌, length, option_map, IfOk};
ghost use Rattle.bgp_messages.specs.bgp_attributes.Answers.{Gives, IsPart, IsWithin, IsOnly, IsFirst, IsOnlyFirst};
ghost use Rattle.bgp_messages.specs.bgp_attributes.Spelling.{is_extended, Spells};
ghost use Rattle.bgp_messages.specs.bgp_attributes.Reading.{front_of, wide_value, narrow_value, value_of, value_place};
ghost use Rattle.bgp_messages.specs.bgp_attributes.Reading.{new_at, attribute_unless, has, found_at, update_at};

use crate::bgp_attributes::attribute::Attribute;
use crate::bgp_attributes::fault::{AttributesFault, StreamFault, misfit};
use crate::bgp_attributes::found::Found;
use crate::bgp_attributes::update::Update;
use crate::bgp_attributes::value::read_value;
use std::alloc::Global;

/// The flag Extended Length: the length has two octets (RFC 4271 section 4.3).
const EXTENDED_LENGTH: u8 = 0x10;

fn is_extended(flags: u8) -> bool
    ensures { result ≡ is_extended flags }
{
    flags & EXTENDED_LENGTH == EXTENDED_LENGTH
}

/// The first octets, of which there are so many.
fn front_of(len: usize, octets: &[u8]) -> Option<&[u8]>
    ensures { option_map (λ front. front.now) result ≡ front_of len octets.now }
{
    if octets.len() < len {
        None
    } else {
        Some(&octets[..len])
    }
}

/// The value after a length of two octets.
#[tactic(auto, unfolding(crate::specs::bgp_attributes::Reading::wide_value))]
fn wide_value(octets: &[u8]) -> Option<&[u8]>
    ensures { option_map (λ value. value.now) result ≡ wide_value octets.now }
{
    match octets {
        [high, low, rest @ ..] => front_of(usize::from(u16::from_be_bytes([*high, *low])), rest),
        _ => None,
    }
}

/// The value after a length of one octet.
#[tactic(auto, unfolding(crate::specs::bgp_attributes::Reading::narrow_value))]
fn narrow_value(octets: &[u8]) -> Option<&[u8]>
    ensures { option_map (λ value. value.now) result ≡ narrow_value octets.now }
{
    match octets {
        [len, rest @ ..] => front_of(usize::from(*len), rest),
        [] => None,
    }
}

/// The value after its length.
#[tactic(auto, unfolding(crate::specs::bgp_attributes::Reading::value_of))]
fn value_of(flags: u8, octets: &[u8]) -> Option<&[u8]>
    ensures { option_map (λ value. value.now) result ≡ value_of flags octets.now }
{
    if is_extended(flags) {
        wide_value(octets)
    } else {
        narrow_value(octets)
    }
}

/// Where the value stands, after flags, type and length.
fn value_place(flags: u8) -> usize
    ensures { result ≡ value_place flags }
{
    if is_extended(flags) { 4 } else { 3 }
}

/// The attribute of a type that may stand here, after flags and type, and how many octets it has.
#[tactic(auto, unfolding(crate::specs::bgp_attributes::Reading::new_at))]
fn read_new(
    alloc: Global,
    flags: u8,
    kind: u8,
    rest: &[u8],
) -> Result<(Attribute, usize), AttributesFault>
    ensures value { Gives result (new_at flags kind rest.now) }
    ensures part { IsPart result (2 + length rest.now) }
{
    let place = value_place(flags);
    let Some(value) = value_of(flags, rest) else {
        return Err(misfit());
    };
    let attribute = read_value(alloc, kind, place, value)?;
    Ok((attribute, place + value.len()))
}

/// The attribute at the front of the octets, after those that were found, and how many octets it has.
#[tactic(auto, unfolding(crate::specs::bgp_attributes::Reading::attribute_unless))]
fn read_attribute(
    alloc: Global,
    found: &Found,
    octets: &[u8],
) -> Result<(Attribute, usize), AttributesFault>
    ensures value { Gives result (attribute_unless (has found.now) octets.now) }
    ensures part { IsPart result (length octets.now) }
{
    let [flags, kind, rest @ ..] = octets else {
        return Err(misfit());
    };
    if found.has(*kind) {
        return Err(AttributesFault::Bad {
            place: 0,
            fault: StreamFault::AttributeList,
        });
    }
    read_new(alloc, *flags, *kind, rest)
}

fn read_attributes(alloc: Global, octets: &[u8]) -> Result<Found, AttributesFault>
    ensures value { Gives result (found_at octets.now) }
    ensures within { IsWithin result (length octets.now) }
{
    let mut found = Found::nothing();
    let mut passed = 0;
    'attributes: while passed < octets.len() {
        match read_attribute(alloc, &found, &octets[passed..]) {
            Ok((attribute, len)) => {
                found.add(attribute);
                passed += len;
            }
            Err(fault) => return Err(fault.thereafter(passed)),
        }
    }
    Ok(found)
}

fn read_whole(alloc: Global, octets: &[u8]) -> Result<Update, AttributesFault>
    ensures value { Gives result (update_at octets.now) }
    ensures within { IsWithin result (length octets.now) }
{
    let found = read_attributes(alloc, octets)?;
    let update = found.into_update(alloc)?;
    Ok(update)
}

/// The update that the octets say, which are the attributes of an UPDATE message (RFC 4271 section 4.3), or their first
/// fault. Attributes of types 14, 15, 16 and 22 are read (RFC 4760, RFC 4360, RFC 6514), and the others are passed over.
pub fn read_update(alloc: Global, octets: &[u8]) -> Result<Update, AttributesFault>
    // It is what reading from left to right gives, unless memory ran out.
    ensures exact { Gives result (update_at octets.now) }
    // What is read is spelled.
    ensures spelled { IfOk result (λ update. Spells update octets.now) }
    // What is spelled is read.
    ensures only_spelled { (update : Update) → Spells update octets.now → IsOnly result update }
    // A fault is the first one.
    ensures first { IsFirst result octets.now }
    // The first fault is answered.
    ensures only_first { IsOnlyFirst result octets.now }
    // A fault stands within the octets or right after them.
    ensures within { IsWithin result (length octets.now) }
{
    read_whole(alloc, octets)
}
