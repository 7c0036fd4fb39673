//! Reading a Join/Prune message.
ghost use Rattle.std.specs.Prelude.{◌≡◌, ◌<◌, ◌≤◌, ◌-◌, ◌+◌, ℕ, List, length, Ok, IfOk};
ghost use Rattle.pim_joinprune.specs.Answers.{Gives, Checks, IsNear, Decodes, IsWithin, IsOnly, IsFirst, IsOnlyFirst};
ghost use Rattle.pim_joinprune.specs.Reading.{typed, summed, fields_at, whole_of, message_of, decoded};
ghost use Rattle.pim_joinprune.specs.Spelling.{IsJoinPrune, Spells, written};

use crate::checksum::sum_of;
use crate::element::read_all;
use crate::family::family_of;
use crate::fault::{DecodeFault, PimFault, ReadFault};
use crate::field::{read_number, read_octet, read_unicast};
use crate::message::JoinPrune;
use std::alloc::Global;

fn stop(left: usize, fault: PimFault) -> ReadFault
    ensures { result ≡ ReadFault.Bad left fault }
{
    ReadFault::Bad { left, fault }
}

/// Version 2 and type 3, in a message of so many octets.
fn check_type(first: u8, len: usize) -> Result<(), ReadFault>
    ensures { Checks result (typed first len) }
{
    if first >> 4 != 2 {
        return Err(stop(len, PimFault::Version));
    }
    if first % 16 != 3 {
        return Err(stop(len, PimFault::PimType));
    }
    Ok(())
}

/// The checksum is that of the message.
fn check_sum(alloc: Global, first: u8, reserved: u8, sum: u16, rest: &[u8]) -> Result<(), ReadFault>
    ensures { Checks result (summed first reserved sum rest.now) }
{
    let expected = sum_of(alloc, first, reserved, rest)?;
    if expected != sum {
        return Err(stop(2 + rest.len(), PimFault::Checksum));
    }
    Ok(())
}

/// The fields after the checksum (RFC 7761 section 4.9.5).
#[tactic(auto, unfolding(crate::specs::Reading::fields_at))]
fn read_fields(alloc: Global, octets: &[u8]) -> Result<(JoinPrune, &[u8]), ReadFault>
    ensures { Gives (λ x. (x.0, x.1.now)) result (fields_at octets.now) }
{
    let (neighbour, rest) = read_unicast(octets)?;
    let (_, rest) = read_octet(rest)?;
    let (count, rest) = read_octet(rest)?;
    let (holdtime, rest) = read_number(rest)?;
    let (groups, rest) = read_all(alloc, family_of(neighbour), count as usize, rest)?;
    Ok((
        JoinPrune {
            neighbour,
            holdtime,
            groups,
        },
        rest,
    ))
}

/// The same, where no octets stand after them.
#[tactic(auto, unfolding(crate::specs::Reading::whole_of))]
fn read_whole(alloc: Global, octets: &[u8]) -> Result<JoinPrune, ReadFault>
    ensures { Gives (λ x. x) result (whole_of octets.now) }
{
    let (message, rest) = read_fields(alloc, octets)?;
    if !rest.is_empty() {
        return Err(stop(rest.len(), PimFault::Trailing));
    }
    Ok(message)
}

#[tactic(auto, unfolding(crate::specs::Reading::message_of))]
fn read_message(alloc: Global, bytes: &[u8]) -> Result<JoinPrune, ReadFault>
    ensures { Gives (λ x. x) result (message_of bytes.now) }
{
    let [first, reserved, high, low, rest @ ..] = bytes else {
        return Err(stop(0, PimFault::Short));
    };
    check_type(*first, bytes.len())?;
    check_sum(
        alloc,
        *first,
        *reserved,
        u16::from_be_bytes([*high, *low]),
        rest,
    )?;
    read_whole(alloc, rest)
}

/// The same. Its fault is among the octets, at a place of 32 bits.
fn read_near(alloc: Global, bytes: &[u8]) -> Result<JoinPrune, ReadFault>
    ensures gives { Gives (λ x. x) result (message_of bytes.now) }
    ensures near { IsNear result (length bytes.now) }
{
    read_message(alloc, bytes)
}

/// The same, with the fault's place.
fn read_placed(alloc: Global, bytes: &[u8]) -> Result<JoinPrune, DecodeFault>
    ensures { Decodes result (decoded bytes.now) }
{
    match read_near(alloc, bytes) {
        Ok(message) => Ok(message),
        Err(ReadFault::NoMemory) => Err(DecodeFault::NoMemory),
        Err(ReadFault::Bad { left, fault }) => Err(DecodeFault::Bad {
            place: (bytes.len() - left) as u32,
            fault,
        }),
    }
}

/// The Join/Prune message that all the octets spell (RFC 7761 section 4.9.5), or their first fault.
pub fn decode(alloc: Global, bytes: &[u8]) -> Result<JoinPrune, DecodeFault>
    // It is what reading from left to right gives, unless memory runs out.
    ensures exact { Decodes result (decoded bytes.now) }
    // A fault stands within the octets or right after them.
    ensures within { IsWithin result (length bytes.now) }
    // What is read is spelled.
    ensures spelled { IfOk result (λ message. Spells message bytes.now) }
    // What is spelled is read, unless memory runs out.
    ensures only_spelled { (message : JoinPrune) → Spells message bytes.now → IsOnly result message }
    // A fault is the first one.
    ensures first { IsFirst result bytes.now }
    // The first fault is answered, unless memory runs out.
    ensures only_first { IsOnlyFirst result bytes.now }
{
    read_placed(alloc, bytes)
}

/// A text spells one value, and a value that has a spelling is spelled by what is written.
pub fn spellings()
    ensures one { (v w : JoinPrune) (text : List ℕ) → Spells v text → Spells w text → v ≡ w }
    ensures written { (message : JoinPrune) → IsJoinPrune message → Spells message (written message) }
    ensures whole { (message : JoinPrune) (text : List ℕ) → Spells message text → IsJoinPrune message }
{}
