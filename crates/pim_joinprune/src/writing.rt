//! Writing a Join/Prune message.
ghost use Rattle.std.specs.Prelude.{◌≡◌, ◌++◌, length, IfOk};
ghost use Rattle.pim_joinprune.specs.Answers.{IsOnly};
ghost use Rattle.pim_joinprune.specs.Spelling.{IsJoinPrune, fields_text, written};

use crate::checksum::{sum_of, with_checksum};
use crate::element::push_all;
use crate::family::family_of;
use crate::fault::DecodeFault;
use crate::field::NATIVE;
use crate::message::JoinPrune;
use crate::reading::decode;
use mv_base::{Bytes, NoMemory};
use std::alloc::Global;

/// Version 2 and type 3.
const JOIN_PRUNE: u8 = 0x23;

/// The fields after the checksum.
fn fields_of(alloc: Global, message: &JoinPrune) -> Result<Bytes, NoMemory>
    requires { IsJoinPrune message.now }
    ensures { IfOk result (λ octets. octets ≡ fields_text message.now) }
{
    let family = family_of(message.neighbour);
    let mut out = Bytes::new(alloc);
    out.extend(&[family.octet(), NATIVE])?;
    out.extend(message.neighbour.octets())?;
    out.extend(&[0, message.groups.len() as u8])?;
    out.extend(&message.holdtime.to_be_bytes())?;
    push_all(&mut out, family, message.groups.as_slice())?;
    Ok(out)
}

/// Writes the message with its checksum. Octets and bits that may be anything are 0, but the flag S of each source is set
/// (RFC 7761 section 4.9.1).
pub fn encode(alloc: Global, value: &JoinPrune) -> Result<Bytes, NoMemory>
    requires { IsJoinPrune value.now }
    ensures { IfOk result (λ octets. octets ≡ written value.now) }
{
    let fields = fields_of(alloc, value)?;
    let sum = sum_of(alloc, JOIN_PRUNE, 0, fields.as_slice())?;
    with_checksum(alloc, JOIN_PRUNE, 0, sum, fields.as_slice())
}

/// What was written is read again, unless memory runs out.
pub fn round_trip(alloc: Global, value: &JoinPrune) -> Result<JoinPrune, DecodeFault>
    requires { IsJoinPrune value.now }
    ensures { IsOnly result value.now }
{
    let octets = encode(alloc, value)?;
    decode(alloc, octets.as_slice())
}
