//! The messages of a PDU.
ghost use Rattle.std.specs.Prelude.{◌≡◌, ◌+◌, ◌<◌, ◌≤◌, length, IfOk, IfErr};
ghost use Rattle.mv_base.specs.framing.Cut.{cut, IsCutting, IsNear};
ghost use Rattle.mldp.specs.mldp_msgs.Reading.{label_type, message_of, labelled, body_of, message_at, message_front};

use crate::mldp_fec::Fec;
use crate::mldp_msgs::fault::LdpFault;
use crate::mldp_msgs::message::{LabelMessage, MAPPING, RELEASE, WITHDRAW};
use crate::mldp_msgs::tlv::{Found, Stop, read_tlvs};
use mv_base::NoMemory;
use mv_base::framing::Cutting;
use std::alloc::Global;

/// A type of message that says something of a label (RFC 5036 section 3.7).
#[derive(Clone, Copy, PartialEq, Eq)]
enum LabelType {
    Mapping,
    Withdraw,
    Release,
}

fn label_type(kind: u16) -> Option<LabelType>
    ensures { result ≡ label_type kind }
{
    match kind {
        MAPPING => Some(LabelType::Mapping),
        WITHDRAW => Some(LabelType::Withdraw),
        RELEASE => Some(LabelType::Release),
        _ => None,
    }
}

fn message_of(kind: LabelType, fec: Fec, label: u32) -> LabelMessage
    ensures { result ≡ message_of kind fec label }
{
    match kind {
        LabelType::Mapping => LabelMessage::Mapping(fec, label),
        LabelType::Withdraw => LabelMessage::Withdraw(fec, label),
        LabelType::Release => LabelMessage::Release(fec, label),
    }
}

fn labelled(kind: LabelType, found: Found) -> Result<LabelMessage, (usize, LdpFault)>
    ensures value { result ≡ labelled kind found.fec found.label }
    ensures within { IfErr result (λ f. f.0 ≤ 0) }
{
    match (found.fec, found.label) {
        (Some(fec), Some(label)) => Ok(message_of(kind, fec, label)),
        _ => Err((0, LdpFault::MissingTlv)),
    }
}

/// What the octets after the message id say. Places count from the message's first octet.
#[tactic(auto, unfolding(crate::specs::mldp_msgs::Reading::body_of))]
fn read_body(kind: u16, body: &[u8]) -> Result<LabelMessage, (usize, LdpFault)>
    ensures value { result ≡ body_of kind body.now }
    ensures within { IfErr result (λ f. f.0 ≤ 8 + length body.now) }
{
    let Some(label_type) = label_type(kind) else {
        return Ok(LabelMessage::Ignored(kind));
    };
    match read_tlvs(body) {
        Ok(found) => labelled(label_type, found),
        Err((_, Stop::Unlike)) => Ok(LabelMessage::Ignored(kind)),
        Err((place, Stop::Fault(fault))) => Err((8 + place, fault)),
    }
}

/// The message at the front, and how many octets it has.
#[tactic(auto, unfolding(crate::specs::mldp_msgs::Reading::message_at))]
fn read_message(octets: &[u8]) -> Result<(LabelMessage, usize), (usize, LdpFault)>
    requires { 0 < length octets.now }
    ensures value { result ≡ message_at octets.now }
    ensures size { IfOk result (λ x. (0 < x.1) × (x.1 ≤ length octets.now)) }
    ensures within { IfErr result (λ f. f.0 ≤ length octets.now) }
{
    if octets.len() < 4 {
        return Err((0, LdpFault::MessageLength));
    }
    let kind = u16::from_be_bytes([octets[0], octets[1]]);
    let len = u16::from_be_bytes([octets[2], octets[3]]) as usize;
    if len < 4 || octets.len() < 4 + len {
        return Err((2, LdpFault::MessageLength));
    }
    let message = read_body(kind, &octets[8..4 + len])?;
    Ok((message, 4 + len))
}

/// Cuts the octets of a PDU after its header into messages.
pub(crate) fn cut_messages(
    alloc: Global,
    octets: &[u8],
) -> Result<Cutting<LabelMessage, LdpFault>, NoMemory>
    ensures exact { IfOk result (λ c. IsCutting octets.now (cut message_front octets.now) c.messages.items c.len c.fault) }
    ensures within { IfOk result (λ c. IsNear c.fault (length octets.now)) }
{
    let mut messages = Vec::new(alloc);
    let mut place = 0;
    'messages: while place < octets.len() {
        match read_message(&octets[place..]) {
            Ok((message, len)) => {
                messages.push(message)?;
                place += len;
            }
            Err((offset, fault)) => {
                return Ok(Cutting {
                    messages,
                    len: place,
                    fault: Some((place + offset, fault)),
                });
            }
        }
    }
    Ok(Cutting {
        messages,
        len: place,
        fault: None,
    })
}
