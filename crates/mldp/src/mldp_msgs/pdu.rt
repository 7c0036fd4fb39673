//! The PDUs of a stream.
ghost use Rattle.std.specs.Prelude.{◌≡◌, ◌+◌, ◌<◌, ◌≤◌, length, IfOk};
ghost use Rattle.mv_base.specs.framing.Cut.{cut, IsCutting, IsNear};
ghost use Rattle.mv_base.specs.Octets.{IsOctets};
ghost use Rattle.mldp.specs.mldp_msgs.Answers.{front_of, IsRoom};
ghost use Rattle.mldp.specs.mldp_msgs.Reading.{pdu_front};

use crate::mldp_msgs::fault::LdpFault;
use crate::mldp_msgs::message::LabelMessage;
use crate::mldp_msgs::reading::cut_messages;
use mv_base::NoMemory;
use mv_base::framing::Cutting;
use std::alloc::Global;

/// What stands at the front of a stream.
#[derive(Drop)]
enum Front {
    /// Too few octets to tell.
    More,
    /// A PDU of so many octets, with its messages.
    Whole(usize, Vec<LabelMessage>),
    /// A PDU with a fault at this place, and its messages before that.
    Bad(Vec<LabelMessage>, usize, LdpFault),
}

#[tactic(auto, unfolding(crate::specs::mldp_msgs::Reading::pdu_front))]
fn read_pdu(alloc: Global, octets: &[u8]) -> Result<Front, NoMemory>
    ensures value { IfOk result (λ f. pdu_front octets.now ≡ front_of f) }
    ensures room { IfOk result (λ f. IsRoom f (length octets.now)) }
{
    if octets.len() < 4 {
        return Ok(Front::More);
    }
    if u16::from_be_bytes([octets[0], octets[1]]) != 1 {
        return Ok(Front::Bad(Vec::new(alloc), 0, LdpFault::Version));
    }
    let len = u16::from_be_bytes([octets[2], octets[3]]) as usize;
    if len < 6 || 4096 < len {
        return Ok(Front::Bad(Vec::new(alloc), 2, LdpFault::PduLength));
    }
    if octets.len() < 4 + len {
        return Ok(Front::More);
    }
    let Cutting {
        messages,
        len: _,
        fault,
    } = cut_messages(alloc, &octets[10..4 + len])?;
    match fault {
        None => Ok(Front::Whole(4 + len, messages)),
        Some((place, fault)) => Ok(Front::Bad(messages, 10 + place, fault)),
    }
}

/// Cuts the octets of a stream into PDUs.
pub(crate) fn cut_pdus(
    alloc: Global,
    octets: &[u8],
) -> Result<Cutting<LabelMessage, LdpFault>, NoMemory>
    ensures exact { IfOk result (λ c. IsCutting octets.now (cut pdu_front octets.now) c.messages.items c.len c.fault) }
    ensures octets { IsOctets octets.now }
{
    let mut messages = Vec::new(alloc);
    let mut place = 0;
    'pdus: loop {
        match read_pdu(alloc, &octets[place..])? {
            Front::More => {
                return Ok(Cutting {
                    messages,
                    len: place,
                    fault: None,
                });
            }
            Front::Whole(len, mut found) => {
                messages.append(&mut found)?;
                place += len;
            }
            Front::Bad(mut found, offset, fault) => {
                messages.append(&mut found)?;
                return Ok(Cutting {
                    messages,
                    len: place,
                    fault: Some((place + offset, fault)),
                });
            }
        }
    }
}
