//! The messages of a stream.
ghost use Rattle.std.specs.Prelude.{length, IfOk};
ghost use Rattle.mv_base.specs.Octets.{IsOctets};
ghost use Rattle.mv_base.specs.framing.Cut.{cut, IsCutting};
ghost use Rattle.bgp_messages.specs.bgp_update.Reading.{message_front};

use crate::bgp_attributes::{Message, StreamFault};
use crate::bgp_update::front::{Front, message_at};
use mv_base::NoMemory;
use mv_base::framing::Cutting;
use std::alloc::Global;

/// Cuts octets into messages.
pub(crate) fn cut_messages(
    alloc: Global,
    octets: &[u8],
) -> Result<Cutting<Message, StreamFault>, NoMemory>
    ensures exact { IfOk result (λ c. IsCutting octets.now (cut message_front octets.now) c.messages.items c.len c.fault) }
    ensures octets { IsOctets octets.now }
{
    let mut messages = Vec::new(alloc);
    let mut place = 0;
    'messages: loop {
        match message_at(alloc, &octets[place..])? {
            Front::More => {
                return Ok(Cutting {
                    messages,
                    len: place,
                    fault: None,
                });
            }
            Front::Whole(len, message) => {
                messages.push(message)?;
                place += len;
            }
            Front::Bad(offset, fault) => {
                return Ok(Cutting {
                    messages,
                    len: place,
                    fault: Some((place + offset, fault)),
                });
            }
        }
    }
}
