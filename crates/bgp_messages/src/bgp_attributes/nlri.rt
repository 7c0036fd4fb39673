//! NLRI: keys end to end (RFC 4760 section 5).
ghost use Rattle.std.specs.Prelude.{◌≡◌, ◌+◌, ◌<◌, ◌≤◌, ◌^◌, length, IfOk, IfErr};
ghost use Rattle.bgp_messages.specs.bgp_attributes.Answers.{Gives, IsWithin};
ghost use Rattle.bgp_messages.specs.bgp_attributes.Reading.{mcast_at, key_at, keys_at};

use crate::bgp_attributes::family::Family;
use crate::bgp_attributes::fault::{AttributesFault, StreamFault};
use crate::bgp_attributes::key::{Key, Keys};
use crate::bgp_attributes::vpn::read_vpn;
use bgp_values::mvpn_nlri::Afi;
use std::alloc::Global;

/// Why no key stands at the front of octets, and at which offset.
#[derive(Clone, Copy)]
struct BadKey {
    offset: usize,
    fault: StreamFault,
}

fn read_mcast(afi: Afi, octets: &[u8]) -> Result<(Key, usize), BadKey>
    ensures { result ≡ mcast_at afi octets.now }
{
    match bgp_values::mvpn_nlri::decode(afi, octets) {
        Ok((route, len)) => Ok((Key::Mcast(afi, route), len)),
        Err(bad) => Err(BadKey {
            offset: bad.place as usize,
            fault: StreamFault::Route(bad.reason),
        }),
    }
}

/// The key at the front of the octets, and how many of them it has.
fn read_key(family: Family, octets: &[u8]) -> Result<(Key, usize), BadKey>
    ensures value { result ≡ key_at family octets.now }
    ensures len { IfOk result (λ x. (0 < x.1) × (x.1 ≤ length octets.now)) }
    ensures offset { IfErr result (λ bad. bad.offset ≤ length octets.now) }
{
    match family {
        Family::Mcast(afi) => read_mcast(afi, octets),
        Family::Vpn(afi) => match read_vpn(afi, octets) {
            Some(front) => Ok(front),
            None => Err(BadKey {
                offset: 0,
                fault: StreamFault::Prefix,
            }),
        },
    }
}

/// The keys that the octets are, of which the first stands at the place.
pub(crate) fn read_keys(
    alloc: Global,
    family: Family,
    place: usize,
    octets: &[u8],
) -> Result<Keys, AttributesFault>
    requires { place + length octets.now < 2 ^ 64 }
    ensures value { Gives result (keys_at family place octets.now) }
    ensures within { IsWithin result (place + length octets.now) }
{
    // Most messages have one route, and room for more of them would be too large for the lists that the allocator keeps at hand.
    let mut keys = Keys::with_room(alloc, 1)?;
    let mut passed = 0;
    'keys: while passed < octets.len() {
        match read_key(family, &octets[passed..]) {
            Ok((key, len)) => {
                keys.push(key)?;
                passed += len;
            }
            Err(bad) => {
                return Err(AttributesFault::Bad {
                    place: place + passed + bad.offset,
                    fault: bad.fault,
                });
            }
        }
    }
    Ok(keys)
}
