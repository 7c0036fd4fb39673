//! The values of path attributes.
ghost use Rattle.std.specs.Prelude.{◌≡◌, ◌+◌, ◌<◌, ◌^◌, ◌⊎◌, drop, length, map, IfOk};
ghost use Rattle.bgp_messages.specs.bgp_attributes.Answers.{Gives, IsWithin};
ghost use Rattle.bgp_messages.specs.bgp_attributes.Reading.{addr_of, is_mapped, unmapped, hop_addr, hop_at, reachable_at};
ghost use Rattle.bgp_messages.specs.bgp_attributes.Reading.{reach_at, unreach_at, comms_at, tunnel_at, value_at, comm};

use crate::bgp_attributes::attribute::{Attribute, Reachable};
use crate::bgp_attributes::family::{Family, before_addr, family_of, is_hop_len};
use crate::bgp_attributes::fault::{AttributesFault, StreamFault, misfit};
use crate::bgp_attributes::nlri::read_keys;
use crate::bgp_attributes::update::Comms;
use bgp_values::mvpn_nlri::Afi;
use mv_base::route_targets::ExtComm;
use mv_base::{Addr, NoMemory};
use std::alloc::Global;

/// The type of MP_REACH_NLRI (RFC 4760 section 3).
pub(crate) const MP_REACH_NLRI: u8 = 14;

/// The type of MP_UNREACH_NLRI (RFC 4760 section 4).
pub(crate) const MP_UNREACH_NLRI: u8 = 15;

/// The type of extended communities (RFC 4360 section 2).
pub(crate) const EXTENDED_COMMUNITIES: u8 = 16;

/// The type of PMSI Tunnel (RFC 6514 section 5).
pub(crate) const PMSI_TUNNEL: u8 = 22;

fn addr_of(octets: &[u8]) -> Addr
    requires { (length octets.now ≡ 4) ⊎ (length octets.now ≡ 16) }
    ensures { result ≡ addr_of octets.now }
{
    match octets.as_array::<4>() {
        Some(address) => Addr::V4(*address),
        None => {
            let mut address = [0; 16];
            address.copy_from_slice(octets);
            Addr::V6(address)
        }
    }
}

/// What stands in front of an IPv4 address in its IPv4-mapped IPv6 address (RFC 4291 section 2.5.5.2).
const MAPPED_FRONT: [u8; 12] = [0, 0, 0, 0, 0, 0, 0, 0, 0, 0, 0xff, 0xff];

/// Whether the address is IPv4-mapped.
fn is_mapped(octets: &[u8; 16]) -> bool
    ensures { result ≡ is_mapped octets.now }
{
    let (front, _after) = octets.split_at(12);
    front == MAPPED_FRONT.as_slice()
}

/// The octets after the front of an IPv4-mapped address.
fn last_four(octets: &[u8; 16]) -> [u8; 4]
    ensures { result ≡ drop 12 octets.now }
{
    let (_front, thereafter) = octets.split_at(12);
    let mut array = [0; 4];
    array.copy_from_slice(thereafter);
    array
}

/// The address, and of an IPv4-mapped one its IPv4 address.
fn unmapped(addr: Addr) -> Addr
    ensures { result ≡ unmapped addr }
{
    match addr {
        Addr::V4(_) => addr,
        Addr::V6(octets) => {
            if is_mapped(&octets) {
                Addr::V4(last_four(&octets))
            } else {
                addr
            }
        }
    }
}

/// The address of a next hop. In one of VPN-IPv6 an IPv4 address stands as it is or mapped (RFC 4659 section 3.2.1.2).
fn hop_addr(family: Family, octets: &[u8]) -> Addr
    requires { (length octets.now ≡ 4) ⊎ (length octets.now ≡ 16) }
    ensures { result ≡ hop_addr family octets.now }
{
    match family {
        Family::Mcast(_) => addr_of(octets),
        Family::Vpn(Afi::Ipv4) => addr_of(octets),
        Family::Vpn(Afi::Ipv6) => unmapped(addr_of(octets)),
    }
}

/// Next hop, reserved octet and NLRI, after the length of the next hop, which stands at the place.
#[tactic(auto, unfolding(crate::specs::bgp_attributes::Reading::hop_at))]
fn read_hop(
    alloc: Global,
    family: Family,
    place: usize,
    len: usize,
    rest: &[u8],
) -> Result<Reachable, AttributesFault>
    requires room { place + 1 + length rest.now < 2 ^ 64 }
    requires octet { len < 256 }
    ensures value { Gives result (hop_at family place len rest.now) }
    ensures within { IsWithin result (place + 1 + length rest.now) }
{
    if !is_hop_len(family, len) {
        return Err(AttributesFault::Bad {
            place,
            fault: StreamFault::NextHop,
        });
    }
    if rest.len() < len + 1 {
        return Err(misfit());
    }
    let next_hop = hop_addr(family, &rest[before_addr(family)..len]);
    let keys = read_keys(alloc, family, place + len + 2, &rest[len + 1..])?;
    Ok(Reachable { next_hop, keys })
}

/// What stands after AFI and SAFI in an MP_REACH_NLRI attribute, at the place.
#[tactic(auto, unfolding(crate::specs::bgp_attributes::Reading::reachable_at))]
fn read_reachable(
    alloc: Global,
    family: Family,
    place: usize,
    octets: &[u8],
) -> Result<Reachable, AttributesFault>
    requires { place + length octets.now < 2 ^ 64 }
    ensures value { Gives result (reachable_at family place octets.now) }
    ensures within { IsWithin result (place + length octets.now) }
{
    match octets {
        [] => Err(misfit()),
        [len, rest @ ..] => read_hop(alloc, family, place, usize::from(*len), rest),
    }
}

#[tactic(auto, unfolding(crate::specs::bgp_attributes::Reading::reach_at))]
fn read_reach(alloc: Global, place: usize, value: &[u8]) -> Result<Attribute, AttributesFault>
    requires { place + length value.now < 2 ^ 64 }
    ensures value { Gives result (reach_at place value.now) }
    ensures within { IsWithin result (place + length value.now) }
{
    let [high, low, safi, rest @ ..] = value else {
        return Err(misfit());
    };
    match family_of(u16::from_be_bytes([*high, *low]), *safi) {
        None => Ok(Attribute::Reach(None)),
        Some(family) => {
            let reachable = read_reachable(alloc, family, place + 3, rest)?;
            Ok(Attribute::Reach(Some(reachable)))
        }
    }
}

#[tactic(auto, unfolding(crate::specs::bgp_attributes::Reading::unreach_at))]
fn read_unreach(alloc: Global, place: usize, value: &[u8]) -> Result<Attribute, AttributesFault>
    requires { place + length value.now < 2 ^ 64 }
    ensures value { Gives result (unreach_at place value.now) }
    ensures within { IsWithin result (place + length value.now) }
{
    let [high, low, safi, rest @ ..] = value else {
        return Err(misfit());
    };
    match family_of(u16::from_be_bytes([*high, *low]), *safi) {
        None => Ok(Attribute::Unreach(None)),
        Some(family) => {
            let keys = read_keys(alloc, family, place + 3, rest)?;
            Ok(Attribute::Unreach(Some(keys)))
        }
    }
}

fn comms_of(alloc: Global, chunks: &[[u8; 8]]) -> Result<Comms, NoMemory>
    ensures { IfOk result (λ comms. comms ≡ map comm chunks.now) }
{
    let mut comms = Comms::with_room(alloc, chunks.len())?;
    for octets in chunks {
        comms.push(ExtComm(*octets))?;
    }
    Ok(comms)
}

#[tactic(auto, unfolding(crate::specs::bgp_attributes::Reading::comms_at))]
fn read_comms(alloc: Global, value: &[u8]) -> Result<Attribute, AttributesFault>
    ensures value { Gives result (comms_at value.now) }
    ensures within { IsWithin result 0 }
{
    let (chunks, rest) = value.as_chunks::<8>();
    if !rest.is_empty() {
        return Err(misfit());
    }
    let comms = comms_of(alloc, chunks)?;
    Ok(Attribute::Communities(comms))
}

#[tactic(auto, unfolding(crate::specs::bgp_attributes::Reading::tunnel_at))]
fn read_tunnel(place: usize, value: &[u8]) -> Result<Attribute, AttributesFault>
    requires { place + length value.now < 2 ^ 64 }
    ensures value { Gives result (tunnel_at place value.now) }
    ensures within { IsWithin result (place + length value.now) }
{
    match bgp_values::pmsi_attr::decode(value) {
        Ok(pmsi) => Ok(Attribute::Tunnel(pmsi)),
        Err(bad) => Err(AttributesFault::Bad {
            place: place + bad.place as usize,
            fault: StreamFault::Pmsi(bad.reason),
        }),
    }
}

/// The attribute of that type that has this value. The value stands at the place, counted from the attribute's first
/// octet, as faults are.
#[tactic(auto, unfolding(crate::specs::bgp_attributes::Reading::value_at))]
pub(crate) fn read_value(
    alloc: Global,
    kind: u8,
    place: usize,
    value: &[u8],
) -> Result<Attribute, AttributesFault>
    requires { place + length value.now < 2 ^ 64 }
    ensures value { Gives result (value_at kind place value.now) }
    ensures within { IsWithin result (place + length value.now) }
{
    match kind {
        MP_REACH_NLRI => read_reach(alloc, place, value),
        MP_UNREACH_NLRI => read_unreach(alloc, place, value),
        EXTENDED_COMMUNITIES => read_comms(alloc, value),
        PMSI_TUNNEL => read_tunnel(place, value),
        _ => Ok(Attribute::Passed(kind)),
    }
}
