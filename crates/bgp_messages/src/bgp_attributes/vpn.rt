//! VPN-IPv4 and VPN-IPv6 unicast routes (RFC 4364 section 4.3.4; RFC 4659 section 2).
ghost use Rattle.std.specs.Prelude.{◌≡◌, ◌≤◌, ◌*◌, length};
ghost use Rattle.bgp_messages.specs.bgp_attributes.Spelling.{addr_bits, octets_for, cleared, padded, address};
ghost use Rattle.bgp_messages.specs.bgp_attributes.Reading.{vpn_at};

use crate::bgp_attributes::key::Key;
use bgp_values::mvpn_nlri::Afi;
use mv_base::{Addr, Prefix, Rd};

/// The bits of the label field and the Route Distinguisher, which the length of a route counts.
const FRONT_BITS: u8 = 88;

fn addr_bits(afi: Afi) -> u8
    ensures { result ≡ addr_bits afi }
{
    match afi {
        Afi::Ipv4 => 32,
        Afi::Ipv6 => 128,
    }
}

/// How many octets have that many bits.
fn octets_for(bits: u8) -> usize
    ensures { result ≡ octets_for bits }
{
    (usize::from(bits) + 7) / 8
}

/// The number with zeros after its first bits.
fn cleared_v4(bits: u8, number: u32) -> u32
    requires { bits ≤ 32 }
    ensures { result ≡ cleared 32 bits number }
{
    let unit = 1u64 << (32 - bits);
    (u64::from(number) / unit * unit) as u32
}

/// The number with zeros after its first bits.
fn cleared_v6(bits: u8, number: u128) -> u128
    requires { bits ≤ 128 }
    ensures { result ≡ cleared 128 bits number }
{
    if bits == 0 {
        return 0;
    }
    let unit = 1u128 << (128 - bits);
    number / unit * unit
}

/// The octets, and zeros after them.
fn padded<const N: usize>(octets: &[u8]) -> [u8; N]
    requires { length octets.now ≤ N }
    ensures { result ≡ padded N octets.now }
{
    let mut array = [0; N];
    let (front, _spare) = array.split_at_mut(octets.len());
    front.copy_from_slice(octets);
    array
}

/// The address that begins with those bits of the octets, and zeros after them.
#[tactic(auto, unfolding(crate::specs::bgp_attributes::Spelling::address))]
fn address(afi: Afi, bits: u8, octets: &[u8]) -> Addr
    requires bits { bits ≤ addr_bits afi }
    requires few { 8 * length octets.now ≤ addr_bits afi }
    ensures { result ≡ address afi bits octets.now }
{
    match afi {
        Afi::Ipv4 => {
            let number = u32::from_be_bytes(padded(octets));
            Addr::V4(cleared_v4(bits, number).to_be_bytes())
        }
        Afi::Ipv6 => {
            let number = u128::from_be_bytes(padded(octets));
            Addr::V6(cleared_v6(bits, number).to_be_bytes())
        }
    }
}

fn rd_of(octets: &[u8]) -> Rd
    requires { length octets.now ≡ 8 }
    ensures { result ≡ record { 0 = octets.now } }
{
    let mut rd = [0; 8];
    rd.copy_from_slice(octets);
    Rd(rd)
}

/// The route at the front of the octets, and how many of them it has. Its label is passed over.
#[tactic(auto, unfolding(crate::specs::bgp_attributes::Reading::vpn_at))]
pub(crate) fn read_vpn(afi: Afi, octets: &[u8]) -> Option<(Key, usize)>
    ensures { result ≡ vpn_at afi octets.now }
{
    let [len, rest @ ..] = octets else {
        return None;
    };
    let size = octets_for(*len);
    if *len < FRONT_BITS || FRONT_BITS + addr_bits(afi) < *len || rest.len() < size {
        return None;
    }
    let bits = *len - FRONT_BITS;
    let prefix = Prefix {
        addr: address(afi, bits, &rest[11..size]),
        bits,
    };
    let rd = rd_of(&rest[3..11]);
    Some((Key::Unicast { rd, prefix }, 1 + size))
}
