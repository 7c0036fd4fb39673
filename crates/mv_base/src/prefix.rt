//! Prefixes of addresses.
ghost use Rattle.std.specs.Prelude.{◌≡◌, ◌/◌, ◌%◌, ◌^◌, ◌-◌, ◌≤◌};
ghost use Rattle.std.specs.Option.{SomeIff};
ghost use Rattle.std.specs.Int.{w32, w128, from_be_bytes};
ghost use Rattle.mv_base.specs.Prefix.{IsPrefixOf, covers};

use crate::Addr;

/// The addresses whose first `bits` bits are those of `addr`.
#[derive(Clone, Copy, PartialEq, Eq)]
pub struct Prefix {
    pub addr: Addr,
    pub bits: u8,
}

/// The first `bits` bits of an IPv4 address, as a number.
fn front_v4(octets: [u8; 4], bits: u8) -> u64
    ensures { result ≡ from_be_bytes w32 octets / 2 ^ (32 - bits) }
{
    u64::from(u32::from_be_bytes(octets)) >> 32u8.saturating_sub(bits)
}

/// The bits after the first `bits` bits of an IPv4 address, as a number.
fn host_v4(octets: [u8; 4], bits: u8) -> u64
    ensures { result ≡ from_be_bytes w32 octets % 2 ^ (32 - bits) }
{
    u64::from(u32::from_be_bytes(octets)) % (1u64 << 32u8.saturating_sub(bits))
}

/// The first `bits` bits of an IPv6 address, as a number.
fn front_v6(octets: [u8; 16], bits: u8) -> u128
    ensures { result ≡ from_be_bytes w128 octets / 2 ^ (128 - bits) }
{
    if bits == 0 {
        return 0;
    }
    u128::from_be_bytes(octets) >> 128u8.saturating_sub(bits)
}

/// The bits after the first `bits` bits of an IPv6 address, as a number.
fn host_v6(octets: [u8; 16], bits: u8) -> u128
    ensures { result ≡ from_be_bytes w128 octets % 2 ^ (128 - bits) }
{
    let value = u128::from_be_bytes(octets);
    if bits == 0 {
        return value;
    }
    value % (1u128 << 128u8.saturating_sub(bits))
}

impl Prefix {
    /// The prefix of that many bits, where the address has as many and none is set after them.
    pub fn of(addr: Addr, bits: u8) -> Option<Prefix>
        ensures { SomeIff result (IsPrefixOf addr bits) (record { addr = addr; bits = bits }) }
    {
        let fits = match addr {
            Addr::V4(octets) => bits <= 32 && host_v4(octets, bits) == 0,
            Addr::V6(octets) => bits <= 128 && host_v6(octets, bits) == 0,
        };
        if fits {
            Some(Prefix { addr, bits })
        } else {
            None
        }
    }

    /// Whether the address is of the prefix's family and begins with its bits.
    pub fn covers(&self, addr: Addr) -> bool
        ensures { result ≡ covers self.now addr }
    {
        match (self.addr, addr) {
            (Addr::V4(own), Addr::V4(other)) => {
                front_v4(own, self.bits) == front_v4(other, self.bits)
            }
            (Addr::V6(own), Addr::V6(other)) => {
                front_v6(own, self.bits) == front_v6(other, self.bits)
            }
            _ => false,
        }
    }
}
