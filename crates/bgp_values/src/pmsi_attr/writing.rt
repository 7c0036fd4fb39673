//! Writing a PMSI Tunnel attribute.
ghost use Rattle.std.specs.Prelude.{◌≡◌, ◌≤◌, ◌*◌, length};
ghost use Rattle.mv_base.specs.Writing.{put_at};
ghost use Rattle.bgp_values.specs.pmsi_attr.Spelling.{Spells, IsTunnel, IsLabel, written, written_header, identifier, label_bits};

use crate::pmsi_attr::fault::PmsiFault;
use crate::pmsi_attr::pmsi::{Pmsi, Tunnel};
use crate::pmsi_attr::reading::{LEAF_INFO, decode};
use mv_base::put;

/// The label in the high 20 bits of a number of 24 bits.
fn number_of(label: Option<u32>) -> u32
    requires { IsLabel label }
    ensures { result ≡ 16 * label_bits label }
{
    match label {
        Some(label) => label << 4,
        None => 0,
    }
}

/// Flags, tunnel type and label.
fn header_of(pmsi: &Pmsi) -> [u8; 5]
    requires { IsLabel pmsi.now.label }
    ensures { result ≡ written_header pmsi.now }
{
    let [_, high, middle, low] = number_of(pmsi.label).to_be_bytes();
    let flags = if pmsi.leaf_info { LEAF_INFO } else { 0 };
    [flags, pmsi.tunnel.kind(), high, middle, low]
}

/// Writes the tunnel identifier to the front, and answers how many octets it has.
fn put_identifier(out: &mut [u8], tunnel: &Tunnel) -> usize
    requires tunnel { IsTunnel tunnel.now }
    requires room { 96 ≤ length out.old }
    ensures len { result ≡ length (identifier tunnel.now) }
    ensures octets { out.new ≡ put_at out.old 0 (identifier tunnel.now) }
{
    match tunnel {
        Tunnel::None => put(out, 0, &[]),
        Tunnel::Mldp(element) => mldp::mldp_fec::encode(element, out),
        Tunnel::Ingress(addr) => put(out, 0, addr.octets()),
        Tunnel::Other(_, ident) => put(out, 0, ident.octets()),
    }
}

/// Writes the value to the front, and answers how many octets it has, at most 101. The others stay.
pub fn encode(pmsi: &Pmsi, out: &mut [u8]) -> usize
    requires spelled { Spells pmsi.now (written pmsi.now) }
    requires room { 101 ≤ length out.old }
    ensures len { result ≡ length (written pmsi.now) }
    ensures octets { out.new ≡ put_at out.old 0 (written pmsi.now) }
{
    let (header, rest) = out.split_at_mut(5);
    header.copy_from_slice(&header_of(pmsi));
    5 + put_identifier(rest, &pmsi.tunnel)
}

/// What was written is read again.
pub fn round_trip(pmsi: &Pmsi, out: &mut [u8]) -> Result<Pmsi, PmsiFault>
    requires spelled { Spells pmsi.now (written pmsi.now) }
    requires room { 101 ≤ length out.old }
    ensures { result ≡ Ok pmsi.now }
{
    let len = encode(pmsi, out);
    decode(&out[..len])
}
