//! Addresses as text.
ghost use Rattle.std.specs.Prelude.{◌≡◌, ◌++◌, ◌+◌, ◌≤◌, length, drop, codes, OnOk};
ghost use Rattle.std.specs.Fmt.{decimal};
ghost use Rattle.mv_base.specs.declared.addr.Addr.TheVariants.{V4};
ghost use Rattle.value_text.specs.ValueText.{group_text, groups_text, addr_text};

use itoa::write_digits;
use mv_base::{Addr, Bytes, NoMemory};
use report_text::put_digits;

/// Appends two octets in four hexadecimal digits.
fn put_group(out: &mut Bytes, octets: &[u8], place: usize) -> Result<(), NoMemory>
    requires { place + 2 ≤ length octets.now }
    ensures { OnOk result (out.new ≡ out.old ++ group_text octets.now place) }
{
    put_digits(out, &octets[place..place + 2])
}

/// Appends four groups.
fn put_groups(out: &mut Bytes, octets: &[u8], place: usize) -> Result<(), NoMemory>
    requires { place + 8 ≤ length octets.now }
    ensures { OnOk result (out.new ≡ out.old ++ groups_text octets.now place) }
{
    put_group(out, octets, place)?;
    out.extend(b":")?;
    put_group(out, octets, place + 2)?;
    out.extend(b":")?;
    put_group(out, octets, place + 4)?;
    out.extend(b":")?;
    put_group(out, octets, place + 6)
}

/// Octets of the longest address of IPv4 as text.
const DOTTED: usize = 15;

/// Writes an octet in decimal so that it ends at the place, and a dot before it. Answers where the dot stands.
fn write_after_dot(text: &mut [u8; DOTTED], end: usize, octet: u8) -> usize
    requires { (4 ≤ end) × (end ≤ DOTTED) }
    ensures start { end ≤ result + 4 }
    ensures fits { result ≤ end }
    ensures text { drop result text.new ≡ codes "." ++ decimal octet ++ drop end text.old }
{
    let digits = write_digits(u64::from(octet), text, end);
    let dot = digits - 1;
    text[dot] = b'.';
    dot
}

/// Appends an address of IPv4: four decimal numbers with dots between them.
fn put_dotted(out: &mut Bytes, octets: &[u8; 4]) -> Result<(), NoMemory>
    ensures { OnOk result (out.new ≡ out.old ++ addr_text (V4 octets.now)) }
{
    let mut text = [0; DOTTED];
    let last = write_after_dot(&mut text, DOTTED, octets[3]);
    let third = write_after_dot(&mut text, last, octets[2]);
    let second = write_after_dot(&mut text, third, octets[1]);
    let first = write_digits(u64::from(octets[0]), &mut text, second);
    out.extend(&text[first..])
}

/// Appends an address: dotted for IPv4, and eight groups of four digits for IPv6.
pub fn put_addr(out: &mut Bytes, addr: &Addr) -> Result<(), NoMemory>
    ensures { OnOk result (out.new ≡ out.old ++ addr_text addr.now) }
{
    match addr {
        Addr::V4(octets) => put_dotted(out, octets),
        Addr::V6(octets) => {
            put_groups(out, octets, 0)?;
            out.extend(b":")?;
            put_groups(out, octets, 8)
        }
    }
}
