//! PMSI Tunnel attributes, and their lines.
ghost use Rattle.std.specs.Prelude.{◌≡◌, ◌++◌, OnOk};
ghost use Rattle.value_text.specs.ValueText.{flag_text, label_text, tunnel_text, pmsi_line, pmsi_word, refused_line};

use crate::addr_text::put_addr;
use crate::fec_lines::{fec_word, put_fec};
use crate::refused::put_refused;
use bgp_values::pmsi_attr::{Pmsi, PmsiFault, PmsiReason, Tunnel};
use mv_base::{Bytes, NoMemory};
use report_text::{put_hex, put_number};

fn flag_word(flag: bool) -> &'static [u8]
    ensures { result.now ≡ flag_text flag }
{
    if flag { b"1" } else { b"0" }
}

fn put_label(out: &mut Bytes, label: Option<u32>) -> Result<(), NoMemory>
    ensures { OnOk result (out.new ≡ out.old ++ label_text label) }
{
    match label {
        None => out.extend(b"-"),
        Some(label) => put_number(out, u64::from(label)),
    }
}

fn put_tunnel(out: &mut Bytes, tunnel: &Tunnel) -> Result<(), NoMemory>
    ensures { OnOk result (out.new ≡ out.old ++ tunnel_text tunnel.now) }
{
    match tunnel {
        Tunnel::None => out.extend(b"-"),
        Tunnel::Mldp(fec) => put_fec(out, fec),
        Tunnel::Ingress(addr) => put_addr(out, addr),
        Tunnel::Other(_, ident) => put_hex(out, ident.octets()),
    }
}

/// Appends the line of a tunnel attribute.
pub fn put_pmsi_line(out: &mut Bytes, pmsi: &Pmsi) -> Result<(), NoMemory>
    ensures { OnOk result (out.new ≡ out.old ++ pmsi_line pmsi.now) }
{
    out.extend(b"pmsi ")?;
    out.extend(flag_word(pmsi.leaf_info))?;
    out.extend(b" ")?;
    put_number(out, u64::from(pmsi.tunnel.kind()))?;
    out.extend(b" ")?;
    put_label(out, pmsi.label)?;
    out.extend(b" ")?;
    put_tunnel(out, &pmsi.tunnel)?;
    out.extend(b"\n")
}

/// Appends the word of a fault of a tunnel attribute.
pub fn put_pmsi_word(out: &mut Bytes, reason: PmsiReason) -> Result<(), NoMemory>
    ensures { OnOk result (out.new ≡ out.old ++ pmsi_word reason) }
{
    match reason {
        PmsiReason::Short => out.extend(b"short"),
        PmsiReason::TunnelType => out.extend(b"tunnel-type"),
        PmsiReason::Identifier => out.extend(b"identifier"),
        PmsiReason::Fec(reason) => {
            out.extend(b"fec.")?;
            out.extend(fec_word(reason))
        }
    }
}

/// Appends the line of a fault of a tunnel attribute.
pub fn put_pmsi_fault(out: &mut Bytes, fault: &PmsiFault) -> Result<(), NoMemory>
    ensures { OnOk result (out.new ≡ out.old ++ refused_line fault.now.place (pmsi_word fault.now.reason)) }
{
    let mut word = Bytes::new(out.alloc());
    put_pmsi_word(&mut word, fault.reason)?;
    put_refused(out, fault.place as usize, word.as_slice())
}
