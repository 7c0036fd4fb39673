//! FEC elements, and their lines.
ghost use Rattle.std.specs.Prelude.{◌≡◌, ◌++◌, ◌+◌, ◌<◌, ◌^◌, OnOk};
ghost use Rattle.value_text.specs.ValueText.{kind_text, fec_text, fec_line, fec_word, refused_line};

use crate::addr_text::put_addr;
use crate::refused::put_refused;
use mldp::mldp_fec::{Fec, FecFault, FecKind, FecReason};
use mv_base::{Bytes, NoMemory};
use report_text::put_hex;

fn kind_word(kind: FecKind) -> &'static [u8]
    ensures { result.now ≡ kind_text kind }
{
    match kind {
        FecKind::P2mp => b"p2mp",
        FecKind::Up => b"up",
        FecKind::Down => b"down",
    }
}

/// The word of a fault of a FEC element.
pub fn fec_word(reason: FecReason) -> &'static [u8]
    ensures { result.now ≡ fec_word reason }
{
    match reason {
        FecReason::Short => b"short",
        FecReason::Kind => b"kind",
        FecReason::Family => b"family",
        FecReason::AddressLength => b"address-length",
        FecReason::OpaqueShape => b"opaque-shape",
        FecReason::OpaqueTooLong => b"opaque-too-long",
    }
}

/// Appends a FEC element.
pub fn put_fec(out: &mut Bytes, fec: &Fec) -> Result<(), NoMemory>
    ensures { OnOk result (out.new ≡ out.old ++ fec_text fec.now) }
{
    out.extend(kind_word(fec.kind))?;
    out.extend(b" ")?;
    put_addr(out, &fec.root)?;
    out.extend(b" ")?;
    put_hex(out, fec.opaque.octets())
}

/// Appends the line of a FEC element.
pub fn put_fec_line(out: &mut Bytes, fec: &Fec) -> Result<(), NoMemory>
    ensures { OnOk result (out.new ≡ out.old ++ fec_line fec.now) }
{
    put_fec(out, fec)?;
    out.extend(b"\n")
}

/// Appends the line of a fault of a FEC element that was met after so many octets.
pub fn put_fec_fault(out: &mut Bytes, thereafter: usize, fault: &FecFault) -> Result<(), NoMemory>
    requires { thereafter < 2 ^ 63 }
    ensures { OnOk result (out.new ≡ out.old ++ refused_line (thereafter + fault.now.place) (fec_word fault.now.reason)) }
{
    put_refused(
        out,
        thereafter + fault.place as usize,
        fec_word(fault.reason),
    )
}
