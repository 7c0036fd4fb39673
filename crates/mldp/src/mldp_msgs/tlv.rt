//! The TLVs of a label message.
ghost use Rattle.std.specs.Prelude.{◌≡◌, ◌+◌, ◌<◌, ◌≤◌, length, IfOk, IfErr};
ghost use Rattle.mv_base.specs.framing.Parts.{parts_of};
ghost use Rattle.mldp.specs.mldp_msgs.Reading.{misfit, found_with, kind_of, is_unlike, element_of};
ghost use Rattle.mldp.specs.mldp_msgs.Reading.{first_element, label_at, value_of, tlv_at, next_tlv, found_in};

use crate::mldp_fec::{Fec, decode};
use crate::mldp_msgs::fault::LdpFault;

/// The type of the FEC TLV (RFC 5036 section 3.4.1).
pub(crate) const FEC: u16 = 0x0100;

/// The type of the Generic Label TLV (RFC 5036 section 3.4.2.1).
pub(crate) const GENERIC_LABEL: u16 = 0x0200;

/// The type of the Hop Count TLV (RFC 5036 section 3.4.4).
const HOP_COUNT: u16 = 0x0103;

/// The type of the Path Vector TLV (RFC 5036 section 3.4.5).
const PATH_VECTOR: u16 = 0x0104;

/// The type of the Status TLV (RFC 5036 section 3.4.6).
const STATUS: u16 = 0x0300;

/// The type of the Label Request Message ID TLV (RFC 5036 section 3.5.7).
const LABEL_REQUEST: u16 = 0x0600;

/// The bits of a type, below the U and F bits (RFC 5036 section 3.3).
const TYPE_BITS: u16 = 0x3fff;

/// The bits of a label (RFC 3032 section 2.1).
const LABEL_BITS: u32 = 0xf_ffff;

/// The first label that is not reserved (RFC 3032 section 2.1).
const FIRST_LABEL: u32 = 16;

/// What a TLV says.
#[derive(Clone, Copy, PartialEq, Eq)]
pub(crate) enum Tlv {
    Fec(Fec),
    Label(u32),
    Passed,
}

/// How the value of a TLV is read.
#[derive(Clone, Copy, PartialEq, Eq)]
pub(crate) enum TlvKind {
    Fec,
    Label,
    Passed,
}

/// Why no further TLV of a message is read.
#[derive(Clone, Copy, PartialEq, Eq)]
pub(crate) enum Stop {
    /// The FEC element is of no multipoint LSP.
    Unlike,
    /// The octets have a fault.
    Fault(LdpFault),
}

/// What the TLVs of a message said.
#[derive(Clone, Copy, PartialEq, Eq)]
pub(crate) struct Found {
    pub(crate) fec: Option<Fec>,
    pub(crate) label: Option<u32>,
}

impl Found {
    fn with(self, tlv: Tlv) -> Found
        ensures { result ≡ found_with self tlv }
    {
        match tlv {
            Tlv::Fec(fec) => Found {
                fec: Some(fec),
                label: self.label,
            },
            Tlv::Label(label) => Found {
                fec: self.fec,
                label: Some(label),
            },
            Tlv::Passed => self,
        }
    }
}

/// A fault at this place, counted from the TLV's first octet.
fn misfit(place: usize, fault: LdpFault) -> (usize, Stop)
    ensures { result ≡ misfit place fault }
{
    (place, Stop::Fault(fault))
}

/// How a TLV is read whose first two octets are this number, unless its type is unknown and its U bit is clear.
#[tactic(auto, unfolding(crate::specs::mldp_msgs::Reading::kind_of))]
fn kind_of(number: u16) -> Option<TlvKind>
    ensures { result ≡ kind_of number }
{
    let kind = number & TYPE_BITS;
    match kind {
        FEC => Some(TlvKind::Fec),
        GENERIC_LABEL => Some(TlvKind::Label),
        HOP_COUNT | PATH_VECTOR | STATUS | LABEL_REQUEST => Some(TlvKind::Passed),
        _ => {
            let u_bit = number >> 15;
            if u_bit == 1 {
                Some(TlvKind::Passed)
            } else {
                None
            }
        }
    }
}

/// Whether the first octet of a FEC element is of no kind of multipoint element.
fn is_unlike(value: &[u8]) -> bool
    ensures { result ≡ is_unlike value.now }
{
    match value {
        [] => false,
        [octet, ..] => *octet < 6 || 8 < *octet,
    }
}

#[tactic(auto, unfolding(crate::specs::mldp_msgs::Reading::element_of))]
fn read_element(value: &[u8]) -> Result<Tlv, (usize, Stop)>
    ensures value { result ≡ element_of value.now }
    ensures within { IfErr result (λ f. f.0 ≤ 4 + length value.now) }
{
    match decode(value) {
        Ok((fec, len)) => {
            if len != value.len() {
                return Err(misfit(0, LdpFault::TlvLength));
            }
            Ok(Tlv::Fec(fec))
        }
        Err(fault) => Err(misfit(4 + fault.place as usize, LdpFault::Fec(fault.reason))),
    }
}

fn read_first_element(known: bool, value: &[u8]) -> Result<Tlv, (usize, Stop)>
    ensures value { result ≡ first_element known value.now }
    ensures within { IfErr result (λ f. f.0 ≤ 4 + length value.now) }
{
    if known {
        return Err(misfit(0, LdpFault::TlvLength));
    }
    if is_unlike(value) {
        return Err((0, Stop::Unlike));
    }
    read_element(value)
}

#[tactic(auto, unfolding(crate::specs::mldp_msgs::Reading::label_at))]
fn read_label(known: bool, value: &[u8]) -> Result<Tlv, (usize, Stop)>
    ensures value { result ≡ label_at known value.now }
    ensures within { IfErr result (λ f. f.0 ≤ 4 + length value.now) }
{
    if known || value.len() != 4 {
        return Err(misfit(0, LdpFault::TlvLength));
    }
    let label = u32::from_be_bytes([value[0], value[1], value[2], value[3]]) & LABEL_BITS;
    if label < FIRST_LABEL {
        return Err(misfit(4, LdpFault::Label));
    }
    Ok(Tlv::Label(label))
}

#[tactic(auto, unfolding(crate::specs::mldp_msgs::Reading::value_of))]
fn read_value(found: &Found, kind: TlvKind, value: &[u8]) -> Result<Tlv, (usize, Stop)>
    ensures value { result ≡ value_of found.now kind value.now }
    ensures within { IfErr result (λ f. f.0 ≤ 4 + length value.now) }
{
    match kind {
        TlvKind::Fec => read_first_element(found.fec.is_some(), value),
        TlvKind::Label => read_label(found.label.is_some(), value),
        TlvKind::Passed => Ok(Tlv::Passed),
    }
}

/// The TLV at the front, and how many octets it has; `found` is what those before it said. Places count from its first
/// octet.
#[tactic(auto, unfolding(crate::specs::mldp_msgs::Reading::tlv_at))]
fn read_tlv(found: &Found, octets: &[u8]) -> Result<(Tlv, usize), (usize, Stop)>
    ensures value { result ≡ tlv_at found.now octets.now }
    ensures size { IfOk result (λ x. (0 < x.1) × (x.1 ≤ length octets.now)) }
    ensures within { IfErr result (λ f. f.0 ≤ length octets.now) }
{
    if octets.len() < 2 {
        return Err(misfit(0, LdpFault::TlvLength));
    }
    let Some(kind) = kind_of(u16::from_be_bytes([octets[0], octets[1]])) else {
        return Err(misfit(0, LdpFault::UnknownTlv));
    };
    if octets.len() < 4 {
        return Err(misfit(0, LdpFault::TlvLength));
    }
    let len = u16::from_be_bytes([octets[2], octets[3]]) as usize;
    if octets.len() < 4 + len {
        return Err(misfit(0, LdpFault::TlvLength));
    }
    let tlv = read_value(found, kind, &octets[4..4 + len])?;
    Ok((tlv, 4 + len))
}

/// What the TLVs of a message say, up to the first stop, whose place is counted from the first octet.
pub(crate) fn read_tlvs(octets: &[u8]) -> Result<Found, (usize, Stop)>
    ensures value { result ≡ found_in (parts_of next_tlv octets.now) }
    ensures within { IfErr result (λ f. f.0 ≤ length octets.now) }
{
    let mut found = Found {
        fec: None,
        label: None,
    };
    let mut place = 0;
    'tlvs: while place < octets.len() {
        match read_tlv(&found, &octets[place..]) {
            Ok((tlv, len)) => {
                found = found.with(tlv);
                place += len;
            }
            Err((offset, stop)) => return Err((place + offset, stop)),
        }
    }
    Ok(found)
}
