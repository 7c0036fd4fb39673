//! Reading a PMSI Tunnel attribute.
ghost use Rattle.std.specs.Prelude.{◌≡◌, ◌≤◌, List, ℕ, length, IfOk, IfErr};
ghost use Rattle.bgp_values.specs.pmsi_attr.Reading.{misfit, none_of, mldp_of, ingress_of, other_of, tunnel_of, label_of, label_after, pmsi_of};
ghost use Rattle.bgp_values.specs.pmsi_attr.Spelling.{Spells, written};
ghost use Rattle.bgp_values.specs.pmsi_attr.FirstFault.{FirstFault};

use crate::pmsi_attr::fault::{PmsiFault, PmsiReason};
use crate::pmsi_attr::pmsi::{Ident, Pmsi, Tunnel};
use mldp::mldp_fec::FecKind;
use mv_base::Addr;

/// The place of the tunnel identifier.
const IDENTIFIER: u32 = 5;

/// The flag of leaf information.
pub(crate) const LEAF_INFO: u8 = 0x01;

fn short(place: u32) -> PmsiFault
    ensures { result ≡ record { place = place; reason = PmsiReason.Short } }
{
    PmsiFault {
        place,
        reason: PmsiReason::Short,
    }
}

fn misfit() -> PmsiFault
    ensures { result ≡ misfit }
{
    PmsiFault {
        place: IDENTIFIER,
        reason: PmsiReason::Identifier,
    }
}

fn read_none(octets: &[u8]) -> Result<Tunnel, PmsiFault>
    ensures { result ≡ none_of octets.now }
{
    if !octets.is_empty() {
        return Err(misfit());
    }
    Ok(Tunnel::None)
}

#[tactic(auto, unfolding(crate::specs::pmsi_attr::Reading::mldp_of))]
fn read_mldp(octets: &[u8]) -> Result<Tunnel, PmsiFault>
    ensures { result ≡ mldp_of octets.now }
{
    match mldp::mldp_fec::decode(octets) {
        Ok((element, len)) => {
            if element.kind != FecKind::P2mp || len != octets.len() {
                return Err(misfit());
            }
            Ok(Tunnel::Mldp(element))
        }
        Err(fault) => Err(PmsiFault {
            place: IDENTIFIER + fault.place,
            reason: PmsiReason::Fec(fault.reason),
        }),
    }
}

fn read_ingress(octets: &[u8]) -> Result<Tunnel, PmsiFault>
    ensures { result ≡ ingress_of octets.now }
{
    if let Some(address) = octets.as_array::<4>() {
        Ok(Tunnel::Ingress(Addr::V4(*address)))
    } else if let Some(address) = octets.as_array::<16>() {
        Ok(Tunnel::Ingress(Addr::V6(*address)))
    } else {
        Err(misfit())
    }
}

fn read_other(kind: u8, octets: &[u8]) -> Result<Tunnel, PmsiFault>
    ensures { result ≡ other_of kind octets.now }
{
    match Ident::of(octets) {
        Some(ident) => Ok(Tunnel::Other(kind, ident)),
        None => Err(misfit()),
    }
}

#[tactic(auto, unfolding(crate::specs::pmsi_attr::Reading::tunnel_of))]
fn read_tunnel(kind: u8, octets: &[u8]) -> Result<Tunnel, PmsiFault>
    ensures { result ≡ tunnel_of kind octets.now }
{
    match kind {
        0 => read_none(octets),
        2 => read_mldp(octets),
        6 => read_ingress(octets),
        _ => read_other(kind, octets),
    }
}

/// The label in the high 20 bits of a number of 24 bits.
fn label_of(number: u32) -> Option<u32>
    ensures { result ≡ label_of number }
{
    let label = number >> 4;
    if label == 0 { None } else { Some(label) }
}

#[tactic(auto, unfolding(crate::specs::pmsi_attr::Reading::label_after))]
fn read_label_and_tunnel(flags: u8, kind: u8, rest: &[u8]) -> Result<Pmsi, PmsiFault>
    ensures { result ≡ label_after flags kind rest.now }
{
    let [high, middle, low, octets @ ..] = rest else {
        return Err(short(2));
    };
    let tunnel = read_tunnel(kind, octets)?;
    Ok(Pmsi {
        leaf_info: flags & LEAF_INFO == LEAF_INFO,
        tunnel,
        label: label_of(u32::from_be_bytes([0, *high, *middle, *low])),
    })
}

#[tactic(auto, unfolding(crate::specs::pmsi_attr::Reading::pmsi_of))]
fn read_pmsi(bytes: &[u8]) -> Result<Pmsi, PmsiFault>
    ensures { result ≡ pmsi_of bytes.now }
{
    match bytes {
        [] => Err(short(0)),
        [_] => Err(short(1)),
        [flags, kind, rest @ ..] => {
            if *kind > 7 {
                return Err(PmsiFault {
                    place: 1,
                    reason: PmsiReason::TunnelType,
                });
            }
            read_label_and_tunnel(*flags, *kind, rest)
        }
    }
}

/// The value of an attribute that all the octets spell (RFC 6514 section 5), or their first fault.
pub fn decode(bytes: &[u8]) -> Result<Pmsi, PmsiFault>
    // It is what reading from left to right gives.
    ensures exact { result ≡ pmsi_of bytes.now }
    // A fault stands within the octets or right after them.
    ensures within { IfErr result (λ fault. fault.place ≤ length bytes.now) }
    // What is read is spelled.
    ensures spelled { IfOk result (λ pmsi. Spells pmsi bytes.now) }
    // What is spelled is read.
    ensures only_spelled { (pmsi : Pmsi) → Spells pmsi bytes.now → result ≡ Ok pmsi }
    // A fault is the first one.
    ensures first { IfErr result (λ fault. FirstFault bytes.now fault) }
    // The first fault is answered.
    ensures only_first { (fault : PmsiFault) → FirstFault bytes.now fault → result ≡ Err fault }
{
    read_pmsi(bytes)
}

/// A text spells one value, and a value that has a spelling is spelled by what is written.
pub fn spellings()
    ensures one { (v w : Pmsi) (text : List ℕ) → Spells v text → Spells w text → v ≡ w }
    ensures written { (pmsi : Pmsi) (text : List ℕ) → Spells pmsi text → Spells pmsi (written pmsi) }
{}
