//! Reading a FEC element.
ghost use Rattle.std.specs.Prelude.{◌≡◌, ◌<◌, ◌≤◌, ◌^◌, ◌++◌, List, ℕ, length, take, IfOk, IfErr};
ghost use Rattle.mv_base.specs.Cursor.{Reads, IsRead, start};
ghost use Rattle.mldp.specs.mldp_fec.Reading.{kind_at, len_at, root_at, opaque_at, fec_at};
ghost use Rattle.mldp.specs.mldp_fec.Spelling.{Spells};
ghost use Rattle.mldp.specs.mldp_fec.FirstFault.{FirstFault};

use crate::mldp_fec::fault::{FecFault, FecReason};
use crate::mldp_fec::fec::{Fec, FecKind, Opaque};
use crate::mldp_fec::shape::first_misshapen;
use mv_base::{Addr, Reader};

/// The most octets that a FEC element has: 22 with an IPv6 root, and 64 of the opaque value.
const MOST: usize = 86;

#[tactic(auto, unfolding(crate::specs::mldp_fec::Reading::kind_at))]
fn read_kind(reader: &mut Reader<'_>) -> Result<FecKind, FecFault>
    ensures { Reads (λ kind. kind) result reader.new (kind_at reader.old) }
{
    let place = reader.place();
    match reader.u8()? {
        6 => Ok(FecKind::P2mp),
        7 => Ok(FecKind::Up),
        8 => Ok(FecKind::Down),
        _ => Err(FecFault {
            place,
            reason: FecReason::Kind,
        }),
    }
}

fn expect_len(reader: &mut Reader<'_>, len: u8) -> Result<(), FecFault>
    ensures { Reads (λ _. tt) result reader.new (len_at len reader.old) }
{
    let place = reader.place();
    if reader.u8()? != len {
        return Err(FecFault {
            place,
            reason: FecReason::AddressLength,
        });
    }
    Ok(())
}

#[tactic(auto, unfolding(crate::specs::mldp_fec::Reading::root_at))]
fn read_root(reader: &mut Reader<'_>) -> Result<Addr, FecFault>
    ensures { Reads (λ root. root) result reader.new (root_at reader.old) }
{
    let place = reader.place();
    match reader.u16()? {
        1 => {
            expect_len(reader, 4)?;
            Ok(Addr::V4(reader.array()?))
        }
        2 => {
            expect_len(reader, 16)?;
            Ok(Addr::V6(reader.array()?))
        }
        _ => Err(FecFault {
            place,
            reason: FecReason::Family,
        }),
    }
}

#[tactic(auto, unfolding(crate::specs::mldp_fec::Reading::opaque_at))]
fn read_opaque(reader: &mut Reader<'_>) -> Result<Opaque, FecFault>
    ensures { Reads (λ opaque. opaque) result reader.new (opaque_at reader.old) }
{
    let place = reader.place();
    let len = reader.u16()? as usize;
    if len > 64 {
        return Err(FecFault {
            place,
            reason: FecReason::OpaqueTooLong,
        });
    }
    let place = reader.place();
    let octets = reader.take(len)?;
    if let Some(offset) = first_misshapen(octets) {
        return Err(FecFault {
            place: place + offset as u32,
            reason: FecReason::OpaqueShape,
        });
    }
    Ok(Opaque::of(octets).unwrap())
}

#[tactic(auto, unfolding(crate::specs::mldp_fec::Reading::fec_at))]
fn read_fec(reader: &mut Reader<'_>) -> Result<Fec, FecFault>
    ensures { Reads (λ fec. fec) result reader.new (fec_at reader.old) }
{
    let kind = read_kind(reader)?;
    let root = read_root(reader)?;
    let opaque = read_opaque(reader)?;
    Ok(Fec { kind, root, opaque })
}

/// The octets that an element at the front can have.
fn front_of(bytes: &[u8]) -> &[u8]
    ensures octets { result.now ≡ take MOST bytes.now }
    ensures within { length result.now ≤ MOST }
{
    if bytes.len() <= MOST {
        bytes
    } else {
        &bytes[..MOST]
    }
}

fn read_element(octets: &[u8]) -> Result<(Fec, usize), FecFault>
    requires { length octets.now < 2 ^ 32 }
    ensures { IsRead result (fec_at (start octets.now)) }
{
    let mut reader = Reader::of(octets, 0);
    let fec = read_fec(&mut reader)?;
    Ok((fec, reader.place() as usize))
}

fn read_front(bytes: &[u8]) -> Result<(Fec, usize), FecFault>
    ensures { IsRead result (fec_at (start bytes.now)) }
{
    read_element(front_of(bytes))
}

/// The FEC element at the front of the octets, and how many of them it has.
pub fn decode(bytes: &[u8]) -> Result<(Fec, usize), FecFault>
    // It is what reading from left to right gives.
    ensures exact { IsRead result (fec_at (start bytes.now)) }
    // A fault stands within the octets or right after them.
    ensures within { IfErr result (λ fault. fault.place ≤ length bytes.now) }
    // What is read is spelled at the front.
    ensures spelled { IfOk result (λ x. Spells x.0 (take x.1 bytes.now) × (x.1 ≤ length bytes.now)) }
    // What is spelled at the front is read.
    ensures only_spelled { (fec : Fec) (text rest : List ℕ) → Spells fec text → bytes.now ≡ text ++ rest → result ≡ Ok (fec, length text) }
    // A fault is the first one.
    ensures first { IfErr result (λ fault. FirstFault (start bytes.now) fault) }
    // The first fault is answered.
    ensures only_first { (fault : FecFault) → FirstFault (start bytes.now) fault → result ≡ Err fault }
{
    read_front(bytes)
}

/// No spelling begins another, and each is that of one value.
pub fn one_spelling()
    ensures { (v w : Fec) (a b x y : List ℕ) → Spells v a → Spells w b → a ++ x ≡ b ++ y → (v ≡ w) × (a ≡ b) }
{}
