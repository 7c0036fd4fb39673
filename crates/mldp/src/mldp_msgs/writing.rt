//! Writing a message.
ghost use Rattle.std.specs.Prelude.{◌≡◌, ◌+◌, ◌<◌, ◌≤◌, ◌^◌, ◌++◌, ◌∷◌, [], length, IfOk, OnOk};
ghost use Rattle.std.specs.Int.{w16, w32, to_be_bytes};
ghost use Rattle.mldp.specs.mldp_fec.Spelling.{written as written_fec};
ghost use Rattle.mv_base.specs.Address.{addr_octets};
ghost use Rattle.mldp.specs.mldp_msgs.Spelling.{tlv, type_of, written_tlvs, written_body, written, IsElement, IsWritable, IsRouter};

use crate::mldp_fec::Fec;
use crate::mldp_msgs::message::{LabelMessage, MAPPING, RELEASE, WITHDRAW};
use crate::mldp_msgs::tlv::{FEC, GENERIC_LABEL};
use mv_base::{Addr, Bytes, NoMemory};
use std::alloc::Global;

/// The most octets that a FEC element has.
const MOST: usize = 86;

/// The most octets of a FEC TLV and a label TLV.
const TLVS: usize = 12 + MOST;

/// The octets of a message before its TLVs (RFC 5036 section 3.5).
const MESSAGE_HEAD: usize = 8;

/// The octets of a PDU before its messages (RFC 5036 section 3.1).
const PDU_HEAD: usize = 10;

fn type_of(message: &LabelMessage) -> u16
    ensures { result ≡ type_of message.now }
{
    match message {
        LabelMessage::Mapping(_, _) => MAPPING,
        LabelMessage::Withdraw(_, _) => WITHDRAW,
        LabelMessage::Release(_, _) => RELEASE,
        LabelMessage::Ignored(kind) => *kind,
    }
}

fn push_number(out: &mut Bytes, number: u16) -> Result<(), NoMemory>
    ensures { OnOk result (out.new ≡ out.old ++ to_be_bytes w16 number) }
{
    out.extend(&number.to_be_bytes())
}

/// A number, a length, and what it counts.
fn push_header(out: &mut Bytes, number: u16, len: u16) -> Result<(), NoMemory>
    ensures { OnOk result (out.new ≡ out.old ++ (to_be_bytes w16 number ++ to_be_bytes w16 len)) }
{
    push_number(out, number)?;
    push_number(out, len)
}

fn push_tlv(out: &mut Bytes, kind: u16, value: &[u8]) -> Result<(), NoMemory>
    requires { length value.now < 2 ^ 16 }
    ensures { OnOk result (out.new ≡ out.old ++ (to_be_bytes w16 kind ++ (to_be_bytes w16 (length value.now) ++ value.now))) }
{
    push_header(out, kind, value.len() as u16)?;
    out.extend(value)
}

#[tactic(auto, using(crate::proofs::mldp_msgs::Lengths::element_len))]
fn push_fec(out: &mut Bytes, fec: &Fec) -> Result<(), NoMemory>
    requires { IsElement fec.now }
    ensures { OnOk result (out.new ≡ out.old ++ tlv 0 0x0100 (written_fec fec.now)) }
{
    let mut element = [0; MOST];
    let len = crate::mldp_fec::encode(fec, &mut element);
    push_tlv(out, FEC, &element[..len])
}

fn tlvs_of(alloc: Global, fec: &Fec, label: u32) -> Result<Bytes, NoMemory>
    requires { IsElement fec.now }
    ensures { IfOk result (λ octets. octets ≡ written_tlvs fec.now label) }
{
    let mut out = Bytes::with_room(alloc, TLVS)?;
    push_fec(&mut out, fec)?;
    push_tlv(&mut out, GENERIC_LABEL, &label.to_be_bytes())?;
    Ok(out)
}

/// A message of that type and id, with these octets after the id.
fn message_of(alloc: Global, kind: u16, id: u32, body: &[u8]) -> Result<Bytes, NoMemory>
    requires { 4 + length body.now < 2 ^ 16 }
    ensures { IfOk result (λ octets. octets ≡
        to_be_bytes w16 kind
        ++ (to_be_bytes w16 (4 + length body.now) ++ (to_be_bytes w32 id ++ body.now))) }
{
    let mut out = Bytes::with_room(alloc, MESSAGE_HEAD + body.len())?;
    push_header(&mut out, kind, 4 + body.len() as u16)?;
    out.extend(&id.to_be_bytes())?;
    out.extend(body)?;
    Ok(out)
}

/// A PDU of the router `me`, with these messages.
fn pdu_of(alloc: Global, me: Addr, messages: &[u8]) -> Result<Bytes, NoMemory>
    requires { 6 + length messages.now < 2 ^ 16 }
    ensures { IfOk result (λ octets. octets ≡
        to_be_bytes w16 1
        ++ (to_be_bytes w16 (6 + length messages.now) ++ ((addr_octets me ++ 0 ∷ 0 ∷ []) ++ messages.now))) }
{
    let mut out = Bytes::with_room(alloc, PDU_HEAD + messages.len())?;
    push_header(&mut out, 1, 6 + messages.len() as u16)?;
    out.extend(me.octets())?;
    push_number(&mut out, 0)?;
    out.extend(messages)?;
    Ok(out)
}

/// The TLVs of the message.
#[tactic(auto, using(crate::proofs::mldp_msgs::Lengths::body_len))]
fn body_of(alloc: Global, message: &LabelMessage) -> Result<Bytes, NoMemory>
    requires { IsWritable message.now }
    ensures octets { IfOk result (λ octets. octets ≡ written_body message.now) }
    ensures len { length (written_body message.now) ≤ 98 }
{
    match message {
        LabelMessage::Mapping(fec, label) => tlvs_of(alloc, fec, *label),
        LabelMessage::Withdraw(fec, label) => tlvs_of(alloc, fec, *label),
        LabelMessage::Release(fec, label) => tlvs_of(alloc, fec, *label),
        LabelMessage::Ignored(_) => unreachable!(),
    }
}

/// Writes a PDU with this message alone, from the router `me`, whose label space is 0.
pub fn encode(alloc: Global, me: Addr, id: u32, message: &LabelMessage) -> Result<Bytes, NoMemory>
    requires writable { IsWritable message.now }
    requires router { IsRouter me }
    ensures { IfOk result (λ octets. octets ≡ written me id message.now) }
{
    let body = body_of(alloc, message)?;
    let message = message_of(alloc, type_of(message), id, body.as_slice())?;
    pdu_of(alloc, me, message.as_slice())
}
