//! BGP messages, and their lines.
ghost use Rattle.std.specs.Prelude.{◌≡◌, ◌++◌, OnOk};
ghost use Rattle.std.specs.List.{flat_map, AllByRecursion};
ghost use Rattle.hex.specs.Hex.{encode_lower};
ghost use Rattle.value_text.specs.MessageText.{prefix_text, unicast_text, family_text, nlri_text, more_text, comms_text};
ghost use Rattle.value_text.specs.MessageText.{attribute_text, HasOctets, reach_line, unreach_line, other_line};

use crate::addr_text::put_addr;
use crate::lined::{Lined, Worded};
use crate::pmsi_lines::put_pmsi_word;
use crate::route_lines::{put_route, put_with_rd, route_word};
use bgp_messages::bgp_attributes::{Advert, Key, Message, StreamFault};
use bgp_values::mvpn_nlri::Afi;
use bgp_values::pmsi_attr::Pmsi;
use mv_base::route_targets::ExtComm;
use mv_base::{Bytes, NoMemory, Prefix, Rd};
use report_text::{put_digits, put_number};

fn put_prefix(out: &mut Bytes, prefix: &Prefix) -> Result<(), NoMemory>
    ensures { OnOk result (out.new ≡ out.old ++ prefix_text prefix.now) }
{
    put_addr(out, &prefix.addr)?;
    out.extend(b"/")?;
    put_number(out, u64::from(prefix.bits))
}

fn family_word(afi: Afi) -> &'static [u8]
    ensures { result.now ≡ family_text afi }
{
    match afi {
        Afi::Ipv4 => b"ipv4 ",
        Afi::Ipv6 => b"ipv6 ",
    }
}

fn put_unicast(out: &mut Bytes, rd: &Rd, prefix: &Prefix) -> Result<(), NoMemory>
    ensures { OnOk result (out.new ≡ out.old ++ unicast_text rd.now prefix.now) }
{
    put_with_rd(out, b"unicast ", rd)?;
    put_prefix(out, prefix)
}

/// Appends what a route is announced and withdrawn by.
pub fn put_key(out: &mut Bytes, key: &Key) -> Result<(), NoMemory>
    ensures { OnOk result (out.new ≡ out.old ++ nlri_text key.now) }
{
    match key {
        Key::Mcast(afi, route) => {
            out.extend(family_word(*afi))?;
            put_route(out, route)
        }
        Key::Unicast { rd, prefix } => put_unicast(out, rd, prefix),
    }
}

fn put_community(out: &mut Bytes, community: &ExtComm) -> Result<(), NoMemory>
    ensures { OnOk result (out.new ≡ out.old ++ encode_lower community.now.0) }
{
    put_digits(out, &community.0)
}

/// Appends communities with a comma before each.
fn put_more(out: &mut Bytes, comms: &[ExtComm]) -> Result<(), NoMemory>
    ensures { OnOk result (out.new ≡ out.old ++ more_text comms.now) }
{
    for community in comms {
        out.extend(b",")?;
        put_community(out, community)?;
    }
    Ok(())
}

fn put_comms(out: &mut Bytes, comms: &[ExtComm]) -> Result<(), NoMemory>
    ensures { OnOk result (out.new ≡ out.old ++ comms_text comms.now) }
{
    match comms {
        [] => out.extend(b"-"),
        [first, more @ ..] => {
            put_community(out, first)?;
            put_more(out, more)
        }
    }
}

/// Appends the octets of a tunnel attribute's value.
fn put_attribute(out: &mut Bytes, pmsi: &Option<Pmsi>) -> Result<(), NoMemory>
    requires { HasOctets pmsi.now }
    ensures { OnOk result (out.new ≡ out.old ++ attribute_text pmsi.now) }
{
    match pmsi {
        None => out.extend(b"-"),
        Some(pmsi) => {
            let mut octets = [0; 101];
            let len = bgp_values::pmsi_attr::encode(pmsi, &mut octets);
            put_digits(out, &octets[..len])
        }
    }
}

fn put_reach(out: &mut Bytes, advert: &Advert) -> Result<(), NoMemory>
    requires { HasOctets advert.now.pmsi }
    ensures { OnOk result (out.new ≡ out.old ++ reach_line advert.now) }
{
    out.extend(b"reach ")?;
    put_addr(out, &advert.next_hop)?;
    out.extend(b" ")?;
    put_comms(out, advert.comms.as_slice())?;
    out.extend(b" ")?;
    put_attribute(out, &advert.pmsi)?;
    out.extend(b" ")?;
    put_key(out, &advert.key)?;
    out.extend(b"\n")
}

fn put_unreach(out: &mut Bytes, key: &Key) -> Result<(), NoMemory>
    ensures { OnOk result (out.new ≡ out.old ++ unreach_line key.now) }
{
    out.extend(b"unreach ")?;
    put_key(out, key)?;
    out.extend(b"\n")
}

fn put_all_reached(out: &mut Bytes, adverts: &[Advert]) -> Result<(), NoMemory>
    requires { AllByRecursion (λ a. HasOctets a.pmsi) adverts.now }
    ensures { OnOk result (out.new ≡ out.old ++ flat_map reach_line adverts.now) }
{
    for advert in adverts {
        put_reach(out, advert)?;
    }
    Ok(())
}

fn put_all_unreached(out: &mut Bytes, keys: &[Key]) -> Result<(), NoMemory>
    ensures { OnOk result (out.new ≡ out.old ++ flat_map unreach_line keys.now) }
{
    for key in keys {
        put_unreach(out, key)?;
    }
    Ok(())
}

fn other_line(kind: u8) -> &'static [u8]
    ensures { result.now ≡ other_line kind }
{
    match kind {
        1 => b"open\n",
        3 => b"notification\n",
        4 => b"keepalive\n",
        _ => b"refresh\n",
    }
}

impl Lined for Message {
    ghost use Rattle.value_text.specs.MessageText.{message_lines, IsTellable};

    ghost lines = { message_lines };

    ghost IsTellable = { IsTellable };

    fn put_lines(&self, out: &mut Bytes) -> Result<(), NoMemory> {
        match self {
            Message::Update(update) => {
                out.extend(b"update\n")?;
                put_all_reached(out, update.reach.as_slice())?;
                put_all_unreached(out, update.unreach.as_slice())
            }
            Message::Other(kind) => out.extend(other_line(*kind)),
        }
    }
}

impl Worded for StreamFault {
    ghost use Rattle.value_text.specs.MessageText.{bgp_word};

    ghost word = { bgp_word };

    fn put_word(&self, out: &mut Bytes) -> Result<(), NoMemory> {
        match self {
            StreamFault::Marker => out.extend(b"marker"),
            StreamFault::MessageLength => out.extend(b"message-length"),
            StreamFault::MessageType => out.extend(b"message-type"),
            StreamFault::AttributeList => out.extend(b"attribute-list"),
            StreamFault::AttributeLength => out.extend(b"attribute-length"),
            StreamFault::NextHop => out.extend(b"next-hop"),
            StreamFault::Route(reason) => {
                out.extend(b"route.")?;
                out.extend(route_word(*reason))
            }
            StreamFault::Pmsi(reason) => {
                out.extend(b"pmsi.")?;
                put_pmsi_word(out, *reason)
            }
            StreamFault::Prefix => out.extend(b"prefix"),
        }
    }
}
