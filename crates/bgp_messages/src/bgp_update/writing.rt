//! Writing a change of the table as an UPDATE message.
ghost use Rattle.std.specs.Prelude.{◌≡◌, ◌+◌, ◌<◌, ◌≤◌, ◌^◌, ◌∷◌, ◌++◌, ◌⊎◌, false, length, OnOk, IfOk};
ghost use Rattle.std.specs.List.{flat_map};
ghost use Rattle.mv_base.specs.Octets.{IsOctets};
ghost use Rattle.mv_base.specs.Address.{IsAddr, addr_octets};
ghost use Rattle.bgp_values.specs.declared.mvpn_nlri.route.Afi.{Afi};
ghost use Rattle.bgp_values.specs.declared.mvpn_nlri.route.Afi.TheVariants.{Ipv4, Ipv6};
ghost use Rattle.bgp_messages.specs.declared.bgp_attributes.family.Family.TheVariants as families;
ghost use Rattle.bgp_values.specs.mvpn_nlri.Spelling as routes;
ghost use Rattle.bgp_values.specs.pmsi_attr.Spelling as tunnels;
ghost use Rattle.bgp_messages.specs.bgp_attributes.Spelling.{pair};
ghost use Rattle.bgp_messages.specs.bgp_update.Written.{attribute_head, attribute, afi_of, family_of, mapped, hop_of, vpn_text};
ghost use Rattle.bgp_messages.specs.bgp_update.Written.{key_text, reach_value, unreach_value, path_text, tunnel_text, advert_text};
ghost use Rattle.bgp_messages.specs.bgp_update.Written.{attributes_of, message_text, written, has_many, comms_octets, IsVpn};
ghost use Rattle.bgp_messages.specs.bgp_update.Written.{IsWritableKey, IsTunnel, IsWritableAdvert, IsWritable, Encodes};

use crate::bgp_attributes::{Advert, Change, Key};
use crate::bgp_update::front::{MESSAGE_LIMIT, UPDATE};
use bgp_values::mvpn_nlri::{Afi, Route};
use bgp_values::pmsi_attr::Pmsi;
use mv_base::route_targets::ExtComm;
use mv_base::{Addr, Bytes, NoMemory, Prefix, Rd};
use std::alloc::Global;

/// Why a change was not written.
#[derive(Clone, Copy, Debug, PartialEq, Eq)]
pub enum EncodeFault {
    /// The message has more than 4096 octets (RFC 4271 section 4.1).
    TooLong,
    /// There was no memory for the message.
    NoMemory,
}

impl From<NoMemory> for EncodeFault {
    ghost use Rattle.std.specs.Prelude.{◌≡◌};
    ghost use Rattle.bgp_messages.specs.declared.bgp_update.writing.EncodeFault.TheVariants as faults;

    ghost from_gives = { λ _ fault. fault ≡ faults.NoMemory };

    fn from(_: NoMemory) -> Self {
        EncodeFault::NoMemory
    }
}

/// Header and the two lengths of an UPDATE.
const UPDATE_LEN: usize = 23;

/// Room for the octets of most values of attributes.
const VALUE_ROOM: usize = 64;

/// Room for the octets of all attributes of most messages.
const ATTRIBUTES_ROOM: usize = 128;

/// As many communities as have the octets of a whole message.
const COMM_LIMIT: usize = 512;

/// The flag Extended Length (RFC 4271 section 4.3).
const EXTENDED: u8 = 0x10;

/// The flags of attributes 14 and 15 (RFC 4760 sections 3 and 4).
const OPTIONAL: u8 = 0x80;

/// The flags of attributes 16 and 22 (RFC 4360 section 2; RFC 6514 section 5).
const TRANSITIVE: u8 = 0xc0;

/// IGP (RFC 4271 section 5.1.1).
const ORIGIN: [u8; 4] = [0x40, 1, 1, 0];

/// No segments (RFC 4271 section 5.1.2).
const AS_PATH: [u8; 3] = [0x40, 2, 0];

/// 100 (RFC 4271 section 5.1.5).
const LOCAL_PREF: [u8; 7] = [0x40, 5, 4, 0, 0, 0, 100];

/// The label field of a route that is announced: label 3 at the bottom of the stack (RFC 8277 section 2).
const ADVERTISED: [u8; 3] = [0x00, 0x00, 0x31];

/// The label field of a route that is withdrawn (RFC 8277 section 2.4).
const WITHDRAWN: [u8; 3] = [0x80, 0x00, 0x00];

/// Flags, type, and length of an attribute.
fn put_head(out: &mut Bytes, flags: u8, kind: u8, len: usize) -> Result<(), NoMemory>
    requires { len < 2 ^ 16 }
    ensures { OnOk result (out.new ≡ out.old ++ attribute_head flags kind len) }
{
    if 255 < len {
        let [high, low] = (len as u16).to_be_bytes();
        return out.extend(&[flags | EXTENDED, kind, high, low]);
    }
    out.extend(&[flags, kind, len as u8])
}

fn put_attribute(out: &mut Bytes, flags: u8, kind: u8, value: &[u8]) -> Result<(), NoMemory>
    requires { length value.now < 2 ^ 16 }
    ensures { OnOk result (out.new ≡ out.old ++ attribute flags kind value.now) }
{
    put_head(out, flags, kind, value.len())?;
    out.extend(value)
}

/// AFI and SAFI of VPN routes with such addresses (RFC 4364 section 4.3.4; RFC 4659 section 2).
fn put_vpn_family(out: &mut Bytes, addr: &Addr) -> Result<(), NoMemory>
    ensures { OnOk result (out.new ≡ out.old ++ pair (families.Vpn (afi_of addr.now))) }
{
    match addr {
        Addr::V4(_) => out.extend(&[0, 1, 128]),
        Addr::V6(_) => out.extend(&[0, 2, 128]),
    }
}

/// AFI and SAFI of the key's family.
fn put_family(out: &mut Bytes, key: &Key) -> Result<(), NoMemory>
    ensures { OnOk result (out.new ≡ out.old ++ pair (family_of key.now)) }
{
    match key {
        Key::Mcast(Afi::Ipv4, _) => out.extend(&[0, 1, 5]),
        Key::Mcast(Afi::Ipv6, _) => out.extend(&[0, 2, 5]),
        Key::Unicast { prefix, .. } => put_vpn_family(out, &prefix.addr),
    }
}

/// The next hop of an MCAST-VPN route after its length.
fn put_hop(out: &mut Bytes, addr: &Addr) -> Result<(), NoMemory>
    requires { IsAddr addr.now }
    ensures { OnOk result (out.new ≡ out.old ++ (length (addr_octets addr.now) ∷ addr_octets addr.now)) }
{
    let octets = addr.octets();
    out.extend(&[octets.len() as u8])?;
    out.extend(octets)
}

/// The same with a Route Distinguisher of zeros in front, for a VPN-IPv4 route (RFC 4364 section 4.3.2).
fn put_vpn4_hop(out: &mut Bytes, addr: &Addr) -> Result<(), NoMemory>
    requires { IsAddr addr.now }
    ensures { OnOk result (out.new ≡ out.old ++ hop_of (families.Vpn Ipv4) addr.now) }
{
    let octets = addr.octets();
    let len = octets.len() as u8;
    out.extend(&[8 + len, 0, 0, 0, 0, 0, 0, 0, 0])?;
    out.extend(octets)
}

/// The octets of an IPv6 address, and of an IPv4 address those of its IPv4-mapped one (RFC 4291 section 2.5.5.2).
fn put_mapped(out: &mut Bytes, addr: &Addr) -> Result<(), NoMemory>
    ensures { OnOk result (out.new ≡ out.old ++ mapped addr.now) }
{
    match addr {
        Addr::V4([a, b, c, d]) => {
            out.extend(&[0, 0, 0, 0, 0, 0, 0, 0, 0, 0, 0xff, 0xff, *a, *b, *c, *d])
        }
        Addr::V6(octets) => out.extend(octets),
    }
}

/// The next hop of a VPN-IPv6 route after its length (RFC 4659 section 3.2.1).
fn put_vpn6_hop(out: &mut Bytes, addr: &Addr) -> Result<(), NoMemory>
    ensures { OnOk result (out.new ≡ out.old ++ hop_of (families.Vpn Ipv6) addr.now) }
{
    out.extend(&[24, 0, 0, 0, 0, 0, 0, 0, 0])?;
    put_mapped(out, addr)
}

/// The next hop of a VPN route with such a prefix.
fn put_vpn_hop(out: &mut Bytes, prefix: &Prefix, addr: &Addr) -> Result<(), NoMemory>
    requires { IsAddr addr.now }
    ensures { OnOk result (out.new ≡ out.old ++ hop_of (families.Vpn (afi_of prefix.now.addr)) addr.now) }
{
    match prefix.addr {
        Addr::V4(_) => put_vpn4_hop(out, addr),
        Addr::V6(_) => put_vpn6_hop(out, addr),
    }
}

/// The next hop after its length.
fn put_next_hop(out: &mut Bytes, key: &Key, addr: &Addr) -> Result<(), NoMemory>
    requires { IsAddr addr.now }
    ensures { OnOk result (out.new ≡ out.old ++ hop_of (family_of key.now) addr.now) }
{
    match key {
        Key::Mcast(_, _) => put_hop(out, addr),
        Key::Unicast { prefix, .. } => put_vpn_hop(out, prefix, addr),
    }
}

fn put_route(out: &mut Bytes, route: &Route) -> Result<(), NoMemory>
    requires { (afi : Afi) × routes.Spells afi route.now (routes.written route.now) }
    ensures { OnOk result (out.new ≡ out.old ++ routes.written route.now) }
{
    let mut octets = [0; 257];
    let len = bgp_values::mvpn_nlri::encode(route, &mut octets);
    out.extend(&octets[..len])
}

/// A VPN route with its label field (RFC 8277 section 2).
fn put_vpn(out: &mut Bytes, label: &[u8; 3], rd: &Rd, prefix: &Prefix) -> Result<(), NoMemory>
    requires { IsVpn rd.now prefix.now }
    ensures { OnOk result (out.new ≡ out.old ++ vpn_text label.now rd.now prefix.now) }
{
    let count = (prefix.bits as usize + 7) / 8;
    let octets = prefix.addr.octets();
    out.extend(&[88 + prefix.bits])?;
    out.extend(label)?;
    out.extend(&rd.0)?;
    out.extend(&octets[..count])
}

fn put_key(out: &mut Bytes, label: &[u8; 3], key: &Key) -> Result<(), NoMemory>
    requires { IsWritableKey key.now }
    ensures { OnOk result (out.new ≡ out.old ++ key_text label.now key.now) }
{
    match key {
        Key::Mcast(_, route) => put_route(out, route),
        Key::Unicast { rd, prefix } => put_vpn(out, label, rd, prefix),
    }
}

/// The value of MP_REACH_NLRI (RFC 4760 section 3).
fn put_reach(out: &mut Bytes, advert: &Advert) -> Result<(), NoMemory>
    requires { IsWritableAdvert advert.now }
    ensures { OnOk result (out.new ≡ out.old ++ reach_value advert.now) }
{
    put_family(out, &advert.key)?;
    put_next_hop(out, &advert.key, &advert.next_hop)?;
    out.extend(&[0])?;
    put_key(out, &ADVERTISED, &advert.key)
}

/// The value of MP_UNREACH_NLRI (RFC 4760 section 4).
fn put_unreach(out: &mut Bytes, key: &Key) -> Result<(), NoMemory>
    requires { IsWritableKey key.now }
    ensures { OnOk result (out.new ≡ out.old ++ unreach_value key.now) }
{
    put_family(out, key)?;
    put_key(out, &WITHDRAWN, key)
}

fn put_comms(out: &mut Bytes, comms: &[ExtComm]) -> Result<(), NoMemory>
    ensures { OnOk result (out.new ≡ out.old ++ comms_octets comms.now) }
{
    'comms: for comm in comms {
        out.extend(&comm.0)?;
    }
    Ok(())
}

/// The attributes that stand in each UPDATE with routes (RFC 4271 section 5.1).
fn put_path(out: &mut Bytes) -> Result<(), NoMemory>
    ensures { OnOk result (out.new ≡ out.old ++ path_text) }
{
    out.extend(&ORIGIN)?;
    out.extend(&AS_PATH)?;
    out.extend(&LOCAL_PREF)
}

fn put_tunnel(out: &mut Bytes, pmsi: &Option<Pmsi>) -> Result<(), NoMemory>
    requires { IsTunnel pmsi.now }
    ensures { OnOk result (out.new ≡ out.old ++ tunnel_text pmsi.now) }
{
    match pmsi {
        None => Ok(()),
        Some(pmsi) => {
            let mut octets = [0; 101];
            let len = bgp_values::pmsi_attr::encode(pmsi, &mut octets);
            put_attribute(out, TRANSITIVE, 22, &octets[..len])
        }
    }
}

fn put_advert(out: &mut Bytes, advert: &Advert) -> Result<(), NoMemory>
    requires writable { IsWritableAdvert advert.now }
    requires few { length advert.now.comms ≤ COMM_LIMIT }
    ensures { OnOk result (out.new ≡ out.old ++ advert_text advert.now) }
{
    let mut reach = Bytes::with_room(out.alloc(), VALUE_ROOM)?;
    put_reach(&mut reach, advert)?;
    let mut comms = Bytes::with_room(out.alloc(), VALUE_ROOM)?;
    put_comms(&mut comms, advert.comms.as_slice())?;
    put_path(out)?;
    put_attribute(out, OPTIONAL, 14, reach.as_slice())?;
    put_attribute(out, TRANSITIVE, 16, comms.as_slice())?;
    put_tunnel(out, &advert.pmsi)
}

fn put_withdrawal(out: &mut Bytes, key: &Key) -> Result<(), NoMemory>
    requires { IsWritableKey key.now }
    ensures { OnOk result (out.new ≡ out.old ++ attribute OPTIONAL 15 (unreach_value key.now)) }
{
    let mut value = Bytes::with_room(out.alloc(), VALUE_ROOM)?;
    put_unreach(&mut value, key)?;
    put_attribute(out, OPTIONAL, 15, value.as_slice())
}

/// The attributes of the UPDATE that makes the change.
fn put_attributes(out: &mut Bytes, change: &Change) -> Result<(), NoMemory>
    requires writable { IsWritable change.now }
    requires few { has_many change.now ≡ false }
    ensures { OnOk result (out.new ≡ out.old ++ attributes_of change.now) }
{
    match change {
        Change::Reach(advert) => put_advert(out, advert),
        Change::Unreach(key) => put_withdrawal(out, key),
    }
}

/// An UPDATE without withdrawn routes of its own, with these attributes and nothing after them.
fn put_message(out: &mut Bytes, attributes: &[u8]) -> Result<(), NoMemory>
    requires { UPDATE_LEN + length attributes.now ≤ MESSAGE_LIMIT }
    ensures text { OnOk result (out.new ≡ out.old ++ message_text attributes.now) }
    ensures octets { IsOctets attributes.now }
{
    let len = attributes.len();
    let [high, low] = ((UPDATE_LEN + len) as u16).to_be_bytes();
    out.extend(&[0xff; 16])?;
    out.extend(&[high, low, UPDATE, 0, 0])?;
    out.extend(&(len as u16).to_be_bytes())?;
    out.extend(attributes)
}

/// Whether the communities alone have more octets than a message.
fn has_many(change: &Change) -> bool
    ensures { result ≡ has_many change.now }
{
    match change {
        Change::Reach(advert) => COMM_LIMIT < advert.comms.len(),
        Change::Unreach(_) => false,
    }
}

/// The UPDATE message that makes the change, for a route of this edge's own: with ORIGIN, AS_PATH and LOCAL_PREF before
/// the attributes that are read (RFC 4271 section 5.1).
pub fn encode(alloc: Global, change: &Change) -> Result<Bytes, EncodeFault>
    requires { IsWritable change.now }
    // It is what is written, within 4096 octets, or that has more.
    ensures written { Encodes result change.now }
    ensures octets { IfOk result (λ octets. IsOctets octets) }
    ensures too_long { 4096 < length (written change.now) → (result ≡ Err EncodeFault.TooLong) ⊎ (result ≡ Err EncodeFault.NoMemory) }
{
    if has_many(change) {
        return Err(EncodeFault::TooLong);
    }
    let mut attributes = Bytes::with_room(alloc, ATTRIBUTES_ROOM)?;
    put_attributes(&mut attributes, change)?;
    if MESSAGE_LIMIT < UPDATE_LEN + attributes.len() {
        return Err(EncodeFault::TooLong);
    }
    let mut message = Bytes::with_room(alloc, UPDATE_LEN + attributes.len())?;
    put_message(&mut message, attributes.as_slice())?;
    Ok(message)
}
