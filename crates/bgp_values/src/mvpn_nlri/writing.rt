//! Writing a route.
ghost use Rattle.std.specs.Prelude.{◌≡◌, ◌≤◌, ◌<◌, ◌+◌, ◌++◌, length};
ghost use Rattle.std.specs.Int.{w32, to_be_bytes};
ghost use Rattle.mv_base.specs.Writing.{put_at};
ghost use Rattle.mv_base.specs.Address.{addr_octets};
ghost use Rattle.bgp_values.specs.mvpn_nlri.Spelling.{Spells, written, sized, any_or_sized, key_kind, key_fields, key, kind, fields};

use crate::mvpn_nlri::fault::RouteFault;
use crate::mvpn_nlri::reading::decode;
use crate::mvpn_nlri::route::{Afi, LeafKey, Route};
use mv_base::{Addr, Rd, put};

fn put_plain(out: &mut [u8], place: usize, addr: &Addr) -> usize
    requires { place + length (addr_octets addr.now) ≤ length out.old }
    ensures place { result ≡ place + length (addr_octets addr.now) }
    ensures octets { out.new ≡ put_at out.old place (addr_octets addr.now) }
{
    put(out, place, addr.octets())
}

/// Writes a source or group after its length in bits.
#[tactic(auto, using(mv_base::proofs::Fields::puts))]
fn put_sized(out: &mut [u8], place: usize, addr: &Addr) -> usize
    requires { place + length (sized addr.now) ≤ length out.old }
    ensures place { result ≡ place + length (sized addr.now) }
    ensures octets { out.new ≡ put_at out.old place (sized addr.now) }
{
    match addr {
        Addr::V4(octets) => {
            let place = put(out, place, &[32]);
            put(out, place, octets)
        }
        Addr::V6(octets) => {
            let place = put(out, place, &[128]);
            put(out, place, octets)
        }
    }
}

/// Writes a source or group, or the wildcard.
fn put_any_or_sized(out: &mut [u8], place: usize, addr: &Option<Addr>) -> usize
    requires { place + length (any_or_sized addr.now) ≤ length out.old }
    ensures place { result ≡ place + length (any_or_sized addr.now) }
    ensures octets { out.new ≡ put_at out.old place (any_or_sized addr.now) }
{
    match addr {
        None => put(out, place, &[0]),
        Some(addr) => put_sized(out, place, addr),
    }
}

/// Writes a source and a group.
#[tactic(auto, using(crate::proofs::mvpn_nlri::WritingLemmas::puts_two))]
fn put_flow(out: &mut [u8], place: usize, source: &Addr, group: &Addr) -> usize
    requires { place + length (sized source.now ++ sized group.now) ≤ length out.old }
    ensures place { result ≡ place + length (sized source.now ++ sized group.now) }
    ensures octets { out.new ≡ put_at out.old place (sized source.now ++ sized group.now) }
{
    let place = put_sized(out, place, source);
    put_sized(out, place, group)
}

/// Writes a Route Distinguisher and a Source AS.
#[tactic(auto, using(crate::proofs::mvpn_nlri::WritingLemmas::puts_two))]
fn put_rd_as(out: &mut [u8], place: usize, rd: &Rd, source_as: u32) -> usize
    requires { place + length (rd.now.0 ++ to_be_bytes w32 source_as) ≤ length out.old }
    ensures place { result ≡ place + length (rd.now.0 ++ to_be_bytes w32 source_as) }
    ensures octets { out.new ≡ put_at out.old place (rd.now.0 ++ to_be_bytes w32 source_as) }
{
    let place = put(out, place, &rd.0);
    put(out, place, &source_as.to_be_bytes())
}

/// Writes the fields of a selective route.
#[tactic(auto, using(crate::proofs::mvpn_nlri::WritingLemmas::puts_four))]
fn put_selective(
    out: &mut [u8],
    place: usize,
    rd: &Rd,
    source: &Option<Addr>,
    group: &Option<Addr>,
    originator: &Addr,
) -> usize
    requires { place + length (rd.now.0 ++ (any_or_sized source.now ++ (any_or_sized group.now ++ addr_octets originator.now)))
        ≤ length out.old }
    ensures place { result ≡
        place + length (rd.now.0 ++ (any_or_sized source.now ++ (any_or_sized group.now ++ addr_octets originator.now))) }
    ensures octets { out.new ≡ put_at out.old place
        (rd.now.0 ++ (any_or_sized source.now ++ (any_or_sized group.now ++ addr_octets originator.now))) }
{
    let place = put(out, place, &rd.0);
    let place = put_any_or_sized(out, place, source);
    let place = put_any_or_sized(out, place, group);
    put_plain(out, place, originator)
}

/// Writes the fields of a C-multicast route.
#[tactic(auto, using(crate::proofs::mvpn_nlri::WritingLemmas::puts_three))]
fn put_join(
    out: &mut [u8],
    place: usize,
    rd: &Rd,
    source_as: u32,
    source: &Addr,
    group: &Addr,
) -> usize
    requires { place + length (rd.now.0 ++ (to_be_bytes w32 source_as ++ (sized source.now ++ sized group.now))) ≤ length out.old }
    ensures place { result ≡ place + length (rd.now.0 ++ (to_be_bytes w32 source_as ++ (sized source.now ++ sized group.now))) }
    ensures octets { out.new ≡ put_at out.old place (rd.now.0 ++ (to_be_bytes w32 source_as ++ (sized source.now ++ sized group.now))) }
{
    let place = put(out, place, &rd.0);
    let place = put(out, place, &source_as.to_be_bytes());
    put_flow(out, place, source, group)
}

fn put_key_fields(out: &mut [u8], place: usize, leaf_key: &LeafKey) -> usize
    requires { place + length (key_fields leaf_key.now) ≤ length out.old }
    ensures place { result ≡ place + length (key_fields leaf_key.now) }
    ensures octets { out.new ≡ put_at out.old place (key_fields leaf_key.now) }
{
    match leaf_key {
        LeafKey::Inter { rd, source_as } => put_rd_as(out, place, rd, *source_as),
        LeafKey::Selective {
            rd,
            source,
            group,
            originator,
        } => put_selective(out, place, rd, source, group, originator),
    }
}

fn key_kind_of(leaf_key: &LeafKey) -> u8
    ensures { result ≡ key_kind leaf_key.now }
{
    match leaf_key {
        LeafKey::Inter { .. } => 2,
        LeafKey::Selective { .. } => 3,
    }
}

/// Writes a key: its fields, and before them its type and their length.
#[tactic(auto, using(crate::proofs::mvpn_nlri::WritingLemmas::puts_before))]
fn put_key(out: &mut [u8], place: usize, leaf_key: &LeafKey) -> usize
    requires few { length (key_fields leaf_key.now) < 256 }
    requires room { place + length (key leaf_key.now) ≤ length out.old }
    ensures place { result ≡ place + length (key leaf_key.now) }
    ensures octets { out.new ≡ put_at out.old place (key leaf_key.now) }
{
    let end = put_key_fields(out, place + 2, leaf_key);
    let len = (end - place - 2) as u8;
    put(out, place, &[key_kind_of(leaf_key), len]);
    end
}

/// Writes the fields of a Leaf A-D route.
#[tactic(auto, using(crate::proofs::mvpn_nlri::WritingLemmas::puts_two))]
fn put_leaf(out: &mut [u8], place: usize, leaf_key: &LeafKey, originator: &Addr) -> usize
    requires few { length (key leaf_key.now ++ addr_octets originator.now) < 256 }
    requires room { place + length (key leaf_key.now ++ addr_octets originator.now) ≤ length out.old }
    ensures place { result ≡ place + length (key leaf_key.now ++ addr_octets originator.now) }
    ensures octets { out.new ≡ put_at out.old place (key leaf_key.now ++ addr_octets originator.now) }
{
    let place = put_key(out, place, leaf_key);
    put_plain(out, place, originator)
}

/// Writes the fields of a route.
#[tactic(auto, using(crate::proofs::mvpn_nlri::WritingLemmas::puts_two))]
fn put_fields(out: &mut [u8], place: usize, route: &Route) -> usize
    requires few { length (fields route.now) < 256 }
    requires room { place + length (fields route.now) ≤ length out.old }
    ensures place { result ≡ place + length (fields route.now) }
    ensures octets { out.new ≡ put_at out.old place (fields route.now) }
{
    match route {
        Route::Intra { rd, originator } => {
            let place = put(out, place, &rd.0);
            put_plain(out, place, originator)
        }
        Route::Inter { rd, source_as } => put_rd_as(out, place, rd, *source_as),
        Route::Selective {
            rd,
            source,
            group,
            originator,
        } => put_selective(out, place, rd, source, group, originator),
        Route::Leaf { key, originator } => put_leaf(out, place, key, originator),
        Route::Active { rd, source, group } => {
            let place = put(out, place, &rd.0);
            put_flow(out, place, source, group)
        }
        Route::SharedJoin {
            rd,
            source_as,
            source,
            group,
        }
        | Route::SourceJoin {
            rd,
            source_as,
            source,
            group,
        } => put_join(out, place, rd, *source_as, source, group),
        Route::Other(_, raw) => put(out, place, raw.octets()),
    }
}

fn kind_of(route: &Route) -> u8
    ensures { result ≡ kind route.now }
{
    match route {
        Route::Intra { .. } => 1,
        Route::Inter { .. } => 2,
        Route::Selective { .. } => 3,
        Route::Leaf { .. } => 4,
        Route::Active { .. } => 5,
        Route::SharedJoin { .. } => 6,
        Route::SourceJoin { .. } => 7,
        Route::Other(number, _) => *number,
    }
}

/// Writes the route to the front, and answers how many octets it has. The others stay.
///
/// The route has a spelling under AFI 1 or 2 (RFC 6514 section 4), and 257 octets have room for each of them.
#[tactic(auto, using(crate::proofs::mvpn_nlri::WritingLemmas::puts_before))]
pub fn encode(route: &Route, out: &mut [u8]) -> usize
    requires spelled { (afi : Afi) × Spells afi route.now (written route.now) }
    requires room { 257 ≤ length out.old }
    ensures len { result ≡ length (written route.now) }
    ensures octets { out.new ≡ put_at out.old 0 (written route.now) }
{
    let end = put_fields(out, 2, route);
    let len = (end - 2) as u8;
    put(out, 0, &[kind_of(route), len]);
    end
}

/// What was written is read again, whatever octets stand after it.
pub fn round_trip(afi: Afi, route: &Route, out: &mut [u8]) -> Result<(Route, usize), RouteFault>
    requires spelled { Spells afi route.now (written route.now) }
    requires room { 257 ≤ length out.old }
    ensures { result ≡ Ok (route.now, length (written route.now)) }
{
    encode(route, out);
    decode(afi, out)
}
