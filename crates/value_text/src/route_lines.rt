//! MCAST-VPN routes, and their lines.
ghost use Rattle.std.specs.Prelude.{◌≡◌, ◌++◌, ◌+◌, ◌<◌, ◌^◌, OnOk, codes};
ghost use Rattle.hex.specs.Hex.{encode_lower};
ghost use Rattle.value_text.specs.ValueText.{any_text, intra_text, active_text, inter_text, selective_text, flow_text, join_text};
ghost use Rattle.value_text.specs.ValueText.{key_text, route_text, route_line, route_word, refused_line};

use crate::addr_text::put_addr;
use crate::refused::put_refused;
use bgp_values::mvpn_nlri::{LeafKey, Route, RouteFault, RouteReason};
use mv_base::{Addr, Bytes, NoMemory, Rd};
use report_text::{put_digits, put_hex, put_number, put_then};

/// Appends a word, a route distinguisher and a space.
pub fn put_with_rd(out: &mut Bytes, word: &[u8], rd: &Rd) -> Result<(), NoMemory>
    ensures { OnOk result (out.new ≡ out.old ++ word.now ++ encode_lower rd.now.0 ++ codes " ") }
{
    out.extend(word)?;
    put_digits(out, &rd.0)?;
    out.extend(b" ")
}

fn put_any(out: &mut Bytes, addr: &Option<Addr>) -> Result<(), NoMemory>
    ensures { OnOk result (out.new ≡ out.old ++ any_text addr.now) }
{
    match addr {
        None => out.extend(b"*"),
        Some(addr) => put_addr(out, addr),
    }
}

fn put_intra(out: &mut Bytes, rd: &Rd, originator: &Addr) -> Result<(), NoMemory>
    ensures { OnOk result (out.new ≡ out.old ++ intra_text rd.now originator.now) }
{
    put_with_rd(out, b"intra ", rd)?;
    put_addr(out, originator)
}

fn put_inter(out: &mut Bytes, rd: &Rd, source_as: u32) -> Result<(), NoMemory>
    ensures { OnOk result (out.new ≡ out.old ++ inter_text rd.now source_as) }
{
    put_with_rd(out, b"inter ", rd)?;
    put_number(out, u64::from(source_as))
}

fn put_selective(
    out: &mut Bytes,
    rd: &Rd,
    source: &Option<Addr>,
    group: &Option<Addr>,
    originator: &Addr,
) -> Result<(), NoMemory>
    ensures { OnOk result (out.new ≡ out.old ++ selective_text rd.now source.now group.now originator.now) }
{
    put_with_rd(out, b"selective ", rd)?;
    put_any(out, source)?;
    out.extend(b" ")?;
    put_any(out, group)?;
    out.extend(b" ")?;
    put_addr(out, originator)
}

fn put_flow(out: &mut Bytes, source: &Addr, group: &Addr) -> Result<(), NoMemory>
    ensures { OnOk result (out.new ≡ out.old ++ flow_text source.now group.now) }
{
    put_addr(out, source)?;
    out.extend(b" ")?;
    put_addr(out, group)
}

fn put_active(out: &mut Bytes, rd: &Rd, source: &Addr, group: &Addr) -> Result<(), NoMemory>
    ensures { OnOk result (out.new ≡ out.old ++ active_text rd.now source.now group.now) }
{
    put_with_rd(out, b"active ", rd)?;
    put_flow(out, source, group)
}

/// Appends a route by which a flow is joined, by its first word.
fn put_join(
    out: &mut Bytes,
    word: &[u8],
    rd: &Rd,
    source_as: u32,
    source: &Addr,
    group: &Addr,
) -> Result<(), NoMemory>
    ensures { OnOk result (out.new ≡ out.old ++ word.now ++ join_text rd.now source_as source.now group.now) }
{
    put_with_rd(out, word, rd)?;
    put_number(out, u64::from(source_as))?;
    out.extend(b" ")?;
    put_flow(out, source, group)
}

fn put_key(out: &mut Bytes, key: &LeafKey) -> Result<(), NoMemory>
    ensures { OnOk result (out.new ≡ out.old ++ key_text key.now) }
{
    match key {
        LeafKey::Inter { rd, source_as } => put_inter(out, rd, *source_as),
        LeafKey::Selective {
            rd,
            source,
            group,
            originator,
        } => put_selective(out, rd, source, group, originator),
    }
}

/// Appends a route.
pub fn put_route(out: &mut Bytes, route: &Route) -> Result<(), NoMemory>
    ensures { OnOk result (out.new ≡ out.old ++ route_text route.now) }
{
    match route {
        Route::Intra { rd, originator } => put_intra(out, rd, originator),
        Route::Inter { rd, source_as } => put_inter(out, rd, *source_as),
        Route::Selective {
            rd,
            source,
            group,
            originator,
        } => put_selective(out, rd, source, group, originator),
        Route::Leaf { key, originator } => {
            out.extend(b"leaf ")?;
            put_addr(out, originator)?;
            out.extend(b" ")?;
            put_key(out, key)
        }
        Route::Active { rd, source, group } => put_active(out, rd, source, group),
        Route::SharedJoin {
            rd,
            source_as,
            source,
            group,
        } => put_join(out, b"shared ", rd, *source_as, source, group),
        Route::SourceJoin {
            rd,
            source_as,
            source,
            group,
        } => put_join(out, b"source ", rd, *source_as, source, group),
        Route::Other(kind, octets) => {
            put_then(out, b"other ", u64::from(*kind))?;
            out.extend(b" ")?;
            put_hex(out, octets.octets())
        }
    }
}

/// Appends the line of a route.
pub fn put_route_line(out: &mut Bytes, route: &Route) -> Result<(), NoMemory>
    ensures { OnOk result (out.new ≡ out.old ++ route_line route.now) }
{
    put_route(out, route)?;
    out.extend(b"\n")
}

/// The word of a fault of a route.
pub fn route_word(reason: RouteReason) -> &'static [u8]
    ensures { result.now ≡ route_word reason }
{
    match reason {
        RouteReason::Short => b"short",
        RouteReason::LengthTooSmall => b"length-too-small",
        RouteReason::LengthTooLarge => b"length-too-large",
        RouteReason::SourceLength => b"source-length",
        RouteReason::GroupLength => b"group-length",
        RouteReason::Wildcard => b"wildcard",
        RouteReason::OriginatorLength => b"originator-length",
        RouteReason::KeyType => b"key-type",
        RouteReason::GroupNotMulticast => b"group-not-multicast",
    }
}

/// Appends the line of a fault of a route that was met after so many octets.
pub fn put_route_fault(
    out: &mut Bytes,
    thereafter: usize,
    fault: &RouteFault,
) -> Result<(), NoMemory>
    requires { thereafter < 2 ^ 63 }
    ensures { OnOk result (out.new ≡ out.old ++ refused_line (thereafter + fault.now.place) (route_word fault.now.reason)) }
{
    put_refused(
        out,
        thereafter + fault.place as usize,
        route_word(fault.reason),
    )
}
