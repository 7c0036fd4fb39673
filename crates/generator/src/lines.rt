//! The lines of the text, one by one.
ghost use Rattle.std.specs.Prelude.{◌≡◌, ◌++◌, ◌≤◌, OnOk, codes, decimal};
ghost use Rattle.generator.specs.Made as made;

use mv_base::{Bytes, NoMemory};

/// A text, and a number after it.
fn put_then(out: &mut Bytes, text: &[u8], number: u32) -> Result<(), NoMemory>
    ensures { OnOk result (out.new ≡ out.old ++ text.now ++ decimal number) }
{
    report_text::put_then(out, text, u64::from(number))
}

/// A text, and the number of a VPN and that of an edge after it.
fn put_then_pair(out: &mut Bytes, text: &[u8], vpn: u32, edge: u32) -> Result<(), NoMemory>
    ensures { OnOk result (out.new ≡ out.old ++ text.now ++ made.pair vpn edge) }
{
    put_then(out, text, vpn)?;
    put_then(out, b"_", edge)
}

/// The edge at whose site the source of the VPN's flow is.
fn source_edge(number: u32, vpn: u32) -> u32
    ensures { result ≡ made.source_edge number vpn }
{
    ((u64::from(number) + 5 * u64::from(vpn)) % 32 + 1) as u32
}

/// The first octets of the addresses of a site after a text: the number of the edge and that of the VPN.
fn put_block(out: &mut Bytes, text: &[u8], edge: u32, vpn: u32) -> Result<(), NoMemory>
    ensures { OnOk result (out.new ≡ out.old ++ text.now ++ decimal edge ++ codes "." ++ decimal vpn) }
{
    put_then(out, text, edge)?;
    put_then(out, b".", vpn)
}

/// Source and group of the VPN's flow.
fn put_flow(out: &mut Bytes, number: u32, vpn: u32) -> Result<(), NoMemory>
    ensures { OnOk result (out.new ≡ out.old ++ made.flow number vpn) }
{
    put_block(out, b"10.", source_edge(number, vpn), vpn)?;
    put_then(out, b".9 232.1.1.", vpn)
}

/// A text, the number of the VPN and that of an edge after it, and the VPN's flow.
fn put_then_flow(
    out: &mut Bytes,
    text: &[u8],
    number: u32,
    vpn: u32,
    edge: u32,
) -> Result<(), NoMemory>
    ensures { OnOk result (out.new ≡ out.old ++ text.now ++ made.pair vpn edge ++ codes " " ++ made.flow number vpn) }
{
    put_then_pair(out, text, vpn, edge)?;
    out.extend(b" ")?;
    put_flow(out, number, vpn)
}

/// A node of that number, with an address that ends in it.
fn put_node(out: &mut Bytes, text: &[u8], addr: &[u8], number: u32) -> Result<(), NoMemory>
    ensures { OnOk result (out.new ≡ out.old ++ text.now ++ decimal number ++ addr.now ++ decimal number ++ codes "\n") }
{
    put_then(out, text, number)?;
    put_then(out, addr, number)?;
    out.extend(b"\n")
}

/// A link of a node to a core node.
fn put_link(out: &mut Bytes, text: &[u8], number: u32, core: u32) -> Result<(), NoMemory>
    ensures { OnOk result (out.new ≡ out.old ++ text.now ++ decimal number ++ codes " C" ++ decimal core ++ codes " 1\n") }
{
    put_then(out, text, number)?;
    put_then(out, b" C", core)?;
    out.extend(b" 1\n")
}

pub(crate) fn put_edge(out: &mut Bytes, edge: u32) -> Result<(), NoMemory>
    ensures { OnOk result (out.new ≡ out.old ++ made.edge_line edge) }
{
    put_node(out, b"edge E", b" 192.0.2.", edge)
}

pub(crate) fn put_core(out: &mut Bytes, core: u32) -> Result<(), NoMemory>
    ensures { OnOk result (out.new ≡ out.old ++ made.core_line core) }
{
    put_node(out, b"core C", b" 192.0.3.", core)
}

/// A link of the ring.
pub(crate) fn put_ring(out: &mut Bytes, core: u32) -> Result<(), NoMemory>
    ensures { OnOk result (out.new ≡ out.old ++ made.ring_line core) }
{
    put_link(out, b"link C", core, core % 16 + 1)
}

/// The link of an edge to a core node.
pub(crate) fn put_spur(out: &mut Bytes, edge: u32) -> Result<(), NoMemory>
    requires { 1 ≤ edge }
    ensures { OnOk result (out.new ≡ out.old ++ made.spur_line edge) }
{
    put_link(out, b"link E", edge, (edge - 1) % 16 + 1)
}

fn put_vrf(out: &mut Bytes, edge: u32, vpn: u32) -> Result<(), NoMemory>
    ensures { OnOk result (out.new ≡ out.old ++ made.vrf_line edge vpn) }
{
    put_then_pair(out, b"vrf V", vpn, edge)?;
    put_then(out, b" E", edge)?;
    put_then(out, b" ", vpn)?;
    put_then(out, b" 65000:", vpn)?;
    put_then(out, b" 65000:", vpn)?;
    out.extend(b" highest\n")
}

fn put_site(out: &mut Bytes, edge: u32, vpn: u32) -> Result<(), NoMemory>
    ensures { OnOk result (out.new ≡ out.old ++ made.site_line edge vpn) }
{
    put_then_pair(out, b"site S", vpn, edge)?;
    put_block(out, b" 10.", edge, vpn)?;
    out.extend(b".0/24\n")
}

fn put_iface(out: &mut Bytes, edge: u32, vpn: u32) -> Result<(), NoMemory>
    ensures { OnOk result (out.new ≡ out.old ++ made.iface_line edge vpn) }
{
    put_then_pair(out, b"iface I", vpn, edge)?;
    put_then_pair(out, b" V", vpn, edge)?;
    put_then_pair(out, b" S", vpn, edge)?;
    put_block(out, b" 10.", edge, vpn)?;
    out.extend(b".1\n")
}

/// What a VPN has at an edge.
pub(crate) fn put_attachment(out: &mut Bytes, edge: u32, vpn: u32) -> Result<(), NoMemory>
    ensures { OnOk result (out.new ≡ out.old ++ made.attachment edge vpn) }
{
    put_vrf(out, edge, vpn)?;
    put_site(out, edge, vpn)?;
    put_iface(out, edge, vpn)?;
    Ok(())
}

/// The join of an edge that has a receiver of the VPN's flow.
pub(crate) fn put_join(out: &mut Bytes, number: u32, vpn: u32, edge: u32) -> Result<(), NoMemory>
    ensures { OnOk result (out.new ≡ out.old ++ made.join_line number vpn edge) }
{
    if edge != source_edge(number, vpn)
        && (u64::from(edge) + u64::from(vpn) + u64::from(number)) % 4 == 0
    {
        put_then_flow(out, b"join I", number, vpn, edge)?;
        out.extend(b"\n")
    } else {
        Ok(())
    }
}

/// A datagram of the VPN's flow.
pub(crate) fn put_send(
    out: &mut Bytes,
    number: u32,
    payload: &[u8],
    vpn: u32,
) -> Result<(), NoMemory>
    ensures { OnOk result (out.new ≡ out.old ++ made.send_line number payload.now vpn) }
{
    put_then_flow(out, b"send S", number, vpn, source_edge(number, vpn))?;
    out.extend(b" ")?;
    out.extend(payload)?;
    out.extend(b"\n")
}

/// The selection of the VPN's flow, in every second VPN.
pub(crate) fn put_select(out: &mut Bytes, number: u32, vpn: u32) -> Result<(), NoMemory>
    ensures { OnOk result (out.new ≡ out.old ++ made.select_line number vpn) }
{
    if vpn % 2 == 1 {
        put_then_flow(out, b"select V", number, vpn, source_edge(number, vpn))?;
        out.extend(b"\n")
    } else {
        Ok(())
    }
}
