//! The whole text.
ghost use Rattle.std.specs.Prelude.{◌≡◌, ◌++◌, ◌≤◌, OnOk, codes};
ghost use Rattle.generator.specs.Made as made;

use crate::lines;
use mv_base::{Bytes, NoMemory};

fn put_edges(out: &mut Bytes) -> Result<(), NoMemory>
    ensures { OnOk result (out.new ≡ out.old ++ made.each made.edge_line 32) }
{
    for edge in 0..32 {
        lines::put_edge(out, edge + 1)?;
    }
    Ok(())
}

fn put_cores(out: &mut Bytes) -> Result<(), NoMemory>
    ensures { OnOk result (out.new ≡ out.old ++ made.each made.core_line 16) }
{
    for core in 0..16 {
        lines::put_core(out, core + 1)?;
    }
    Ok(())
}

fn put_rings(out: &mut Bytes) -> Result<(), NoMemory>
    ensures { OnOk result (out.new ≡ out.old ++ made.each made.ring_line 16) }
{
    for core in 0..16 {
        lines::put_ring(out, core + 1)?;
    }
    Ok(())
}

fn put_spurs(out: &mut Bytes) -> Result<(), NoMemory>
    ensures { OnOk result (out.new ≡ out.old ++ made.each made.spur_line 32) }
{
    for edge in 0..32 {
        lines::put_spur(out, edge + 1)?;
    }
    Ok(())
}

/// What all VPNs have at an edge.
fn put_edge_attachments(out: &mut Bytes, edge: u32) -> Result<(), NoMemory>
    ensures { OnOk result (out.new ≡ out.old ++ made.each (made.attachment edge) 8) }
{
    for vpn in 0..8 {
        lines::put_attachment(out, edge, vpn + 1)?;
    }
    Ok(())
}

fn put_attachments(out: &mut Bytes) -> Result<(), NoMemory>
    ensures { OnOk result (out.new ≡ out.old ++ made.each (λ edge. made.each (made.attachment edge) 8) 32) }
{
    for edge in 0..32 {
        put_edge_attachments(out, edge + 1)?;
    }
    Ok(())
}

fn put_scenario(out: &mut Bytes) -> Result<(), NoMemory>
    ensures { OnOk result (out.new ≡ out.old ++ made.scenario) }
{
    put_edges(out)?;
    put_cores(out)?;
    put_rings(out)?;
    put_spurs(out)?;
    put_attachments(out)?;
    Ok(())
}

/// The joins of a VPN.
fn put_vpn_joins(out: &mut Bytes, number: u32, vpn: u32) -> Result<(), NoMemory>
    ensures { OnOk result (out.new ≡ out.old ++ made.each (made.join_line number vpn) 32) }
{
    for edge in 0..32 {
        lines::put_join(out, number, vpn, edge + 1)?;
    }
    Ok(())
}

fn put_joins(out: &mut Bytes, number: u32) -> Result<(), NoMemory>
    ensures { OnOk result (out.new ≡ out.old ++ made.joins number) }
{
    for vpn in 0..8 {
        put_vpn_joins(out, number, vpn + 1)?;
    }
    Ok(())
}

fn put_sends(out: &mut Bytes, number: u32, payload: &[u8]) -> Result<(), NoMemory>
    ensures { OnOk result (out.new ≡ out.old ++ made.sends number payload.now) }
{
    for vpn in 0..8 {
        lines::put_send(out, number, payload, vpn + 1)?;
    }
    Ok(())
}

fn put_selects(out: &mut Bytes, number: u32) -> Result<(), NoMemory>
    ensures { OnOk result (out.new ≡ out.old ++ made.selects number) }
{
    for vpn in 0..8 {
        lines::put_select(out, number, vpn + 1)?;
    }
    Ok(())
}

/// The joins, and a datagram of each flow over the inclusive tunnels.
fn put_first_sends(out: &mut Bytes, number: u32) -> Result<(), NoMemory>
    ensures { OnOk result (out.new ≡ out.old ++ made.first_part number) }
{
    out.extend(b"events\nheal\nsettle\ntick 3\nsettle\n")?;
    put_joins(out, number)?;
    out.extend(b"settle\nstate\n")?;
    put_sends(out, number, b"01")?;
    out.extend(b"drain\n")?;
    Ok(())
}

/// The selections, and a datagram of each flow before and after their delay.
fn put_last_sends(out: &mut Bytes, number: u32) -> Result<(), NoMemory>
    ensures { OnOk result (out.new ≡ out.old ++ made.last_part number) }
{
    put_selects(out, number)?;
    out.extend(b"settle\nstate\n")?;
    put_sends(out, number, b"02")?;
    out.extend(b"drain\ntick 3\nsettle\nstate\n")?;
    put_sends(out, number, b"03")?;
    out.extend(b"drain\nstate\n")?;
    Ok(())
}

/// Appends the text of that number. After want of memory nothing is said of what stands.
pub fn put_made(out: &mut Bytes, number: u32) -> Result<(), NoMemory>
    ensures { OnOk result (out.new ≡ out.old ++ made.made number) }
{
    put_scenario(out)?;
    put_first_sends(out, number)?;
    put_last_sends(out, number)?;
    Ok(())
}
