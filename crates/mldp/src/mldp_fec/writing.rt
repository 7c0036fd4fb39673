//! Writing a FEC element.
ghost use Rattle.std.specs.Prelude.{◌≡◌, ◌≤◌, ◌+◌, length};
ghost use Rattle.mv_base.specs.Writing.{put_at};
ghost use Rattle.mldp.specs.mldp_fec.Spelling.{Spells, written, kind_octet, root};

use crate::mldp_fec::fault::FecFault;
use crate::mldp_fec::fec::{Fec, FecKind};
use crate::mldp_fec::reading::decode;
use mv_base::{Addr, put};

fn octet_of(kind: FecKind) -> u8
    ensures { result ≡ kind_octet kind }
{
    match kind {
        FecKind::P2mp => 6,
        FecKind::Up => 7,
        FecKind::Down => 8,
    }
}

#[tactic(auto, using(mv_base::proofs::Fields::puts))]
fn put_root(out: &mut [u8], place: usize, addr: &Addr) -> usize
    requires { place + length (root addr.now) ≤ length out.old }
    ensures place { result ≡ place + length (root addr.now) }
    ensures octets { out.new ≡ put_at out.old place (root addr.now) }
{
    match addr {
        Addr::V4(octets) => {
            let place = put(out, place, &[0, 1, 4]);
            put(out, place, octets)
        }
        Addr::V6(octets) => {
            let place = put(out, place, &[0, 2, 16]);
            put(out, place, octets)
        }
    }
}

/// Writes the FEC element to the front, and answers how many octets it has. The others stay.
#[tactic(auto, using(mv_base::proofs::Fields::puts))]
pub fn encode(fec: &Fec, out: &mut [u8]) -> usize
    requires spelled { Spells fec.now (written fec.now) }
    requires room { 86 ≤ length out.old }
    ensures len { result ≡ length (written fec.now) }
    ensures octets { out.new ≡ put_at out.old 0 (written fec.now) }
{
    let opaque = fec.opaque.octets();
    let place = put(out, 0, &[octet_of(fec.kind)]);
    let place = put_root(out, place, &fec.root);
    let place = put(out, place, &(opaque.len() as u16).to_be_bytes());
    put(out, place, opaque)
}

/// What was written is read again, whatever octets stand after it.
pub fn round_trip(fec: &Fec, out: &mut [u8]) -> Result<(Fec, usize), FecFault>
    requires spelled { Spells fec.now (written fec.now) }
    requires room { 86 ≤ length out.old }
    ensures { result ≡ Ok (fec.now, length (written fec.now)) }
{
    encode(fec, out);
    decode(out)
}
