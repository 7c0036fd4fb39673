//! The tunnels of edges: mLDP P2MP LSPs whose opaque value is one Generic LSP Identifier (RFC 6388 section 2.3.1).
ghost use Rattle.std.specs.Prelude.{◌≡◌, ◌∷◌, true, Some, IfSome};
ghost use Rattle.edge_defs.specs.Imported.{lsp_of, tunnel_by};
ghost use Rattle.edge_defs.specs.label_defs.Node.{is_p2mp};
ghost use Rattle.edge_defs.specs.Place.{is_lsp_opaque, lsp, tunnel_number};
ghost use Rattle.edge_routes.specs.Judged.{value_of};
ghost use Rattle.edge_routes.specs.KeptPmsi.{lsp_by};

use crate::TakenValue;
use bgp_values::of_mldp::mldp_fec::{Fec, FecKind, Opaque};
use bgp_values::pmsi_attr::{Pmsi, Tunnel};
use mv_base::Addr;
use scenario_defs::Vrf;

/// The number of a tunnel of the VRF: that of its inclusive tunnel for 0, and of a selective one for the number of its selection,
/// which is from 1 on and below 2^20.
pub fn tunnel_number(vrf: &Vrf, number: u32) -> u64
    ensures { result ≡ tunnel_number vrf.now number }
{
    u64::from(vrf.number) * 1_048_576 + u64::from(number)
}

/// The opaque value of the Generic LSP Identifier of these octets.
fn lsp_opaque(identifier: [u8; 4]) -> Opaque
    ensures octets { result ≡ 1 ∷ 0 ∷ 4 ∷ identifier }
    ensures used { is_lsp_opaque result ≡ true }
{
    let [a, b, c, d] = identifier;
    match Opaque::of(&[1, 0, 4, a, b, c, d]) {
        Some(opaque) => opaque,
        None => unreachable!(),
    }
}

/// The P2MP LSP of that root and of the Generic LSP Identifier of these octets.
pub(crate) fn lsp_by(root: Addr, identifier: [u8; 4]) -> Fec
    ensures fec { result ≡ lsp_by root identifier }
    ensures used { is_lsp_opaque result.opaque ≡ true }
{
    Fec {
        kind: FecKind::P2mp,
        root,
        opaque: lsp_opaque(identifier),
    }
}

/// The P2MP LSP of that root and Generic LSP Identifier. Of the number its low 32 bits count.
pub fn lsp(root: Addr, number: u64) -> Fec
    ensures { result ≡ lsp root number }
{
    let [_, _, _, _, a, b, c, d] = number.to_be_bytes();
    lsp_by(root, [a, b, c, d])
}

/// Whether the opaque value is one Generic LSP Identifier.
fn is_lsp_opaque(octets: &[u8]) -> bool
    ensures { result ≡ is_lsp_opaque octets.now }
{
    octets.starts_with(&[1, 0, 4]) && octets.len() == 7
}

/// The octets of the Generic LSP Identifier that the opaque value is, where it is one.
fn identifier_in(octets: &[u8]) -> Option<[u8; 4]>
    ensures { IfSome result (λ identifier. octets.now ≡ 1 ∷ 0 ∷ 4 ∷ identifier) }
{
    match octets {
        [1, 0, 4, a, b, c, d] => Some([*a, *b, *c, *d]),
        _ => None,
    }
}

fn is_p2mp(kind: FecKind) -> bool
    ensures { result ≡ is_p2mp kind }
{
    match kind {
        FecKind::P2mp => true,
        FecKind::Up | FecKind::Down => false,
    }
}

/// The octets of the Generic LSP Identifier of the LSP, where it is P2MP and its opaque value is one.
pub(crate) fn identifier_of(fec: &Fec) -> Option<[u8; 4]>
    ensures { IfSome result (λ identifier. fec.now ≡ lsp_by fec.now.root identifier) }
{
    if is_p2mp(fec.kind) {
        identifier_in(fec.opaque.octets())
    } else {
        None
    }
}

/// The FEC of the tunnel, where it is an mLDP P2MP LSP with one Generic LSP Identifier.
pub(crate) fn lsp_of(pmsi: &Option<Pmsi>) -> Option<Fec>
    ensures { result ≡ lsp_of pmsi.now }
{
    match pmsi {
        Some(
            Pmsi {
                leaf_info: _,
                tunnel: Tunnel::Mldp(fec),
                label: _,
            },
        ) => {
            if is_p2mp(fec.kind) && is_lsp_opaque(fec.opaque.octets()) {
                Some(*fec)
            } else {
                None
            }
        }
        _ => None,
    }
}

/// The FEC of the tunnel of a route that was taken from the peer of that address, where it is such a tunnel, and its root, the
/// originator and the peer are one address (a condition of this project's profile).
pub fn tunnel_by(peer: Addr, originator: Addr, value: &TakenValue) -> Option<Fec>
    ensures { result ≡ tunnel_by peer originator (value_of value.now) }
{
    let fec = value.pmsi.lsp()?;
    if fec.root.same(peer) && originator.same(peer) {
        Some(fec)
    } else {
        None
    }
}
