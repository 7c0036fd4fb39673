//! Trees in their order.
ghost use Rattle.std.specs.Prelude.{◌≡◌, IfOk};
ghost use Rattle.std.specs.FinSet as sets;
ghost use Rattle.std.specs.Ordering.{nat_cmp};
ghost use Rattle.std.specs.Cmp.Lexicographic.{slice_cmp};
ghost use Rattle.mv_base.specs.Address.{addr_front};
ghost use Rattle.label_defs.specs.Keys.{kind_key, fec_cmp};
ghost use Rattle.label_defs.specs.Members.{in_order};

use mldp::mldp_fec::{Fec, FecKind};
use mv_base::{Addr, NoMemory};
use std::cmp::Ordering;

/// The number by which a kind is ordered.
fn number(kind: FecKind) -> u8
    ensures { result ≡ kind_key kind }
{
    match kind {
        FecKind::P2mp => 0,
        FecKind::Up => 1,
        FecKind::Down => 2,
    }
}

/// The order of roots: those of IPv4 first, and then by their octets.
fn compare_roots(own: Addr, other: Addr) -> Ordering
    ensures { result ≡ slice_cmp nat_cmp (addr_front own) (addr_front other) }
{
    match (own, other) {
        (Addr::V4(octets), Addr::V4(others)) => octets.as_slice().cmp(others.as_slice()),
        (Addr::V6(octets), Addr::V6(others)) => octets.as_slice().cmp(others.as_slice()),
        (Addr::V4(_), Addr::V6(_)) => Ordering::Less,
        (Addr::V6(_), Addr::V4(_)) => Ordering::Greater,
    }
}

/// The order of trees: by kind, by root, and then by the octets of the opaque value.
fn compare(own: &Fec, other: &Fec) -> Ordering
    ensures { result ≡ fec_cmp own.now other.now }
{
    number(own.kind)
        .cmp(&number(other.kind))
        .then(compare_roots(own.root, other.root))
        .then(own.opaque.octets().cmp(other.opaque.octets()))
}

/// The trees in their order, each once.
pub fn in_order(fecs: Vec<Fec>) -> Result<Vec<Fec>, NoMemory>
    ensures { IfOk result (λ ordered. ordered.items ≡ in_order (sets.from_list {R = fec_cmp} fecs.items)) }
{
    let mut fecs = fecs;
    fecs.sort_by(|own, other| compare(own, other))?;
    fecs.dedup();
    Ok(fecs)
}
