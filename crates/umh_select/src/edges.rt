//! The edges that routes are from, by rising address.
ghost use Rattle.std.specs.Prelude.{◌≡◌, bit_xor, fold};
ghost use Rattle.choice_defs.specs.Choice.{hash_of};
ghost use Rattle.umh_select.specs.Edges.{is_above, lowest};

use crate::key::compare_addrs;
use mv_base::{Addr, NodeId};

/// An edge, with its address.
pub(crate) type Edge = (NodeId, Addr);

/// Whether the second address is above the first one, where there is one.
fn is_above(after: Option<Addr>, address: Addr) -> bool
    ensures { result ≡ is_above after address }
{
    match after {
        None => true,
        Some(after) => compare_addrs(after, address).is_lt(),
    }
}

/// The lower one of two edges, of those above an address, and of one address the second.
pub(crate) fn lowest(after: Option<Addr>, best: Option<Edge>, next: Edge) -> Option<Edge>
    ensures { result ≡ lowest after best next }
{
    if !is_above(after, next.1) {
        return best;
    }
    match best {
        Some(best) if compare_addrs(best.1, next.1).is_lt() => Some(best),
        _ => Some(next),
    }
}

/// The exclusive or of a number and of octets.
fn folded(hash: u8, octets: &[u8]) -> u8
    ensures { result ≡ fold bit_xor hash octets.now }
{
    let mut hash = hash;
    for octet in octets {
        hash ^= *octet;
    }
    hash
}

/// The exclusive or of all octets of a source and a group.
pub(crate) fn hash_of(source: Addr, group: Addr) -> u8
    ensures { result ≡ hash_of source group }
{
    folded(folded(0, source.octets()), group.octets())
}
