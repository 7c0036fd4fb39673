//! The VRF that a join names at its upstream (RFC 6514 sections 7 and 11.1.3).
ghost use Rattle.std.specs.Prelude.{◌≡◌};
ghost use Rattle.mv_base.specs.Number.{◌>>?◌};
ghost use Rattle.vrf_words.specs.tree_laws.Joins.{first_told, is_join_to};
ghost use Rattle.edge_routing.specs.edge_joins.Upstreams.{import_at, remote_by};

use edge_control::of_vrf_trees::{TreeJoin, VrfTree};
use edge_routes::{Import, RemoteUpstream};
use mv_base::Addr;
use vrf_words::tree_defs::Upstream;

/// Whether the join is towards the upstream: that is its edge, with its RD and Source AS.
fn is_towards(join: &TreeJoin, upstream: &Upstream) -> bool
    ensures { result ≡ is_join_to join.now.edge join.now.rd join.now.source_as upstream.now }
{
    upstream.edge.0 == join.edge.0
        && upstream.rd.0 == join.rd.0
        && upstream.source_as == join.source_as
}

/// The VRF Route Import of the upstream of the flow in the VRF, where the join is towards it.
fn import_at(join: &TreeJoin, tree: &VrfTree) -> Option<(Addr, u16)>
    ensures { result ≡ import_at join.now tree.now }
{
    let upstream = tree.upstream(join.source, join.group)?;
    if is_towards(join, &upstream) {
        Some(upstream.import)
    } else {
        None
    }
}

/// That of the first of the VRFs that has one.
pub(crate) fn first_import(join: &TreeJoin, trees: &[VrfTree]) -> Option<(Addr, u16)>
    ensures { result ≡ first_told (import_at join.now) trees.now }
{
    for tree in trees {
        let import = import_at(join, tree);
        if import.is_some() {
            return import;
        }
    }
    None
}

/// What the join towards the VRF of that import says, where the import has an IPv4 address.
pub(crate) fn remote(join: &TreeJoin, import: Option<(Addr, u16)>) -> Option<RemoteUpstream>
    ensures { result ≡ (import >>? remote_by join.now) }
{
    match import {
        Some((Addr::V4(addr), number)) => Some(RemoteUpstream {
            rd: join.rd,
            import: Import { addr, number },
            source_as: join.source_as,
        }),
        _ => None,
    }
}
