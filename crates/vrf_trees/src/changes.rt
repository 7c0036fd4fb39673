//! What changed since the last refresh.
ghost use Rattle.std.specs.Prelude.{◌≡◌, [], map, IfOk};
ghost use Rattle.vrf_trees.specs.Changes.{join_of};

use mv_base::{Addr, NoMemory, NodeId, Rd, Seq};
use selective::Fecs;
use std::alloc::Global;
use vrf_flows::Joins;
use vrf_words::tree_defs::{Flow, Upstream};

/// A Source Tree Join towards another edge, with what its route says (RFC 6514 section 11.1.3).
#[derive(Clone, Copy, PartialEq, Eq)]
pub struct TreeJoin {
    pub edge: NodeId,
    pub rd: Rd,
    /// The VRF Route Import: the edge's address, and the number of the VRF there.
    pub import: (Addr, u16),
    pub source_as: u16,
    pub source: Addr,
    pub group: Addr,
}

/// A list of joins.
pub type TreeJoins = Seq<TreeJoin>;

/// What changed since the last refresh: the joins towards other edges that are made and that are left, and the selective
/// tunnels that are wanted from now on and that are wanted no more.
#[derive(Drop)]
pub struct TreeChanges {
    pub joins: TreeJoins,
    pub leaves: TreeJoins,
    pub wants: Fecs,
    pub unwants: Fecs,
}

impl TreeChanges {
    /// Nothing changed. It takes no memory.
    pub(crate) fn none(alloc: Global) -> TreeChanges
        ensures joins { (result.joins ≡ []) × (result.leaves ≡ []) }
        ensures tunnels { (result.wants ≡ []) × (result.unwants ≡ []) }
    {
        TreeChanges {
            joins: Seq::new(alloc),
            leaves: Seq::new(alloc),
            wants: Seq::new(alloc),
            unwants: Seq::new(alloc),
        }
    }
}

/// The join of a flow for its upstream.
fn join_of(flow: Flow, up: Upstream) -> TreeJoin
    ensures { result ≡ join_of (flow, up) }
{
    TreeJoin {
        edge: up.edge,
        rd: up.rd,
        import: up.import,
        source_as: up.source_as,
        source: flow.source,
        group: flow.group,
    }
}

/// The joins of these flows.
pub(crate) fn joins_of(alloc: Global, ups: &Joins) -> Result<TreeJoins, NoMemory>
    ensures { IfOk result (λ joins. joins ≡ map join_of ups.now.entries) }
{
    let mut joins = Seq::new(alloc);
    for (flow, up) in ups.iter() {
        joins.push(join_of(*flow, *up))?;
    }
    Ok(joins)
}
