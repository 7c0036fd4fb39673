//! The tables of a core.
ghost use Rattle.std.specs.Prelude.{◌≡◌, IfOk, IfSome, IfNone};
ghost use Rattle.mv_base.specs.core_walks.Topology.{IsTopology, IsConnected, IsFirstUnreached};
ghost use Rattle.core_paths.specs.Rows.{IsFirstFar, IsNear};
ghost use Rattle.core_paths.specs.Tables.{IsCostTable, IsStepTable};

use crate::rows::{FAR, row_toward};
use crate::steps::steps_toward;
use mv_base::{Link, NoMemory, NodeId};
use std::alloc::Global;

/// The place of the first node from which no walk is known.
fn first_far(row: &[u32]) -> Option<usize>
    ensures some { IfSome result (IsFirstFar row.now) }
    ensures none { IfNone result (IsNear row.now) }
{
    row.iter().position(|cost| *cost == FAR)
}

/// The lowest node that is not reached from node 0.
pub(crate) fn first_unreached(
    alloc: Global,
    nodes: u16,
    links: &[Link],
) -> Result<Option<NodeId>, NoMemory>
    requires { IsTopology nodes links.now }
    ensures some { IfOk result (λ answer. IfSome answer (λ node. IsFirstUnreached nodes links.now node.0)) }
    ensures none { IfOk result (λ answer. IfNone answer (IsConnected nodes links.now)) }
{
    if nodes == 0 {
        return Ok(None);
    }
    let row = row_toward(alloc, nodes, links, 0)?;
    match first_far(&row) {
        Some(place) => Ok(Some(NodeId(place as u16))),
        None => Ok(None),
    }
}

/// The rows toward node 0, node 1 and so on, end to end.
#[derive(Drop)]
pub(crate) struct Tables {
    pub(crate) costs: Vec<u32>,
    pub(crate) nexts: Vec<u16>,
}

pub(crate) fn all_rows(alloc: Global, nodes: u16, links: &[Link]) -> Result<Tables, NoMemory>
    requires topology { IsTopology nodes links.now }
    requires connected { IsConnected nodes links.now }
    ensures costs { IfOk result (λ tables. IsCostTable links.now nodes nodes tables.costs.items) }
    ensures nexts { IfOk result (λ tables. IsStepTable links.now nodes nodes tables.nexts.items) }
{
    let mut costs = Vec::new(alloc);
    let mut nexts = Vec::new(alloc);
    for to in 0..nodes {
        let row = row_toward(alloc, nodes, links, to)?;
        let steps = steps_toward(alloc, nodes, links, to, &row)?;
        costs.extend_from_slice(&row)?;
        nexts.extend_from_slice(&steps)?;
    }
    Ok(Tables { costs, nexts })
}
