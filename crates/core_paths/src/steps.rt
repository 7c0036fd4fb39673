//! Rows of first steps: where the walks of least cost to one node lead first, from each node.
ghost use Rattle.std.specs.Prelude.{◌≡◌, ◌<◌, ℕ, length, All, IfOk, slice_index};
ghost use Rattle.mv_base.specs.core_walks.Topology.{HasEnds, IsTopology};
ghost use Rattle.core_paths.specs.Rows.{noted, noted_link, noted_all, far, IsCostRow, IsStepRow};

use mv_base::{Link, NoMemory};
use std::alloc::Global;

/// The entry of a node for which no first step is known. It is above the number of every node.
const NO_STEP: u16 = u16::MAX;

/// Lowers the entry of `from` to `via`, if a walk of least cost leads there.
fn note(nexts: &mut [u16], row: &[u32], from: u16, via: u16, cost: u32)
    requires size { length nexts.old ≡ length row.now }
    requires from { from < length row.now }
    requires via { via < length row.now }
    ensures { nexts.new ≡ noted row.now nexts.old from via cost }
{
    let at = usize::from(from);
    let through = u64::from(row[usize::from(via)]) + u64::from(cost);
    if through == u64::from(row[at]) && via < nexts[at] {
        nexts[at] = via;
    }
}

fn note_link(nexts: &mut [u16], row: &[u32], link: Link)
    requires size { length nexts.old ≡ length row.now }
    requires ends { HasEnds (length row.now) link }
    ensures { nexts.new ≡ noted_link row.now nexts.old link }
{
    note(nexts, row, link.a.0, link.b.0, link.cost);
    note(nexts, row, link.b.0, link.a.0, link.cost);
}

fn note_all(nexts: &mut [u16], row: &[u32], links: &[Link])
    requires size { length nexts.old ≡ length row.now }
    requires ends { All (HasEnds (length row.now)) links.now }
    ensures { nexts.new ≡ noted_all row.now nexts.old links.now }
{
    for link in links {
        note_link(nexts, row, *link);
    }
}

/// The first steps toward `root`, by the least costs toward it.
pub(crate) fn steps_toward(
    alloc: Global,
    nodes: u16,
    links: &[Link],
    root: u16,
    row: &[u32],
) -> Result<Vec<u16>, NoMemory>
    requires topology { IsTopology nodes links.now }
    requires row { IsCostRow links.now nodes root row.now }
    requires near { (k : ℕ) → k < nodes → slice_index row.now k < far }
    ensures { IfOk result (λ nexts. IsStepRow links.now nodes root nexts.items) }
{
    let mut nexts = vec![in alloc; NO_STEP; usize::from(nodes)]?;
    note_all(&mut nexts, row, links);
    Ok(nexts)
}
