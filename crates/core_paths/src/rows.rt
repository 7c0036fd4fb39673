//! Rows of least costs: what a walk to one node costs at least, from each node.
ghost use Rattle.std.specs.Prelude.{◌≡◌, ◌<◌, length, All, IfOk};
ghost use Rattle.std.specs.List.{list_all};
ghost use Rattle.mv_base.specs.core_walks.Topology.{HasEnds, IsTopology};
ghost use Rattle.core_paths.specs.Rows.{relaxed, relaxed_link, relaxed_all, is_tight, IsCostRow};

use mv_base::{Link, NoMemory};
use std::alloc::Global;

/// The entry of a node from which no walk is known. It is above the cost of every walk that passes no node twice.
pub(crate) const FAR: u32 = u32::MAX;

/// Lowers the entry of `from` to the cost by way of `via`, if that is less.
fn relax(row: &mut [u32], from: usize, via: usize, cost: u32)
    requires from { from < length row.old }
    requires via { via < length row.old }
    ensures { row.new ≡ relaxed row.old from via cost }
{
    let through = u64::from(row[via]) + u64::from(cost);
    if through < u64::from(row[from]) {
        row[from] = through as u32;
    }
}

fn relax_link(row: &mut [u32], link: Link)
    requires { HasEnds (length row.old) link }
    ensures { row.new ≡ relaxed_link row.old link }
{
    let a = usize::from(link.a.0);
    let b = usize::from(link.b.0);
    relax(row, a, b, link.cost);
    relax(row, b, a, link.cost);
}

fn relax_all(row: &mut [u32], links: &[Link])
    requires { All (HasEnds (length row.old)) links.now }
    ensures { row.new ≡ relaxed_all row.old links.now }
{
    for link in links {
        relax_link(row, *link);
    }
}

/// Whether the link makes no entry lower.
fn is_tight(row: &[u32], link: Link) -> bool
    requires { HasEnds (length row.now) link }
    ensures { result ≡ is_tight row.now link }
{
    let a = u64::from(row[usize::from(link.a.0)]);
    let b = u64::from(row[usize::from(link.b.0)]);
    a <= b + u64::from(link.cost) && b <= a + u64::from(link.cost)
}

fn all_tight(row: &[u32], links: &[Link]) -> bool
    requires { All (HasEnds (length row.now)) links.now }
    ensures { result ≡ list_all (is_tight row.now) links.now }
{
    links.iter().all(|link| is_tight(row, *link))
}

/// The least costs toward `root`, by Bellman and Ford: each link is looked at until none makes an entry lower.
pub(crate) fn row_toward(
    alloc: Global,
    nodes: u16,
    links: &[Link],
    root: u16,
) -> Result<Vec<u32>, NoMemory>
    requires topology { IsTopology nodes links.now }
    requires root { root < nodes }
    ensures { IfOk result (λ row. IsCostRow links.now nodes root row.items) }
{
    let mut row = vec![in alloc; FAR; usize::from(nodes)]?;
    row[usize::from(root)] = 0;
    while !all_tight(&row, links) {
        relax_all(&mut row, links);
    }
    Ok(row)
}
