//! Links whose costs change.
ghost use Rattle.std.specs.Prelude.{◌≡◌, IfOk};
ghost use Rattle.mv_base.specs.core_walks.Costs.{joins, priced, with_cost};

use mv_base::{Link, NoMemory, NodeId};
use std::alloc::Global;

/// Whether the link joins the two nodes.
fn joins(a: NodeId, b: NodeId, link: Link) -> bool
    ensures { result ≡ joins a b link }
{
    (link.a.0 == a.0 && link.b.0 == b.0) || (link.a.0 == b.0 && link.b.0 == a.0)
}

/// The link, at that cost where it joins the two nodes.
fn priced(a: NodeId, b: NodeId, cost: u32, link: Link) -> Link
    ensures { result ≡ priced a b cost link }
{
    if joins(a, b, link) {
        Link { cost, ..link }
    } else {
        link
    }
}

/// The links, that between the two nodes at that cost.
pub(crate) fn with_cost(
    alloc: Global,
    links: &[Link],
    a: NodeId,
    b: NodeId,
    cost: u32,
) -> Result<Vec<Link>, NoMemory>
    ensures { IfOk result (λ new. new.items ≡ with_cost a b cost links.now) }
{
    let mut new = Vec::new(alloc);
    for link in links {
        new.push(priced(a, b, cost, *link))?;
    }
    Ok(new)
}
