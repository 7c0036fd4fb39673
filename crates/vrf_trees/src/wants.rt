//! The selective tunnels that flows want of other edges, kept flow by flow.
ghost use Rattle.std.specs.Prelude.{◌≡◌, true, Some, IfOk};
ghost use Rattle.std.specs.List.{list_any};
ghost use Rattle.indexmap.specs.IndexMap.{get, IsUnique};
ghost use Rattle.selective_defs.specs.Selective.{matches};
ghost use Rattle.vrf_words.specs.declared.tree_defs.flow.Flow.{Flow};
ghost use Rattle.vrf_words.specs.tree_defs.Keys.{same_flow};
ghost use Rattle.vrf_flows.specs.Stale.{is_listed, passes};
ghost use Rattle.vrf_trees.specs.Wants.{has_fec, is_in, is_known, is_news, mark, marked, touches, tunnels_in, wants_of};

use crate::table::WantTable;
use indexmap::IndexMap;
use mldp::mldp_fec::Fec;
use mv_base::{Addr, NoMemory, NodeId, Pattern};
use selective::{Fecs, LeafTunnels};
use std::alloc::Global;
use vrf_flows::StaleFlows;
use vrf_words::tree_defs::Flow;

/// What a flow wants whose upstream is another edge.
#[derive(Drop)]
pub(crate) struct Wants {
    pub edge: NodeId,
    /// Whether a route of the edge that may match the flow was touched since the last refresh.
    pub stale: bool,
    /// Its tunnels at the last refresh.
    pub fecs: Fecs,
}

/// Flows whose upstream is another edge, each with what it wants.
pub(crate) type FlowWants = IndexMap<Flow, Wants>;

/// What touches what flows want.
#[derive(Clone, Copy)]
pub(crate) enum Cause {
    /// Routes of an edge for flows of a pattern.
    Routes(NodeId, Pattern),
    /// All routes of an edge.
    Peer(NodeId),
}

/// Whether the flow is one of the pattern.
fn matches(pattern: &Pattern, source: Addr, group: Addr) -> bool
    ensures { result ≡ matches pattern.now source group }
{
    pattern.matches(source, group)
}

impl Cause {
    /// Whether it touches the flow, where its upstream is that edge.
    fn touches(&self, flow: &Flow, edge: NodeId) -> bool
        ensures { result ≡ touches self.now flow.now edge }
    {
        match self {
            Cause::Routes(peer, pattern) => {
                edge.0 == peer.0 && matches(pattern, flow.source, flow.group)
            }
            Cause::Peer(peer) => edge.0 == peer.0,
        }
    }
}

/// Lists the flows that the cause touches and that are not stale yet. It looks at each flow.
pub(crate) fn list_where(stale: &mut StaleFlows, wants: &FlowWants, cause: &Cause)
    ensures listed { (q : Flow) → passes (is_news cause.now) q (get same_flow wants.now q) ≡ true → is_listed stale.new q ≡ true }
    ensures kept { (q : Flow) → is_listed stale.old q ≡ true → is_listed stale.new q ≡ true }
{
    for (flow, own) in wants.iter() {
        stale.add_if(*flow, !own.stale && cause.touches(flow, own.edge));
    }
}

/// Marks the flows that the cause touches. It looks at each flow, and takes no memory.
pub(crate) fn mark_where(wants: &mut FlowWants, cause: &Cause)
    requires unique { IsUnique same_flow wants.old }
    ensures each { (q : Flow) → get same_flow wants.new q ≡ marked cause.now q (get same_flow wants.old q) }
    ensures unique { IsUnique same_flow wants.new }
    ensures tunnels { tunnels_in wants.new.entries ≡ tunnels_in wants.old.entries }
{
    wants.retain(
        |flow: &Flow, held: &mut Wants| -> bool
            ensures { (result ≡ true) × (held.new ≡ mark cause.entry.now flow.now held.old) }
        {
            held.stale = held.stale || cause.touches(flow, held.edge);
            true
        },
    );
}

/// What a flow wants of the edge, by the routes that were learned.
pub(crate) fn wants_of(
    alloc: Global,
    leaf: &LeafTunnels,
    edge: NodeId,
    flow: Flow,
) -> Result<Wants, NoMemory>
    ensures { IfOk result (λ wants. wants ≡ wants_of leaf.now edge flow) }
{
    let fecs = leaf.wanted(alloc, edge, flow.source, flow.group)?;
    Ok(Wants {
        edge,
        stale: false,
        fecs,
    })
}

/// Whether the tunnel is one of these.
fn is_in(fec: &Fec, fecs: &[Fec]) -> bool
    ensures { result ≡ is_in fec.now fecs.now }
{
    fecs.iter().any(|own| fec == own)
}

impl Wants {
    /// Whether this is not stale, and the tunnel is one that is wanted of the edge.
    fn has(&self, edge: NodeId, fec: &Fec) -> bool
        ensures { result ≡ is_known edge fec.now (Some self.now) }
    {
        !self.stale && self.edge.0 == edge.0 && is_in(fec, self.fecs.as_slice())
    }
}

/// Whether what the flow wants is not stale, and the tunnel is one that it wants of the edge. It is one look-up.
pub(crate) fn is_known(wants: &WantTable, flow: &Flow, edge: NodeId, fec: &Fec) -> bool
    ensures { result ≡ is_known edge fec.now (get same_flow wants.now flow.now) }
{
    match wants.held().get(flow) {
        None => false,
        Some(own) => own.has(edge, fec),
    }
}

/// Whether some flow wants the tunnel.
fn is_wanted_of(wants: &[Wants], fec: &Fec) -> bool
    ensures { result ≡ list_any (has_fec fec.now) wants.now }
{
    wants.iter().any(|own| is_in(fec, own.fecs.as_slice()))
}

/// Whether some flow wants the tunnel.
pub(crate) fn is_wanted(wants: &WantTable, fec: &Fec) -> bool
    ensures { result ≡ is_in fec.now (tunnels_in wants.now.entries) }
{
    is_wanted_of(wants.held().values().as_slice(), fec)
}
