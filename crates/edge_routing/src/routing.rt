//! What an edge keeps, and what it sends its peers.
ghost use Rattle.std.specs.Prelude.{◌≡◌, IfOk, [], map};
ghost use Rattle.mv_base.specs.declared.ids.NodeId.{NodeId};
ghost use Rattle.edge_defs.specs.Edge.{no_control};
ghost use Rattle.edge_routes.specs.edge_home.Home.{IsHome, home_of};
ghost use Rattle.edge_control.specs.edge_tables.Tables.{waiting_at};
ghost use Rattle.control_laws.specs.Control.{AreTrees, control_of};
ghost use Rattle.edge_routing.specs.Routing.{IsInStep};

use edge_control::EdgeControl;
use edge_control::of_edge_tables::EdgeTables;
use edge_routes::edge_home::SharedScenario;
use held_tables::start;
use mldp::mldp_fec::Fec;
use mv_base::{NoMemory, NodeId};
use std::alloc::Global;

/// What an edge keeps of its customers and of its peers, and the tables that it holds towards the peers.
#[derive(Drop)]
pub struct EdgeRouting {
    pub control: EdgeControl,
    pub tables: EdgeTables,
}

/// Trees of which an edge may become or stop being a leaf by a step, in no order; and those of them of which it is to be one.
#[derive(Drop)]
pub struct LeafCandidates {
    pub candidates: Vec<Fec>,
    pub leaves: Vec<Fec>,
}

impl LeafCandidates {
    /// No tree.
    pub(crate) fn none(alloc: Global) -> LeafCandidates
        ensures candidates { result.candidates.items ≡ [] }
        ensures leaves { result.leaves.items ≡ [] }
    {
        LeafCandidates {
            candidates: Vec::new(alloc),
            leaves: Vec::new(alloc),
        }
    }
}

/// Tables towards the other edges, in which each is to have what the edge holds for it before anything has happened.
fn first_tables(alloc: Global, control: &EdgeControl) -> Result<EdgeTables, NoMemory>
    requires nothing { control_of control.now ≡ no_control }
    requires wanted { AreTrees control.now }
    ensures step { IfOk result (λ tables. IsInStep (record { control = control.now; tables = tables })) }
    ensures silent { IfOk result (λ tables. (peer : NodeId) → waiting_at tables peer ≡ []) }
{
    let home = control.home();
    let peers = home.peers(alloc)?;
    let mut tables = EdgeTables::of(alloc, &peers)?;
    start(&mut tables, alloc, home)?;
    Ok(tables)
}

impl EdgeRouting {
    /// Nothing has happened yet: each peer is to have what the edge originates for its VRFs alone. The scenario is shared.
    pub fn of(alloc: Global, scenario: &SharedScenario, me: NodeId) -> Result<EdgeRouting, NoMemory>
        requires { IsHome scenario.now me }
        ensures home { IfOk result (λ edge. edge.control.home ≡ home_of scenario.now me) }
        ensures nothing { IfOk result (λ edge. control_of edge.control ≡ no_control) }
        ensures step { IfOk result IsInStep }
        ensures silent { IfOk result (λ edge. (peer : NodeId) → waiting_at edge.tables peer ≡ []) }
    {
        let control = EdgeControl::of(alloc, scenario, me)?;
        let tables = first_tables(alloc, &control)?;
        Ok(EdgeRouting { control, tables })
    }
}
