//! What is reported of an edge that was given the lines of a probe.
ghost use Rattle.std.specs.Prelude.{◌≡◌, ◌++◌, ◌≤◌, ◌<◌, length, slice_get, List, Some, IfOk, OnOk};
ghost use Rattle.mv_base.specs.Lists.{Among};
ghost use Rattle.mv_base.specs.core_walks.Topology.{Topology};
ghost use Rattle.edge_core.specs.State.{home_of};
ghost use Rattle.edge_routes.specs.edge_home.Home.{peers_of};
ghost use Rattle.probe_defs.specs.Given.{messages_in};
ghost use Rattle.probe_defs.specs.Lines.{octets_of};
ghost use Rattle.probe_defs.specs.Probed.{imports_of, table_of};
ghost use Rattle.probe_defs.specs.declared.probe.ProbeLine.{ProbeLine as Line};
ghost use Rattle.edge_probe.specs.Behind.{IsGiven, taken_by};

use edge_core::Edge;
use mv_base::{NoMemory, NodeId, VrfId};
use probe_defs::Imports;
use scenario_defs::{Scenario, Vrf};
use std::alloc::Global;

/// Adds what the VRF of that number takes from the peer, if it is one of the edge.
fn add_vrf(
    imports: &mut Imports,
    own: &Edge,
    alloc: Global,
    me: NodeId,
    number: usize,
    vrf: &Vrf,
) -> Result<(), NoMemory>
    requires me { (home_of own.now).me ≡ me }
    requires few { number < 256 }
    requires at { slice_get (home_of own.now).scenario.vrfs number ≡ Some vrf.now }
    requires given { (core : Topology) × (peer : NodeId) × (done : List Line) × IsGiven core peer done own.now × Among peer (peers_of (home_of own.now)) }
    ensures { (core : Topology) (peer : NodeId) (done : List Line) → IsGiven core peer done own.now → Among peer (peers_of (home_of own.now)) →
        OnOk result (imports.new ≡ imports.old ++ taken_by me number vrf.now (table_of (messages_in (octets_of done)))) }
{
    if vrf.edge.0 != me.0 {
        return Ok(());
    }
    let id = VrfId(number as u16);
    let keys = own.imports(alloc, id)?;
    imports.push_vrf(id, keys)
}

/// What the VRFs of the edge take from the peer, VRF after VRF, each in the order of keys.
pub(crate) fn imports_of(
    own: &Edge,
    alloc: Global,
    scenario: &Scenario,
    me: NodeId,
) -> Result<Imports, NoMemory>
    requires home { home_of own.now ≡ record { scenario = scenario.now; me = me } }
    requires few { length scenario.now.vrfs ≤ 256 }
    requires given { (core : Topology) × (peer : NodeId) × (done : List Line) × IsGiven core peer done own.now × Among peer (peers_of (home_of own.now)) }
    ensures { (core : Topology) (peer : NodeId) (done : List Line) → IsGiven core peer done own.now → Among peer (peers_of (home_of own.now)) →
        IfOk result (λ imports. imports ≡ imports_of scenario.now me (table_of (messages_in (octets_of done)))) }
{
    let mut imports = Imports::new(alloc);
    let vrfs = scenario.vrfs.as_slice();
    for number in 0..vrfs.len() {
        add_vrf(&mut imports, own, alloc, me, number, &vrfs[number])?;
    }
    Ok(imports)
}
