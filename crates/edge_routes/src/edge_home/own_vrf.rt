//! The VRFs of an edge.
ghost use Rattle.std.specs.Prelude.{◌≡◌, ◌≤◌, ◌^◌, length, All, IfOk};
ghost use Rattle.edge_routes.specs.edge_home.Home.{own_from};

use crate::LocalVrf;
use mv_base::{NoMemory, NodeId, VrfId};
use scenario_defs::Vrf;
use std::alloc::Global;

/// A VRF of an edge, with its number in the scenario.
#[derive(Clone, Copy)]
pub struct OwnVrf {
    pub id: VrfId,
    pub local: LocalVrf,
}

/// The VRF, with what its routes say of the edge.
fn local_of(vrf: &Vrf, addr: [u8; 4], system: u16) -> LocalVrf
    requires { length vrf.now.targets ≤ 8 }
    ensures { result ≡ record { vrf = vrf.now; addr = addr; system = system } }
{
    match LocalVrf::of(vrf, addr, system) {
        Some(local) => local,
        None => unreachable!(),
    }
}

/// Those of the VRFs that are of the edge, in their order. Each says the edge's address and autonomous system.
pub(crate) fn own_vrfs(
    alloc: Global,
    vrfs: &[Vrf],
    me: NodeId,
    addr: [u8; 4],
    system: u16,
) -> Result<Vec<OwnVrf>, NoMemory>
    requires few { length vrfs.now ≤ 2 ^ 16 }
    requires targets { All (λ vrf. length vrf.targets ≤ 8) vrfs.now }
    ensures { IfOk result (λ own. own.items ≡ own_from addr system me 0 vrfs.now) }
{
    let mut own = Vec::new(alloc);
    for (number, vrf) in vrfs.iter().enumerate() {
        if vrf.edge.0 == me.0 {
            own.push(OwnVrf {
                id: VrfId(number as u16),
                local: local_of(vrf, addr, system),
            })?;
        }
    }
    Ok(own)
}
