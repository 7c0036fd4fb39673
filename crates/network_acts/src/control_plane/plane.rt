//! The control plane of a network, as its callers have it.
ghost use Rattle.std.specs.Prelude.{◌≡◌, ◌+◌, ◌<◌, ◌^◌, [], ◌∷◌};
ghost use Rattle.mv_base.specs.Lists.{Among};
ghost use Rattle.network_defs.specs.session_defs.Octets.{Call};
ghost use Rattle.network_defs.specs.System.{Elapse};
ghost use Rattle.network_nodes.specs.Faults as EdgeFault;
ghost use Rattle.network_acts.specs.control_plane.Acted.{IsIn, Standing, halt_of};
ghost use Rattle.network_acts.specs.control_plane.Passing.{Passes};
ghost use Rattle.network_acts.specs.control_plane.Plane.{KeepsPlaces};

use core_paths::Core;
use mldp_node::NodeFault;
use net_sessions::session_transit::Transit;
use net_sessions::session_ways::Ways;
use network_nodes::{EdgeFault, NetworkNode};
use std::marker::Model;

/// The nodes of a network, and the octets in transit over its sessions. Contracts see it as a `PlaneView`. It must be closed.
///
/// An act that answers `NoLabel` or `NoMemory` is its last one: of what it does afterwards nothing is said.
pub struct ControlPlane {
    pub(crate) nodes: Vec<NetworkNode>,
    pub(crate) ways: Ways,
    pub(crate) transit: Transit,
    pub(crate) core: Core,
    pub(crate) clock: u64,
}

impl Model for ControlPlane {
    ghost use Rattle.network_acts.specs.control_plane.PlaneView.{PlaneView, plane_code};

    ghost Value = { PlaneView };

    ghost coded = { plane_code };

    ghost view = { λ p. record { nodes = p.nodes.items; ways = p.ways; transit = p.transit; core = p.core; clock = p.clock } };
}

/// What an act at a node answers.
pub type ActAnswer = Result<(), NodeFault>;

/// Why the plane goes no further, where a node is spent by the fault.
pub(crate) fn halt_of(fault: EdgeFault) -> NodeFault
    requires { Among fault (EdgeFault.NoLabel ∷ EdgeFault.NoMemory ∷ []) }
    ensures { result ≡ halt_of fault }
{
    match fault {
        EdgeFault::NoLabel => NodeFault::NoLabel,
        EdgeFault::NoMemory => NodeFault::NoMemory,
        _ => unreachable!(),
    }
}

impl ControlPlane {
    /// So many ticks pass. It takes no memory.
    pub fn elapse(&mut self, ticks: u64)
        requires small { self.old.clock + ticks < 2 ^ 63 }
        ensures acts { (at : Standing) → IsIn at self.old → Passes at (Call (Elapse ticks) ∷ []) at.moment self.new }
        ensures places { KeepsPlaces self.old self.new }
    {
        self.clock += ticks;
    }
}
