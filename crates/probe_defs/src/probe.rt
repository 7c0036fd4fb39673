//! The lines of a probe, and its report.
ghost use Rattle.std.specs.Prelude.{◌≡◌, [], ◌++◌, OnOk};
ghost use Rattle.std.specs.List.{flat_map};
ghost use Rattle.probe_defs.specs.Imports.{imports_by, by_keys};

use bgp_messages::bgp_attributes::StreamFault;
use edge_routes::route_order::KeptKey;
use mldp::mldp_fec::Fec;
use mv_base::{Addr, Bytes, IfaceId, NoMemory, Seq, VrfId};
use std::alloc::Global;
use std::marker::Model;

/// What the edge is given.
#[derive(Drop)]
pub enum ProbeLine {
    /// A customer router at the interface joins (S,G).
    Join {
        iface: IfaceId,
        source: Addr,
        group: Addr,
    },
    /// Octets come from the peer.
    Piece(Bytes),
}

pub type ProbeLines = Seq<ProbeLine>;

/// The routes that one VRF takes, by their keys, which the table that has a route may have too.
#[derive(Drop)]
pub struct VrfImports {
    pub vrf: VrfId,
    pub keys: Seq<KeptKey>,
}

/// The routes that VRFs take, VRF after VRF.
#[derive(Drop)]
pub struct Imports {
    vrfs: Seq<VrfImports>,
}

impl Model for Imports {
    ghost use Rattle.std.specs.Prelude.{List};
    ghost use Rattle.std.specs.List.{flat_map};
    ghost use Rattle.probe_defs.specs.Imports.{Import, imports_by};

    ghost Value = { List Import };

    ghost view = { λ s. flat_map imports_by s.vrfs };
}

impl Imports {
    /// No VRF takes a route. It takes no memory.
    pub fn new(alloc: Global) -> Imports
        ensures { result ≡ [] }
    {
        Imports {
            vrfs: Seq::new(alloc),
        }
    }

    /// Adds the routes that the VRF takes, after those of other VRFs.
    pub fn push_vrf(&mut self, vrf: VrfId, keys: Seq<KeptKey>) -> Result<(), NoMemory>
        ensures { OnOk result (self.new ≡ self.old ++ by_keys vrf keys) }
    {
        self.vrfs.push(VrfImports { vrf, keys })
    }

    /// The routes, of each VRF that was added.
    pub fn vrfs(&self) -> &[VrfImports]
        ensures { flat_map imports_by result.now ≡ self.now }
    {
        self.vrfs.as_slice()
    }
}

/// What is told of the edge after all lines: the routes that its VRFs take from the peer, the tunnels of which it is a leaf, and the
/// first fault of the peer's octets, with its place, if they have one.
#[derive(Drop)]
pub struct ProbeReport {
    pub imports: Imports,
    pub wants: Seq<Fec>,
    pub fault: Option<(u64, StreamFault)>,
}
