//! What is asked of an edge. Nothing changes.
ghost use Rattle.std.specs.Prelude.{◌≡◌, min, not, true, false, is_some, None, Some};
ghost use Rattle.std.specs.FinMap as maps;
ghost use Rattle.std.specs.FinSet as sets;
ghost use Rattle.mv_base.specs.Lists.{Among};
ghost use Rattle.mv_base.specs.core_walks.Core.{Core as Walks};
ghost use Rattle.edge_defs.specs.Due.{due};
ghost use Rattle.edge_defs.specs.Place.{OwnVrf};
ghost use Rattle.edge_defs.specs.Tunnels.{leaves};
ghost use Rattle.edge_routes.specs.edge_home.Home.{place_of};
ghost use Rattle.edge_routing.specs.vrf_words.tree_laws.Imports.{imports};
ghost use Rattle.edge_routing.specs.edge_control.Places.{is_own_vrf, vrfs_of};
ghost use Rattle.edge_core.specs.State.{data_of, home_of, is_up};

use crate::edge::Edge;
use edge_routing::edge_datagrams::imports;
use edge_routing::edge_leaves::due;
use mldp::mldp_fec::Fec;
use mv_base::{NodeId, Pattern, VrfId};
use scenario_defs::Kind;

impl Edge {
    /// Whether the pattern is selected in the VRF. It takes no memory.
    pub fn is_selected(&self, vrf: VrfId, pattern: Pattern) -> bool
        requires own { is_own_vrf (home_of self.now) vrf ≡ true }
        ensures { result ≡ is_some (maps.get (data_of self.now).control.selections (record { vrf = vrf; pattern = pattern })) }
    {
        self.parts.routing.control.is_selected(vrf, pattern)
    }

    /// How many patterns are selected, over all VRFs, or the greatest number of 32 bits where there are more. It takes no memory.
    pub fn selections(&self) -> u32
        ensures { result ≡ min (maps.len (data_of self.now).control.selections) 4294967295 }
    {
        self.parts.routing.control.selections()
    }

    /// How many timers are due at the clock: of resting labels and holds, of entries, of selections, and of selective routes that VRFs
    /// import. It is the greatest number of 64 bits where there are more. It takes no memory. Of a spent edge nothing is said.
    pub fn due(&self, now: u64) -> u64
        ensures { self.now.spent ≡ None → (walks : Walks) →
            result ≡ min (due (place_of (home_of self.now) walks) now (data_of self.now)) 18446744073709551615 }
    {
        // It is known here that no pattern is selected twice in a VRF, and that keys of routes have a spelling.
        let _ = self.parts.routing.control.home();
        self.parts
            .labels
            .due(now)
            .saturating_add(due(&self.parts.routing.control, now))
    }

    /// Whether the end of the session is up. It takes no memory.
    pub fn is_up(&self, kind: Kind, peer: NodeId) -> bool
        ensures { result ≡ is_up self.now kind peer }
    {
        match kind {
            Kind::Bgp => self.parts.routing.control.taken().is_up(peer),
            Kind::Ldp => self.parts.labels.is_up(peer),
        }
    }

    /// Whether the end of the LDP session with the neighbour is up and its hold was not run. It takes no memory.
    pub fn holding(&self, peer: NodeId) -> bool
        ensures { result ≡ elim (maps.get (data_of self.now).part.ends peer) [ None ↦ false | Some end ↦ not end.held ] }
    {
        self.parts.labels.holding(peer)
    }

    /// Whether the VRF imports a route of the tunnel from the edge of that number (RFC 6514 sections 9.1.2 and 12.3). It takes no memory.
    pub fn imports_tunnel(&self, vrf: VrfId, edge: NodeId, fec: &Fec) -> bool
        requires own { is_own_vrf (home_of self.now) vrf ≡ true }
        ensures { (walks : Walks) (own : OwnVrf) → Among own (vrfs_of (home_of self.now)) → own.id ≡ vrf →
            result ≡ imports (place_of (home_of self.now) walks) (data_of self.now).control own edge fec.now }
    {
        imports(&self.parts.routing.control, vrf, edge, fec)
    }

    /// Whether the edge is to be a leaf of the tunnel (RFC 6514 sections 9.1.2 and 12.3). It takes no memory. Of a spent edge nothing is
    /// said.
    pub fn wants_tunnel(&self, fec: &Fec) -> bool
        ensures { self.now.spent ≡ None → (walks : Walks) →
            result ≡ sets.contains (leaves (place_of (home_of self.now) walks) (data_of self.now).control) fec.now }
    {
        self.parts.labels.node().fib().is_leaf(fec)
    }
}
