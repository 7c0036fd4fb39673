//! VRFs of an edge.
ghost use Rattle.std.specs.Prelude.{◌≡◌, ◌≤◌, length};
ghost use Rattle.std.specs.Option.{SomeIff};

use mv_base::route_targets::TARGET_LIMIT;
use scenario_defs::Vrf;
use std::marker::Model;

/// A VRF of an edge, with what its routes say of the edge. Contracts see it as a `Local`.
#[derive(Clone, Copy)]
pub struct LocalVrf {
    vrf: Vrf,
    addr: [u8; 4],
    system: u16,
}

impl Model for LocalVrf {
    ghost use Rattle.std.specs.Prelude.{◌≤◌, length};
    ghost use Rattle.edge_routes.specs.Local.{Local};

    ghost Value = { Local };

    ghost view = { λ l. record { vrf = l.vrf; addr = l.addr; system = l.system } };

    ghost invariant = { λ l. length l.vrf.targets ≤ 8 };

    ghost inverse = { λ l. record { vrf = l.vrf; addr = l.addr; system = l.system } };
}

impl LocalVrf {
    /// A VRF of the edge of that IPv4 address and autonomous system. None is for more than 8 Route Targets.
    pub fn of(vrf: &Vrf, addr: [u8; 4], system: u16) -> Option<LocalVrf>
        ensures { SomeIff result (length vrf.now.targets ≤ TARGET_LIMIT) (record { vrf = vrf.now; addr = addr; system = system }) }
    {
        if vrf.targets.as_slice().len() > TARGET_LIMIT {
            return None;
        }
        Some(LocalVrf {
            vrf: *vrf,
            addr,
            system,
        })
    }

    /// The VRF.
    pub fn vrf(&self) -> &Vrf
        ensures vrf { result.now ≡ self.now.vrf }
        ensures few { length self.now.vrf.targets ≤ TARGET_LIMIT }
    {
        &self.vrf
    }

    /// The IPv4 address of the edge, its octets in the order of the wire.
    pub fn addr(&self) -> [u8; 4]
        ensures { result ≡ self.now.addr }
    {
        self.addr
    }

    /// The autonomous system.
    pub fn system(&self) -> u16
        ensures { result ≡ self.now.system }
    {
        self.system
    }
}
