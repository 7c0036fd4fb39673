//! When the ends of an edge's BGP sessions came up.
ghost use Rattle.std.specs.Prelude.{◌≡◌, OnOk};
ghost use Rattle.std.specs.FinMap as maps;

use indexmap::IndexMap;
use mv_base::{NoMemory, NodeId};
use std::alloc::Global;
use std::marker::Model;

/// The clock at which the end of each BGP session that is up here came up. Contracts see it as a map by peer.
#[derive(Drop)]
pub struct RaiseClocks {
    raised: IndexMap<NodeId, u64>,
}

impl Model for RaiseClocks {
    ghost use Rattle.std.specs.Prelude.{ℕ};
    ghost use Rattle.std.specs.FinMap as maps;
    ghost use Rattle.std.specs.FinMap.{FinMap};
    ghost use Rattle.label_defs.specs.Keys.{node_cmp};
    ghost use Rattle.edge_core.specs.View.{raised_code};

    ghost Value = { FinMap node_cmp ℕ };

    ghost coded = { raised_code };

    ghost view = { λ c. maps.from_entries c.raised.entries };
}

impl RaiseClocks {
    /// No end is up. It takes no memory.
    pub fn of(alloc: Global) -> RaiseClocks
        ensures { result ≡ maps.empty }
    {
        RaiseClocks {
            raised: IndexMap::new(alloc),
        }
    }

    /// The end of the session with the peer comes up at that clock.
    pub fn raise(&mut self, peer: NodeId, now: u64) -> Result<(), NoMemory>
        ensures { OnOk result (self.new ≡ maps.insert self.old peer now) }
    {
        self.raised.insert(peer, now)?;
        Ok(())
    }

    /// The loss of the session with the peer is noticed. It takes no memory.
    pub fn lose(&mut self, peer: NodeId)
        ensures { self.new ≡ maps.remove self.old peer }
    {
        self.raised.swap_remove(&peer);
    }
}
