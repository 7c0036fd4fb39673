//! What an edge keeps of its customers and of its peers.
ghost use Rattle.std.specs.Prelude.{◌≡◌, true, IfOk};
ghost use Rattle.edge_defs.specs.Edge.{no_control};
ghost use Rattle.edge_routes.specs.edge_home.Home.{IsHome, home_of};
ghost use Rattle.control_laws.specs.Control.{AreTrees, control_of};
ghost use Rattle.edge_control.specs.Places.{IsTreeAt, is_own_vrf};
ghost use Rattle.edge_control.specs.Sound.{IsSound};

use crate::places::place_of_vrf;
use crate::starting::first_trees;
use edge_routes::edge_home::{EdgeHome, SharedScenario};
use edge_tables::taken_tables::TakenTables;
use mv_base::{NoMemory, NodeId, VrfId};
use std::alloc::Global;
use std::marker::Model;
use vrf_trees::VrfTree;

/// What an edge keeps of its customers and of its peers: a tree for each of its VRFs, in their order, and the routes that it took
/// from each peer whose session is up. Contracts see it as a `Kept`, of which the definitions' `Control` is made.
#[derive(Drop)]
pub struct EdgeControl {
    pub(crate) alloc: Global,
    pub(crate) home: EdgeHome,
    pub(crate) trees: Vec<VrfTree>,
    pub(crate) taken: TakenTables,
}

impl Model for EdgeControl {
    ghost use Rattle.control_laws.specs.Control.{Kept};
    ghost use Rattle.edge_control.specs.Sound.{IsSound, kept_code, kept_of};

    ghost Value = { Kept };

    ghost coded = { kept_code };

    ghost view = { λ c. kept_of c.home c.trees.items c.taken };

    ghost invariant = { λ c. IsSound (kept_of c.home c.trees.items c.taken) };
}

impl EdgeControl {
    /// What an edge keeps before anything has happened: nothing. It shares the scenario.
    pub fn of(alloc: Global, scenario: &SharedScenario, me: NodeId) -> Result<EdgeControl, NoMemory>
        requires { IsHome scenario.now me }
        ensures home { IfOk result (λ edge. edge.home ≡ home_of scenario.now me) }
        ensures nothing { IfOk result (λ edge. control_of edge ≡ no_control) }
        ensures wanted { IfOk result AreTrees }
    {
        let home = EdgeHome::of(alloc, scenario, me)?;
        let trees = first_trees(alloc, &home)?;
        Ok(EdgeControl {
            alloc,
            home,
            trees,
            taken: TakenTables::of(alloc),
        })
    }

    /// What the edge knows of the network.
    pub fn home(&self) -> &EdgeHome
        ensures home { result.now ≡ self.now.home }
        ensures sound { IsSound self.now }
    {
        &self.home
    }

    /// The trees of the edge's VRFs, in their order.
    pub fn trees(&self) -> &[VrfTree]
        ensures { result.now ≡ self.now.trees }
    {
        &self.trees
    }

    /// The routes that were taken from peers.
    pub fn taken(&self) -> &TakenTables
        ensures { result.now ≡ self.now.peers }
    {
        &self.taken
    }

    /// What the VRF keeps.
    pub fn tree(&self, vrf: VrfId) -> &VrfTree
        requires own { is_own_vrf self.now.home vrf ≡ true }
        ensures { IsTreeAt self.now vrf result.now }
    {
        let place = place_of_vrf(&self.home, vrf);
        &self.trees[place]
    }
}
