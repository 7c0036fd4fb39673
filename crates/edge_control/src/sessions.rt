//! Sessions with peers that come up and are lost (RFC 4271 section 8).
ghost use Rattle.std.specs.Prelude.{◌≡◌, ◌<◌, ℕ, length, OnOk, OnErr};
ghost use Rattle.mv_base.specs.core_walks.Core.{Core};
ghost use Rattle.scenario_defs.specs.declared.event.Kind.TheVariants.{Bgp};
ghost use Rattle.edge_defs.specs.Steps.{Noticed, Raised, effect};
ghost use Rattle.edge_routes.specs.edge_home.Home.{place_of};
ghost use Rattle.control_laws.specs.Control.{control_of};
ghost use Rattle.edge_control.specs.Sound.{wants_of};

use crate::control::EdgeControl;
use crate::lost::lose_in;
use mv_base::{NoMemory, NodeId};

impl EdgeControl {
    /// The session with the peer is lost: all that was taken from it is forgotten. It takes no memory.
    pub fn lose(&mut self, peer: NodeId)
        ensures lost { (core : Core) (now : ℕ) →
            control_of self.new ≡ effect (place_of self.old.home core) now (control_of self.old) (Noticed Bgp peer) }
        ensures home { self.new.home ≡ self.old.home }
        ensures wants { wants_of self.new.trees ≡ wants_of self.old.trees }
    {
        lose_in(&self.home, &mut self.trees, &self.taken, peer);
        self.taken.lose(peer);
    }

    /// The session with the peer comes up: nothing was taken from it yet, and what was before is forgotten. Where memory runs out, the
    /// session is lost.
    pub fn raise(&mut self, peer: NodeId) -> Result<(), NoMemory>
        requires { peer.0 < length self.old.home.scenario.nodes }
        ensures raised { (core : Core) (now : ℕ) → OnOk result (
            control_of self.new ≡ effect (place_of self.old.home core) now (control_of self.old) (Raised Bgp peer)) }
        ensures lost { (core : Core) (now : ℕ) → OnErr result (
            control_of self.new ≡ effect (place_of self.old.home core) now (control_of self.old) (Noticed Bgp peer)) }
        ensures home { self.new.home ≡ self.old.home }
        ensures wants { wants_of self.new.trees ≡ wants_of self.old.trees }
    {
        lose_in(&self.home, &mut self.trees, &self.taken, peer);
        self.taken.lose(peer);
        self.taken.raise(peer)
    }
}
