//! What the definitions of this crate mean.
ghost use Rattle.std.specs.Prelude.{◌≡◌, ℕ, ◌↔◌, IsTrue};
ghost use Rattle.mv_base.specs.declared.ids.NodeId.{NodeId};
ghost use Rattle.mv_base.specs.declared.pattern.Pattern.{Pattern};
ghost use Rattle.selective_defs.specs.Selective.{IsDue};
ghost use Rattle.selective.specs.Delays.{is_due};
ghost use Rattle.selective.specs.Leaves.{InOrder, Routes, peer_entries};
ghost use Rattle.selective.specs.Patterns.{same_pattern};

/// Whether a delay is due, and whether two patterns are one.
pub fn tests_are()
    ensures due { (delay now since : ℕ) → IsTrue (is_due delay now since) ↔ IsDue delay now since }
    ensures same { (one other : Pattern) → IsTrue (same_pattern one other) ↔ (one ≡ other) }
{}

/// Of the routes of a peer, each is at least as specific as those after it, and has a lower route distinguisher than those
/// of its pattern.
pub fn routes_in_order()
    ensures { (peer : NodeId) (routes : Routes) → InOrder (peer_entries peer routes) }
{}
