//! What buffers and copies say of the datagrams of a network.
ghost use Rattle.std.specs.Prelude.{◌≡◌, ◌↔◌, ◌-◌, ◌++◌, ℕ, List, None, Some, length, map, slice_get, if◌then◌else◌};
ghost use Rattle.std.specs.FinMap as maps;
ghost use Rattle.std.specs.List.{filter, remove};
ghost use Rattle.mv_base.specs.declared.ids.NodeId.{NodeId};
ghost use Rattle.buf_pool.specs.Held.{IsLive};
ghost use Rattle.label_defs.specs.declared.branch.Branch.{Branch};
ghost use Rattle.network_defs.specs.Acts.{with_branches, without_copy, aged};
ghost use Rattle.network_defs.specs.Counts.{datagrams_with_copy};
ghost use Rattle.network_defs.specs.World.{World, clock_of, scenario_of};
ghost use Rattle.data_plane.specs.link_copies.CopiesData.{CopiesData, KeptCopy, Current, kept_at, all_kept, is_at, is_recent, hop_of, sent};
ghost use Rattle.data_plane.specs.link_copies.CopiesData.{HasCopies, AreNumbered, IsShared, HasWays, copies_on_ways};

/// While no datagram is handled, as many buffers live as there are datagrams with a copy on a link.
pub fn buffers_count_the_datagrams()
    ensures { (copies : CopiesData) (last : ℕ) → IsShared copies → copies.current ≡ None → AreNumbered copies last →
        maps.len copies.buffers ≡ datagrams_with_copy (map (λ k. k.copy) (all_kept copies)) last }
{}

/// The copies on all links are those on the ways of any list that has each way once, and each that has copies: as many, and of
/// the same datagrams.
pub fn ways_in_any_order_have_the_same_copies()
    ensures counted { (copies : CopiesData) (ways : List (NodeId × NodeId)) → HasWays ways copies →
        length (all_kept copies) ≡ length (copies_on_ways ways copies) }
    ensures datagrams { (copies : CopiesData) (ways : List (NodeId × NodeId)) (last : ℕ) → HasWays ways copies →
        datagrams_with_copy (map (λ k. k.copy) (all_kept copies)) last ≡ datagrams_with_copy (copies_on_ways ways copies) last }
{}

/// The buffer of each copy lives, and so does that of the datagram that is handled. Two copies are of one datagram exactly where
/// they have one buffer, and a copy is of the datagram that is handled exactly where it has its buffer.
pub fn copies_of_one_datagram_share_its_buffer()
    ensures kept_lives { (copies : CopiesData) (u n : NodeId) (place : ℕ) (k : KeptCopy) → IsShared copies →
        slice_get (kept_at copies u n) place ≡ Some k → IsLive copies.buffers k.buffer }
    ensures current_lives { (copies : CopiesData) (current : Current) → IsShared copies →
        copies.current ≡ Some current → IsLive copies.buffers current.buffer }
    ensures two_copies { (copies : CopiesData) (u n v m : NodeId) (place other : ℕ) (k l : KeptCopy) → IsShared copies →
        slice_get (kept_at copies u n) place ≡ Some k → slice_get (kept_at copies v m) other ≡ Some l →
        (k.copy.number ≡ l.copy.number) ↔ (k.buffer ≡ l.buffer) }
    ensures copy_and_current { (copies : CopiesData) (u n : NodeId) (place : ℕ) (k : KeptCopy) (current : Current) → IsShared copies →
        slice_get (kept_at copies u n) place ≡ Some k → copies.current ≡ Some current →
        (k.copy.number ≡ current.number) ↔ (k.buffer ≡ current.buffer) }
{}

/// What a call leaves on the ways is what the network's own change leaves there: a copy that leaves its link, copies on branches
/// of trees, and old copies that are dropped.
pub fn calls_change_copies_as_the_network_does()
    ensures left { (old new : CopiesData) (world : World) (from to : NodeId) (place : ℕ) → HasCopies old world →
        ((u n : NodeId) → kept_at new u n ≡ (if is_at from to u n then remove (kept_at old from to) (place - 1) else kept_at old u n)) →
        HasCopies new (without_copy world from to place) }
    ensures sent { (old new : CopiesData) (world : World) (current : Current) (from : NodeId) (ttl : ℕ) (branches : List Branch) → HasCopies old world →
        ((u n : NodeId) → kept_at new u n ≡ kept_at old u n ++ sent (Some current) from ttl (clock_of world) (map hop_of branches) u n) →
        HasCopies new (with_branches from ttl current.number branches world) }
    ensures aged { (old new : CopiesData) (world : World) → HasCopies old world →
        ((u n : NodeId) → kept_at new u n ≡ filter (is_recent (clock_of world) (scenario_of world).life) (kept_at old u n)) →
        HasCopies new (aged world) }
{}
