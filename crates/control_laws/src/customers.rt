//! Laws of the calls of customers: what each makes of the tree of its VRF is what it makes of all that the edge keeps.
ghost use Rattle.std.specs.Prelude.{◌≡◌, ◌+◌, ◌++◌, ℕ, [], ◌∷◌, true, not, length, map, slice_get, slice_set, sum_by, count_by, List, Some};
ghost use Rattle.std.specs.FinMap as maps;
ghost use Rattle.std.specs.FinSet as sets;
ghost use Rattle.std.specs.List.{AllByRecursion, filter};
ghost use Rattle.mv_base.specs.declared.addr.Addr.{Addr};
ghost use Rattle.mv_base.specs.declared.ids.IfaceId.{IfaceId};
ghost use Rattle.mv_base.specs.declared.pattern.Pattern.{Pattern};
ghost use Rattle.mv_base.specs.core_walks.Core.{Core};
ghost use Rattle.pim_joinprune.specs.declared.message.JoinPrune.{JoinPrune};
ghost use Rattle.pim_defs.specs.Entries.{applied};
ghost use Rattle.pim_defs.specs.Entries as entries;
ghost use Rattle.selective_defs.specs.declared.selection.Selection.{Selection};
ghost use Rattle.selective.specs.Roots.{IsSelected, is_of, is_waiting, run_due, selected_now};
ghost use Rattle.vrf_words.specs.tree_defs.Trees.{TreeData};
ghost use Rattle.edge_defs.specs.Due.{is_selection_due};
ghost use Rattle.edge_defs.specs.Originated.{is_iface_of};
ghost use Rattle.edge_defs.specs.Steps.{Customer, Active, Idle, Pim, Select, Unselect, effect, timed};
ghost use Rattle.edge_routes.specs.edge_home.Home.{place_of};
ghost use Rattle.control_laws.specs.Control.{AreTrees, Kept, OwnTree, control_of, trees_of, with_tree, with_trees};
ghost use Rattle.control_laws.specs.Customers.{AreSingle, Makes, noted, pim_taken, selected, timers_run, unnoted, unselected};

/// A Join/Prune message that the tree of its interface's VRF takes is taken by the edge (RFC 7761 section 4.5).
pub fn join_prune_is_taken()
    ensures { (kept : Kept) (number : ℕ) (it : OwnTree) (iface : IfaceId) (message : JoinPrune) (now : ℕ) (core : Core) →
        AreTrees kept → slice_get (trees_of kept) number ≡ Some it → is_iface_of kept.home.scenario it.own.id iface ≡ true →
        Makes (with_tree number (pim_taken iface message now it.tree) kept)
        (effect (place_of kept.home core) now (control_of kept) (Customer (Pim iface message))) }
{}

/// A source that the tree of its interface's VRF notes to send is noted at the edge (RFC 6514 section 14).
pub fn note_is_made()
    ensures { (kept : Kept) (number : ℕ) (it : OwnTree) (iface : IfaceId) (source group : Addr) (now : ℕ) (core : Core) →
        AreTrees kept → slice_get (trees_of kept) number ≡ Some it → is_iface_of kept.home.scenario it.own.id iface ≡ true →
        Makes (with_tree number (noted iface source group it.tree) kept)
        (effect (place_of kept.home core) now (control_of kept) (Customer (Active iface source group))) }
{}

/// A note that the tree of its interface's VRF ends is ended at the edge.
pub fn note_is_ended()
    ensures { (kept : Kept) (number : ℕ) (it : OwnTree) (iface : IfaceId) (source group : Addr) (now : ℕ) (core : Core) →
        AreTrees kept → slice_get (trees_of kept) number ≡ Some it → is_iface_of kept.home.scenario it.own.id iface ≡ true →
        Makes (with_tree number (unnoted iface source group it.tree) kept)
        (effect (place_of kept.home core) now (control_of kept) (Customer (Idle iface source group))) }
{}

/// The timers of entries and of selections that each tree runs are run at the edge, those of taken routes aside.
pub fn timers_are_run()
    ensures { (kept : Kept) (now : ℕ) (core : Core) → AreTrees kept →
        Makes (with_trees (timers_run now) kept)
        (record (timed (place_of kept.home core) now (control_of kept)) { peers = kept.peers }) }
{}

/// A pattern that the tree of a VRF selects, and had not selected, is selected at the edge, with the same number (RFC 6514 section 12.1).
pub fn pattern_is_selected()
    ensures { (kept : Kept) (number : ℕ) (it : OwnTree) (pattern : Pattern) (now : ℕ) (core : Core) →
        AreTrees kept → slice_get (trees_of kept) number ≡ Some it → ¬ (IsSelected pattern it.tree.root.selections) →
        Makes (with_tree number (selected pattern now it.tree) kept)
        (effect (place_of kept.home core) now (control_of kept) (Customer (Select it.own.id pattern))) }
{}

/// A pattern that the tree of a VRF selects no more, or has not selected, is not selected at the edge.
pub fn pattern_is_unselected()
    ensures { (kept : Kept) (number : ℕ) (it : OwnTree) (pattern : Pattern) (now : ℕ) (core : Core) →
        AreTrees kept → slice_get (trees_of kept) number ≡ Some it →
        Makes (with_tree number (unselected pattern it.tree) kept)
        (effect (place_of kept.home core) now (control_of kept) (Customer (Unselect it.own.id pattern))) }
{}

/// The entries, the notes and the selections of an edge are as many as those of the trees of its VRFs together, and so are the entries and
/// the selections that are due. Of the selections this asks that no pattern is there twice in a tree.
pub fn customers_are_counted()
    ensures entries { (kept : Kept) → AreTrees kept →
        maps.len (control_of kept).entries ≡ sum_by (λ tree. maps.len tree.vrf.entries) kept.trees }
    ensures entries_due { (kept : Kept) (now : ℕ) → AreTrees kept →
        entries.due (control_of kept).entries now ≡ sum_by (λ tree. entries.due tree.vrf.entries now) kept.trees }
    ensures notes { (kept : Kept) → AreTrees kept →
        sets.len (control_of kept).notes ≡ sum_by (λ tree. sets.len tree.vrf.notes) kept.trees }
    ensures selections { (kept : Kept) → AreTrees kept →
        AllByRecursion (λ (tree : TreeData). AreSingle tree.root.selections) kept.trees →
        maps.len (control_of kept).selections ≡ sum_by (λ tree. length tree.root.selections) kept.trees }
    ensures selections_due { (kept : Kept) (now : ℕ) → AreTrees kept →
        AllByRecursion (λ (tree : TreeData). AreSingle tree.root.selections) kept.trees →
        count_by (is_selection_due kept.home.scenario.delay now) (maps.values (control_of kept).selections)
        ≡ sum_by (λ tree. count_by (is_waiting tree.root.delay now) tree.root.selections) kept.trees }
{}

/// The entries of an edge after a Join/Prune message are those of the tree that takes it and of the other trees: as many more or fewer
/// than before as there are in that tree.
pub fn join_prune_is_counted()
    ensures trees { (kept : Kept) (number : ℕ) (it : OwnTree) (iface : IfaceId) (message : JoinPrune) (now : ℕ) →
        AreTrees kept → slice_get (trees_of kept) number ≡ Some it → is_iface_of kept.home.scenario it.own.id iface ≡ true →
        maps.len (applied (control_of kept).entries iface message now)
        ≡ sum_by (λ tree. maps.len tree.vrf.entries) (slice_set kept.trees number (pim_taken iface message now it.tree)) }
    ensures change { (kept : Kept) (number : ℕ) (it : OwnTree) (iface : IfaceId) (message : JoinPrune) (now : ℕ) →
        AreTrees kept → slice_get (trees_of kept) number ≡ Some it → is_iface_of kept.home.scenario it.own.id iface ≡ true →
        maps.len (applied (control_of kept).entries iface message now) + maps.len it.tree.vrf.entries
        ≡ maps.len (control_of kept).entries + maps.len (applied it.tree.vrf.entries iface message now) }
{}

/// No pattern is there twice after a selection of one that was not selected, after the end of one, and after the timers.
pub fn selections_stay_single()
    ensures selected { (pattern : Pattern) (now : ℕ) (selections : List Selection) → AreSingle selections →
        ¬ (IsSelected pattern selections) → AreSingle (selections ++ selected_now pattern now selections ∷ []) }
    ensures unselected { (pattern : Pattern) (selections : List Selection) → AreSingle selections →
        AreSingle (filter (λ selection. not (is_of pattern selection)) selections) }
    ensures run { (delay now : ℕ) (selections : List Selection) → AreSingle selections → AreSingle (map (run_due delay now) selections) }
{}
