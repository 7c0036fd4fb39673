//! Laws of what an edge keeps between two refreshes of its flows, and after one.
ghost use Rattle.std.specs.Prelude.{◌≡◌, ◌+◌, ℕ, true, List, count_by, sum_by};
ghost use Rattle.std.specs.FinMap as maps;
ghost use Rattle.std.specs.FinMap.{FinMap};
ghost use Rattle.std.specs.List.{AllByRecursion, AllZip};
ghost use Rattle.mv_base.specs.Lists.{Among};
ghost use Rattle.mv_base.specs.core_walks.Core.{Core};
ghost use Rattle.label_defs.specs.Keys.{node_cmp};
ghost use Rattle.label_defs.specs.LabelData as labels;
ghost use Rattle.label_defs.specs.LabelData.{LabelData};
ghost use Rattle.scenario_defs.specs.Rules.{Rules};
ghost use Rattle.selective.specs.Leaves.{is_waiting};
ghost use Rattle.vrf_words.specs.tree_defs.Trees.{TreeData};
ghost use Rattle.edge_defs.specs.Due.{due, due_from};
ghost use Rattle.edge_defs.specs.Edge.{Taken};
ghost use Rattle.edge_defs.specs.Place.{OwnVrf, label_place, own_vrfs};
ghost use Rattle.edge_defs.specs.Steps.{Call, control_step, effect, is_vrf_step, refreshed};
ghost use Rattle.edge_defs.specs.Upstream.{known_routes};
ghost use Rattle.edge_routes.specs.edge_home.Home.{place_of};
ghost use Rattle.vrf_words.specs.edge_words.Known.{AreNodes};
ghost use Rattle.vrf_words.specs.tree_laws.Whole.{AreWhole};
ghost use Rattle.control_laws.specs.Control.{AreTrees, Kept, control_of, trees_of};
ghost use Rattle.control_laws.specs.Customers.{AreSingle, Makes};
ghost use Rattle.control_laws.specs.Peers.{AreWritable};
ghost use Rattle.control_laws.specs.Between.{AreTreesBetween, HasRoutes, IsRefreshed, MakesBetween, tree_due};

/// Trees that keep all of their VRFs keep it also between two refreshes. Where each tree then keeps its customers, and of its VRF what the
/// edge keeps with other tables of peers, all of them are what the edge keeps with these tables.
pub fn routes_leave_customers()
    ensures between { (kept : Kept) → AreTrees kept → AreTreesBetween kept }
    ensures routes { (kept : Kept) (peers : FinMap node_cmp Taken) (others : List TreeData) → AreTreesBetween kept →
        AllZip (HasRoutes kept peers) (trees_of kept) others →
        MakesBetween (record kept { trees = others; peers = peers }) (record (control_of kept) { peers = peers }) }
{}

/// Where each tree is refreshed at the clock, the edge is: its flows are those that some interface asks for, each with its upstream (RFC
/// 7761 section 4.1.6; RFC 6513 section 5.1). This asks that the scenario meets its rules, that the peers are nodes of it, and that
/// prefixes are whole. After an own effect of a call that is a step of each VRF, this is the step.
pub fn flows_are_refreshed()
    ensures trees { (kept : Kept) (core : Core) (now : ℕ) (others : List TreeData) →
        AllZip (IsRefreshed (core.cost kept.home.me) now) kept.trees others → AreTreesBetween kept → Rules kept.home.scenario →
        AreNodes (place_of kept.home core) (control_of kept) →
        ((own : OwnVrf) → Among own (own_vrfs (place_of kept.home core)) →
        AreWhole (known_routes (place_of kept.home core) (control_of kept) own)) →
        Makes (record kept { trees = others }) (refreshed (place_of kept.home core) now (control_of kept)) }
    ensures step { (old between new : Kept) (core : Core) (now : ℕ) (call : Call) → is_vrf_step call ≡ true →
        control_of between ≡ effect (place_of old.home core) now (control_of old) call →
        Makes new (refreshed (place_of old.home core) now (control_of between)) →
        Makes new (control_step (place_of old.home core) now (control_of old) call) }
{}

/// The delays of selective routes that are due at an edge, each once for each VRF that imports the route, are as many as those that are
/// due in the trees of its VRFs together (RFC 6514 section 12.3), where each key of the tables has a spelling.
pub fn delays_are_counted()
    ensures { (kept : Kept) (core : Core) (now : ℕ) → AreTreesBetween kept → AreWritable (control_of kept) →
        sum_by (due_from (place_of kept.home core) now) (maps.entries kept.peers)
        ≡ sum_by (λ tree. count_by (is_waiting tree.leaf.delay now) (maps.values tree.leaf.routes)) kept.trees }
{}

/// The timers that are due at an edge are those of its label part, and those of its trees: of entries, of selections and of the selective
/// routes that they learned. Of the selections this asks that no pattern is there twice in a tree.
pub fn timers_are_counted()
    ensures { (kept : Kept) (core : Core) (now : ℕ) (part : LabelData) → AreTrees kept → AreWritable (control_of kept) →
        AllByRecursion (λ (tree : TreeData). AreSingle tree.root.selections) kept.trees →
        (raised : FinMap node_cmp ℕ) →
        due (place_of kept.home core) now (record { control = control_of kept; part = part; raised = raised })
        ≡ labels.due (label_place kept.home.scenario core kept.home.me) now part + sum_by (tree_due now) kept.trees }
{}
