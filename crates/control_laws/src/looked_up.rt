//! Laws of what an edge keeps, put together from the trees of its VRFs.
ghost use Rattle.std.specs.Prelude.{◌≡◌, ◌↔◌, ◌==◌, ℕ, true, false, map, slice_get, None, Some, option_map};
ghost use Rattle.std.specs.FinMap as maps;
ghost use Rattle.std.specs.FinSet as sets;
ghost use Rattle.mv_base.specs.Lists.{Among};
ghost use Rattle.scenario_defs.specs.declared.event.IfaceEntry.{IfaceEntry};
ghost use Rattle.selective_defs.specs.declared.selection.Selection.{Selection};
ghost use Rattle.umh_select.specs.declared.route.Choice.{Choice};
ghost use Rattle.vrf_words.specs.declared.tree_defs.flow.Flow.{Flow};
ghost use Rattle.vrf_words.specs.declared.tree_defs.flow.Note.{Note};
ghost use Rattle.vrf_words.specs.tree_defs.Trees.{TreeData};
ghost use Rattle.edge_defs.specs.Edge.{VrfFlow, VrfPattern, no_control};
ghost use Rattle.edge_defs.specs.Originated.{is_iface_of};
ghost use Rattle.edge_defs.specs.Place.{OwnVrf, vrfs_from};
ghost use Rattle.edge_defs.specs.Tunnels.{selections_of};
ghost use Rattle.vrf_words.specs.tree_laws.TreeOf.{choice_of, edge_note, flow_in};
ghost use Rattle.control_laws.specs.Control.{AreTrees, Kept, OwnTree, control_of, trees_of, upstream_by};
ghost use Rattle.control_laws.specs.Customers.{Makes};
ghost use Rattle.control_laws.specs.Start.{AreFirst};

/// The tree of a VRF of an edge is at the VRF's place, and no two of the VRFs have one number.
pub fn vrfs_are_apart()
    ensures there { (kept : Kept) (number : ℕ) (own : OwnVrf) (tree : TreeData) →
        slice_get (vrfs_from kept.home.me 0 kept.home.scenario.vrfs) number ≡ Some own → slice_get kept.trees number ≡ Some tree →
        slice_get (trees_of kept) number ≡ Some (record { own = own; tree = tree }) }
    ensures apart { (kept : Kept) (it other : OwnTree) → Among it (trees_of kept) → Among other (trees_of kept) →
        it.own.id ≡ other.own.id → it ≡ other }
{}

/// An edge keeps nothing before anything has happened, where each of its VRFs has such a tree, and the trees are those of that.
pub fn nothing_is_kept_at_first()
    ensures { (kept : Kept) → AreFirst kept → map (λ it. it.tree) (trees_of kept) ≡ kept.trees →
        map (λ it. it.own) (trees_of kept) ≡ vrfs_from kept.home.me 0 kept.home.scenario.vrfs → Makes kept no_control }
{}

/// An entry or a note at an interface of a VRF of the edge is the one of the VRF's tree, and so is a flow of the VRF, with its upstream,
/// and a selection. At an interface of none of its VRFs there is none, and of another VRF there is no flow and no selection.
pub fn trees_are_looked_up()
    ensures entries { (kept : Kept) (it : OwnTree) (at : IfaceEntry) → AreTrees kept → Among it (trees_of kept) →
        is_iface_of kept.home.scenario it.own.id at.iface ≡ true →
        maps.get (control_of kept).entries at ≡ maps.get it.tree.vrf.entries at }
    ensures no_entry { (kept : Kept) (at : IfaceEntry) → AreTrees kept →
        ((it : OwnTree) → Among it (trees_of kept) → is_iface_of kept.home.scenario it.own.id at.iface ≡ false) →
        maps.get (control_of kept).entries at ≡ None }
    ensures notes { (kept : Kept) (it : OwnTree) (note : Note) → AreTrees kept → Among it (trees_of kept) →
        is_iface_of kept.home.scenario it.own.id note.iface ≡ true →
        sets.contains (control_of kept).notes (edge_note note) ≡ sets.contains it.tree.vrf.notes note }
    ensures no_note { (kept : Kept) (note : Note) → AreTrees kept →
        ((it : OwnTree) → Among it (trees_of kept) → is_iface_of kept.home.scenario it.own.id note.iface ≡ false) →
        sets.contains (control_of kept).notes (edge_note note) ≡ false }
    ensures flows { (kept : Kept) (it : OwnTree) (flow : Flow) → AreTrees kept → Among it (trees_of kept) →
        maps.get (control_of kept).flows (flow_in it.own.id flow) ≡ option_map upstream_by (maps.get it.tree.vrf.flows flow) }
    ensures choices { (choice : Choice) → choice_of (upstream_by choice) ≡ choice }
    ensures no_flow { (kept : Kept) (key : VrfFlow) → AreTrees kept →
        ((it : OwnTree) → Among it (trees_of kept) → (it.own.id.0 == key.vrf.0) ≡ false) →
        maps.get (control_of kept).flows key ≡ None }
    ensures selections { (kept : Kept) (it : OwnTree) (selection : Selection) → AreTrees kept → Among it (trees_of kept) →
        Among selection it.tree.root.selections ↔ Among selection (selections_of (control_of kept) it.own.id) }
    ensures no_selection { (kept : Kept) (key : VrfPattern) → AreTrees kept →
        ((it : OwnTree) → Among it (trees_of kept) → (it.own.id.0 == key.vrf.0) ≡ false) →
        maps.get (control_of kept).selections key ≡ None }
{}
