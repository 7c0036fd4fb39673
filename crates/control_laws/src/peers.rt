//! What the tree of a VRF takes of the routes of the peers.
ghost use Rattle.std.specs.Prelude.{◌≡◌, ◌↔◌, ◌⊎◌, ℕ, true, List, Option, None, Some, fold, is_some};
ghost use Rattle.std.specs.FinMap as maps;
ghost use Rattle.mv_base.specs.Lists.{Among};
ghost use Rattle.mv_base.specs.declared.ids.NodeId.{NodeId};
ghost use Rattle.mv_base.specs.core_walks.Core.{Core};
ghost use Rattle.mldp.specs.declared.mldp_fec.fec.Fec.{Fec};
ghost use Rattle.bgp_messages.specs.declared.bgp_attributes.key.Key.{Key};
ghost use Rattle.bgp_messages.specs.declared.bgp_attributes.update.Change.{Change};
ghost use Rattle.bgp_messages.specs.bgp_update.Written.{IsWritableKey};
ghost use Rattle.vrf_words.specs.tree_defs.Trees.{TreeData};
ghost use Rattle.edge_defs.specs.Edge.{Control, Taken, TakenRoute};
ghost use Rattle.edge_defs.specs.Imported.{taken_from};
ghost use Rattle.edge_defs.specs.Imported as imports;
ghost use Rattle.edge_defs.specs.Place.{EdgePlace, OwnVrf, addr_of, own_vrfs};
ghost use Rattle.edge_defs.specs.Steps.{peers_run, taken_change};
ghost use Rattle.edge_defs.specs.Tunnels.{inclusive_tunnels};
ghost use Rattle.edge_routes.specs.edge_home.Home.{place_of};
ghost use Rattle.control_laws.specs.Between.{AreTreesBetween, MakesBetween};
ghost use Rattle.control_laws.specs.Control.{Kept, control_of};
ghost use Rattle.control_laws.specs.Peers.{AreWritable, IsTreeBetween, changed_trees, inclusive_of, key_of};
ghost use Rattle.control_laws.specs.Peers.{route_after, told_inclusive, tree_change, tree_losses, tree_updates};
ghost use Rattle.control_laws.specs.Peers.{tree_lost, tree_run, tree_taking, tree_updated};

/// The tree that takes a change of one route of a peer keeps of its VRF what the edge keeps after the change, but for what its flows
/// want: flows and wants stay as the last refresh left them. The keys of all tables have spellings, and still have them after it.
pub fn a_changed_route_is_taken()
    ensures kept { (place : EdgePlace) (control : Control) (own : OwnVrf) (peer : NodeId) (taken : Taken) (now : ℕ) (change : Change)
        (tree : TreeData) → maps.get control.peers peer ≡ Some taken → AreWritable control → IsWritableKey (key_of change) →
        IsTreeBetween place control own tree →
        IsTreeBetween place (record control { peers = maps.insert control.peers peer (taken_change now taken change) }) own
        (tree_taking place own peer now taken change tree) }
    ensures spelled { (control : Control) (peer : NodeId) (taken : Taken) (now : ℕ) (change : Change) →
        maps.get control.peers peer ≡ Some taken → AreWritable control → IsWritableKey (key_of change) →
        AreWritable (record control { peers = maps.insert control.peers peer (taken_change now taken change) }) }
    ensures rest { (place : EdgePlace) (own : OwnVrf) (peer : NodeId) (now : ℕ) (key : Key) (old new : Option TakenRoute)
        (tree : TreeData) → ((tree_change place own peer now key old new tree).vrf.flows ≡ tree.vrf.flows)
        × ((tree_change place own peer now key old new tree).wants ≡ tree.wants) }
{}

/// The same of all changes of a message, one after another.
pub fn an_update_is_taken()
    ensures { (place : EdgePlace) (control : Control) (own : OwnVrf) (peer : NodeId) (taken : Taken) (now : ℕ) (changes : List Change)
        (tree : TreeData) → maps.get control.peers peer ≡ Some taken → AreWritable control →
        ((change : Change) → Among change changes → IsWritableKey (key_of change)) → IsTreeBetween place control own tree →
        IsTreeBetween place (record control { peers = maps.insert control.peers peer (fold (taken_change now) taken changes) }) own
        (tree_updated place own peer now taken changes tree)
        × AreWritable (record control { peers = maps.insert control.peers peer (fold (taken_change now) taken changes) }) }
{}

/// The tree that forgets all that it took of a peer keeps of its VRF what the edge keeps where the peer is lost.
pub fn a_lost_peer_is_forgotten()
    ensures kept { (place : EdgePlace) (control : Control) (own : OwnVrf) (peer : NodeId) (tree : TreeData) →
        IsTreeBetween place control own tree → IsTreeBetween place (record control { peers = maps.remove control.peers peer }) own
        (tree_lost place own peer (taken_from control peer) tree) }
    ensures spelled { (control : Control) (peer : NodeId) → AreWritable control →
        AreWritable (record control { peers = maps.remove control.peers peer }) }
    ensures rest { (place : EdgePlace) (own : OwnVrf) (control : Control) (peer : NodeId) (tree : TreeData) →
        ((tree_lost place own peer (taken_from control peer) tree).vrf.flows ≡ tree.vrf.flows)
        × ((tree_lost place own peer (taken_from control peer) tree).wants ≡ tree.wants) }
{}

/// The same where the session with a peer comes up anew: its table is empty then. Where the session was down, nothing is to be forgotten.
pub fn a_raised_peer_has_no_route()
    ensures kept { (place : EdgePlace) (control : Control) (own : OwnVrf) (peer : NodeId) (tree : TreeData) →
        IsTreeBetween place control own tree →
        IsTreeBetween place (record control { peers = maps.insert control.peers peer maps.empty }) own
        (tree_lost place own peer (taken_from control peer) tree) }
    ensures down { (place : EdgePlace) (control : Control) (own : OwnVrf) (peer : NodeId) (tree : TreeData) →
        maps.get control.peers peer ≡ None → IsTreeBetween place control own tree →
        IsTreeBetween place (record control { peers = maps.insert control.peers peer maps.empty }) own tree }
    ensures spelled { (control : Control) (peer : NodeId) → AreWritable control →
        AreWritable (record control { peers = maps.insert control.peers peer maps.empty }) }
{}

/// The tree whose delays of selective routes are run keeps of its VRF what the edge keeps after its timers of taken routes: a route that
/// the VRF imports is run in the whole exactly where it is due.
pub fn delays_are_run()
    ensures kept { (place : EdgePlace) (now : ℕ) (control : Control) (own : OwnVrf) → Among own (own_vrfs place) → (tree : TreeData) →
        IsTreeBetween place control own tree →
        IsTreeBetween place (record control { peers = peers_run place now control.peers }) own (tree_run now tree) }
    ensures spelled { (place : EdgePlace) (now : ℕ) (control : Control) → AreWritable control →
        AreWritable (record control { peers = peers_run place now control.peers }) }
    ensures inclusive { (place : EdgePlace) (own : OwnVrf) (now : ℕ) (control : Control) (fec : Fec) →
        Among fec (inclusive_of place control own)
        ↔ Among fec (inclusive_of place (record control { peers = peers_run place now control.peers }) own) }
{}

/// Which inclusive tunnels of a VRF come and go where one route of a peer changes: none but that of the new route comes, and that is one
/// after the change; none but that of the old route goes. A key that is none of an inclusive route changes none.
pub fn inclusive_tunnels_come_and_go()
    ensures came { (place : EdgePlace) (own : OwnVrf) (control : Control) (peer : NodeId) (taken : Taken) →
        maps.get control.peers peer ≡ Some taken → (now : ℕ) (change : Change) (fec : Fec) →
        Among fec (inclusive_of place (record control { peers = maps.insert control.peers peer (taken_change now taken change) }) own) →
        (told_inclusive place own peer (key_of change) (route_after now change (maps.get taken (key_of change))) ≡ Some fec)
        ⊎ Among fec (inclusive_of place control own) }
    ensures went { (place : EdgePlace) (own : OwnVrf) (control : Control) (peer : NodeId) (taken : Taken) →
        maps.get control.peers peer ≡ Some taken → (now : ℕ) (change : Change) (fec : Fec) →
        Among fec (inclusive_of place control own) →
        (told_inclusive place own peer (key_of change) (maps.get taken (key_of change)) ≡ Some fec)
        ⊎ Among fec (inclusive_of place (record control { peers = maps.insert control.peers peer (taken_change now taken change) }) own) }
    ensures new { (place : EdgePlace) (own : OwnVrf) (control : Control) (peer : NodeId) (taken : Taken) →
        maps.get control.peers peer ≡ Some taken → (now : ℕ) (change : Change) (fec : Fec) →
        told_inclusive place own peer (key_of change) (route_after now change (maps.get taken (key_of change))) ≡ Some fec →
        Among fec (inclusive_of place (record control { peers = maps.insert control.peers peer (taken_change now taken change) }) own) }
    ensures same { (place : EdgePlace) (own : OwnVrf) (control : Control) (peer : NodeId) (taken : Taken) →
        maps.get control.peers peer ≡ Some taken → (now : ℕ) (change : Change) → imports.inclusive_of (key_of change) ≡ None → (fec : Fec) →
        Among fec (inclusive_of place control own)
        ↔ Among fec (inclusive_of place (record control { peers = maps.insert control.peers peer (taken_change now taken change) }) own) }
{}

/// Which inclusive tunnels of a VRF go where a peer is lost: those of its table, where no other peer that is up has its address.
pub fn inclusive_tunnels_of_a_lost_peer_go()
    ensures left { (place : EdgePlace) (own : OwnVrf) (control : Control) (peer : NodeId) (fec : Fec) →
        Among fec (inclusive_of place (record control { peers = maps.remove control.peers peer }) own) →
        Among fec (inclusive_of place control own) }
    ensures lost { (place : EdgePlace) (own : OwnVrf) (control : Control) (peer : NodeId) (fec : Fec) →
        Among fec (inclusive_of place control own) → Among fec (inclusive_tunnels place own (peer, taken_from control peer))
        ⊎ Among fec (inclusive_of place (record control { peers = maps.remove control.peers peer }) own) }
    ensures gone { (place : EdgePlace) (own : OwnVrf) (control : Control) (peer : NodeId) (fec : Fec) →
        ((other : NodeId) → is_some (maps.get control.peers other) ≡ true →
        addr_of place.scenario other ≡ addr_of place.scenario peer → other ≡ peer) →
        Among fec (inclusive_tunnels place own (peer, taken_from control peer)) →
        ¬ (Among fec (inclusive_of place (record control { peers = maps.remove control.peers peer }) own)) }
{}

// ---- all trees of an edge

/// What all trees and the peer's table make of a message is what the edge makes of it.
pub fn trees_take_an_update()
    ensures { (kept : Kept) → AreTreesBetween kept → (peer : NodeId) (now : ℕ) (trees : List TreeData) (taken : Taken)
        (changes : List Change) → maps.get kept.peers peer ≡ Some taken → AreWritable (control_of kept) →
        ((change : Change) → Among change changes → IsWritableKey (key_of change)) →
        ((core : Core) → trees ≡ changed_trees (tree_updates kept core peer now taken changes) kept) →
        MakesBetween (record kept { trees = trees; peers = maps.insert kept.peers peer (fold (taken_change now) taken changes) })
        (record (control_of kept) { peers = maps.insert kept.peers peer (fold (taken_change now) taken changes) }) }
{}

/// What all trees make of the loss of a peer is what the edge makes of it.
pub fn trees_forget_a_lost_peer()
    ensures { (kept : Kept) → AreTreesBetween kept → (peer : NodeId) (trees : List TreeData) →
        ((core : Core) → trees ≡ changed_trees (tree_losses kept core peer) kept) →
        MakesBetween (record kept { trees = trees; peers = maps.remove kept.peers peer })
        (record (control_of kept) { peers = maps.remove kept.peers peer }) }
{}

/// What all trees make of a session that comes up is what the edge makes of it. Where it was down, they stay as they are.
pub fn trees_take_a_raised_peer()
    ensures anew { (kept : Kept) → AreTreesBetween kept → (peer : NodeId) (trees : List TreeData) →
        ((core : Core) → trees ≡ changed_trees (tree_losses kept core peer) kept) →
        MakesBetween (record kept { trees = trees; peers = maps.insert kept.peers peer maps.empty })
        (record (control_of kept) { peers = maps.insert kept.peers peer maps.empty }) }
    ensures down { (kept : Kept) → AreTreesBetween kept → (peer : NodeId) → maps.get kept.peers peer ≡ None →
        MakesBetween (record kept { peers = maps.insert kept.peers peer maps.empty })
        (record (control_of kept) { peers = maps.insert kept.peers peer maps.empty }) }
{}

/// What all trees make of the delays of taken routes is what the edge makes of them.
pub fn trees_run_delays()
    ensures { (kept : Kept) → AreTreesBetween kept → (now : ℕ) (trees : List TreeData) →
        trees ≡ changed_trees (λ own tree. tree_run now tree) kept → (core : Core) →
        MakesBetween (record kept { trees = trees; peers = peers_run (place_of kept.home core) now kept.peers })
        (record (control_of kept) { peers = peers_run (place_of kept.home core) now kept.peers }) }
{}
