//! Which inclusive tunnels may come or go where the routes of the peers become others.
ghost use Rattle.std.specs.Prelude.{◌≡◌, ◌++◌, ℕ, List};
ghost use Rattle.std.specs.FinMap as maps;
ghost use Rattle.mv_base.specs.declared.ids.NodeId.{NodeId};
ghost use Rattle.mldp.specs.declared.mldp_fec.fec.Fec.{Fec};
ghost use Rattle.edge_defs.specs.Edge.{Control};
ghost use Rattle.edge_defs.specs.Place.{EdgePlace};
ghost use Rattle.edge_defs.specs.Steps.{peers_run};
ghost use Rattle.edge_routing.specs.edge_updates.Inclusive.{AreTunnels, HasAllFrom};

/// Where a peer is lost, or its session comes up anew, none but the tunnels of its routes may come or go.
pub fn tunnels_of_a_peer_go()
    ensures lost { (place : EdgePlace) (old : Control) (peer : NodeId) (fecs : List Fec) → HasAllFrom place old peer fecs →
        AreTunnels place old (record old { peers = maps.remove old.peers peer }) fecs }
    ensures raised { (place : EdgePlace) (old : Control) (peer : NodeId) (fecs : List Fec) → HasAllFrom place old peer fecs →
        AreTunnels place old (record old { peers = maps.insert old.peers peer maps.empty }) fecs }
{}

/// Where the routes of the peers stay, or their delays are run, no tunnel comes or goes.
pub fn tunnels_stay()
    ensures alike { (place : EdgePlace) (old new : Control) (fecs : List Fec) → old.peers ≡ new.peers → AreTunnels place old new fecs }
    ensures delays { (place : EdgePlace) (now : ℕ) (control : Control) (fecs : List Fec) →
        AreTunnels place control (record control { peers = peers_run place now control.peers }) fecs }
{}

/// By two steps, one after the other, none but the tunnels of each may come or go.
pub fn tunnels_of_two_steps()
    ensures { (place : EdgePlace) (first second third : Control) (fecs more : List Fec) →
        AreTunnels place first second fecs → AreTunnels place second third more → AreTunnels place first third (fecs ++ more) }
{}
