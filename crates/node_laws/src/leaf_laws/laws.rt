//! A law of the trees of which an edge is to be a leaf.
ghost use Rattle.std.specs.Prelude.{◌≡◌, true};
ghost use Rattle.std.specs.FinSet as sets;
ghost use Rattle.mldp.specs.declared.mldp_fec.fec.Fec.{Fec};
ghost use Rattle.scenario_defs.specs.Rules.{Rules};
ghost use Rattle.edge_defs.specs.Edge.{Control};
ghost use Rattle.edge_defs.specs.Place.{EdgePlace};
ghost use Rattle.edge_defs.specs.Tunnels.{leaves};
ghost use Rattle.mldp_node.specs.NodeData.{MayWant};
ghost use Rattle.node_laws.specs.Places.{node_place};
ghost use Rattle.node_laws.specs.leaf_laws.Peers.{ArePeers};

/// Each tree of which an edge is to be a leaf is one that its label part may want: a P2MP LSP with a spelling, whose root is another node
/// of the scenario (RFC 6388 section 2.2; RFC 6514 sections 9.1.2 and 12.3).
pub fn leaves_may_be_wanted()
    ensures { (place : EdgePlace) (control : Control) (fec : Fec) → Rules place.scenario → ArePeers place control →
        sets.contains (leaves place control) fec ≡ true → MayWant (node_place place.scenario place.me) fec }
{}
