//! What is put is what an edge puts by its data.
ghost use Rattle.std.specs.Prelude.{◌≡◌, ◌++◌};
ghost use Rattle.mv_base.specs.declared.ids.NodeId.{NodeId};
ghost use Rattle.edge_defs.specs.Edge.{Control};
ghost use Rattle.edge_defs.specs.Held.{put_to, told};
ghost use Rattle.edge_defs.specs.Place.{EdgePlace};
ghost use Rattle.edge_tables.specs.Tables.{IsBetween, PeerTable, put_after, texts};

/// Where a peer's table is what the edge holds for it by its new data, and the peer was sent what it was to have by the old
/// data, a put appends the changes that the edge puts between both, and the peer was sent what it is to have by the new data.
pub fn puts_are_those_of_the_edge()
    ensures waiting { (place : EdgePlace) (old new : Control) (peer : NodeId) (table : PeerTable) →
        IsBetween place old new peer table →
        (put_after table).waiting ≡ table.waiting ++ texts (put_to place old new peer) }
    ensures told { (place : EdgePlace) (old new : Control) (peer : NodeId) (table : PeerTable) →
        IsBetween place old new peer table →
        (put_after table).told ≡ told place new peer }
{}
