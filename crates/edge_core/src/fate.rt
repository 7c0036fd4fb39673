//! What becomes of a datagram at an edge.
use label_defs::Branch;
use mv_base::Seq;
use scenario_defs::IfaceList;

/// Branches of trees, in order of neighbours, and those of one neighbour in order of labels.
pub type Branches = Seq<Branch>;

/// Where a datagram goes: the interfaces at which it leaves, in order, and the branches on which a copy is put.
#[derive(Drop)]
pub struct Fate {
    pub outs: IfaceList,
    pub branches: Branches,
}
