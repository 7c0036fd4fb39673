//! What a forwarding table says of a FEC.
ghost use Rattle.std.specs.Prelude.{◌≡◌};
ghost use Rattle.std.specs.FinMap as maps;

use crate::branch::Branch;
use crate::branches::Branches;
use label_defs::of_mldp::mldp_fec::Fec;

/// What becomes of copies on a tree: whether the node is a leaf of it, and its branches.
#[derive(Drop)]
pub struct Entry {
    pub fec: Fec,
    pub leaf: bool,
    pub(crate) branches: Branches,
}

impl Entry {
    /// The branches in order of neighbours, and those of one neighbour in order of labels.
    pub fn branches(&self) -> &[Branch]
        ensures { result.now ≡ maps.keys self.now.branches }
    {
        self.branches.as_slice()
    }
}
