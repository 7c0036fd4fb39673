//! Changes that a receiver has not taken yet.
ghost use Rattle.std.specs.Prelude.{◌≡◌, ◌≢◌, ◌++◌, [], ◌∷◌, List};
ghost use Rattle.std.specs.FinMap.{FinMap, IsAntisymmetric, get};
ghost use Rattle.mv_base.specs.declared.table_defs.change.Change.{Change};
ghost use Rattle.mv_base.specs.table_defs.Changes.{LeadsTo, applied, applied_all, changes, key_of, value_of};
ghost use Rattle.table_laws.specs.Words.{IsExact};

/// Pending changes lead from what the receiver has taken to what the sender holds out, at each step of either.
pub fn pending_changes<K: Ord, V: PartialEq>()
    requires keys { IsAntisymmetric K.cmp }
    requires values { IsExact V.eq }
    // The sender goes on to a new table, and sends the changes to it.
    ensures sent { (taken old new : FinMap K.cmp V) (pending : List (Change K V)) →
        LeadsTo taken pending old → LeadsTo taken (pending ++ changes V.eq old new) new }
    // The receiver takes the first pending change.
    ensures taken { (taken out : FinMap K.cmp V) (change : Change K V) (pending : List (Change K V)) →
        LeadsTo taken (change ∷ pending) out → LeadsTo (applied taken change) pending out }
    // With nothing pending both have one table.
    ensures none { (taken out : FinMap K.cmp V) → LeadsTo taken [] out → taken ≡ out }
    ensures reached { (taken out : FinMap K.cmp V) (pending : List (Change K V)) →
        LeadsTo taken pending out → applied_all taken pending ≡ out }
    // Each pending change changes the table to which it is applied.
    ensures changing { (taken out : FinMap K.cmp V) (before thereafter : List (Change K V)) (change : Change K V) →
        LeadsTo taken (before ++ change ∷ thereafter) out → get (applied_all taken before) (key_of change) ≢ value_of change }
{}
