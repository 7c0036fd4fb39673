//! What changes do to a table, and which changes there are between two tables.
ghost use Rattle.std.specs.Prelude.{◌≡◌, ◌≢◌, ◌↔◌, ◌++◌, [], ◌∷◌, List};
ghost use Rattle.std.specs.FinMap.{FinMap, IsAntisymmetric, empty, get};
ghost use Rattle.mv_base.specs.declared.table_defs.change.Change.{Change};
ghost use Rattle.mv_base.specs.table_defs.Changes.{advertisements, applied, applied_all, changes};
ghost use Rattle.mv_base.specs.table_defs.Changes.{difference, key_of, last_value, value_of, values_at};
ghost use Rattle.table_laws.specs.Words.{AreChanges, IsBehind, IsExact};

/// After a change its key has its value, and each other key what it had. No other table is so.
pub fn one_change<K: Ord, V>()
    requires { IsAntisymmetric K.cmp }
    ensures { (old new : FinMap K.cmp V) (change : Change K V) → IsBehind old change new ↔ (new ≡ applied old change) }
{}

/// Changes, key by key: those between two tables give each key the difference of its values, and any changes leave it the
/// last value that they give it.
pub fn each_key<K: Ord, V: PartialEq>()
    ensures values { (old new : FinMap K.cmp V) (key : K) →
        values_at K.cmp key (changes V.eq old new) ≡ difference V.eq (get old key) (get new key) }
    ensures last { (old : FinMap K.cmp V) (list : List (Change K V)) (key : K) →
        get (applied_all old list) key ≡ last_value (get old key) (values_at K.cmp key list) }
{}

/// The changes between two tables lead from the old one to the new one, and none of them is idle.
pub fn new_table<K: Ord, V: PartialEq>()
    requires keys { IsAntisymmetric K.cmp }
    requires values { IsExact V.eq }
    ensures reached { (old new : FinMap K.cmp V) → applied_all old (changes V.eq old new) ≡ new }
    // Each one changes the table to which it is applied.
    ensures changing { (old new : FinMap K.cmp V) (before thereafter : List (Change K V)) (change : Change K V) →
        changes V.eq old new ≡ before ++ change ∷ thereafter → get (applied_all old before) (key_of change) ≢ value_of change }
    ensures none { (table : FinMap K.cmp V) → changes V.eq table table ≡ [] }
{}

/// The changes between two tables are the one list in order that gives each key the difference of its values. So whoever
/// keeps such a list from change to change has this one.
pub fn one_list<K: Ord, V: PartialEq>()
    requires { IsAntisymmetric K.cmp }
    ensures { (old new : FinMap K.cmp V) (list : List (Change K V)) → AreChanges V.eq old new list ↔ (list ≡ changes V.eq old new) }
{}

/// From the empty table on, the changes are an advertisement of each entry, in the keys' order.
pub fn first_changes<K: Ord, V: PartialEq>()
    requires { IsAntisymmetric K.cmp }
    ensures { (new : FinMap K.cmp V) → changes V.eq empty new ≡ advertisements new }
{}
