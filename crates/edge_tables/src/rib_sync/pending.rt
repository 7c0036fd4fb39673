//! The changes that a flush hands out.
ghost use Rattle.std.specs.Prelude.{◌≡◌, [], ◌∷◌, MatchOption};

use crate::rib_sync::kept::News;
use mv_base::table_defs::Change;
use std::collections::BTreeMap;
use std::marker::Model;

/// The changes that are left: withdrawals first, then advertisements, each kind in the keys' order.
#[derive(Drop)]
pub struct Pending<K: Ord + Drop, V: Drop> {
    pub(crate) gone: BTreeMap<K, V>,
    pub(crate) news: BTreeMap<K, News<V>>,
}

impl<K: Ord + Drop, V: Drop> Model for Pending<K, V> {
    ghost use Rattle.std.specs.Prelude.{List};
    ghost use Rattle.mv_base.specs.declared.table_defs.change.Change.{Change};
    ghost use Rattle.edge_tables.specs.rib_sync.Kept.{changes_in};

    ghost Value = { List (Change K V) };

    ghost view = { λ p. changes_in p.gone p.news };
}

impl<K: Ord + Drop, V: Drop> Pending<K, V> {
    /// Takes the first change.
    pub fn next(&mut self) -> Option<Change<K, V>>
        ensures { MatchOption result ((self.old ≡ []) × (self.new ≡ [])) (λ change. self.old ≡ change ∷ self.new) }
    {
        if let Some((key, _)) = self.gone.pop_first() {
            return Some(Change::Unreach(key));
        }
        match self.news.pop_first() {
            Some((key, news)) => Some(Change::Reach(key, news.value)),
            None => None,
        }
    }
}
