//! What an outbox keeps: the table set, and beside it where the table sent differs.
ghost use Rattle.std.specs.Prelude.{◌≡◌, ◌↔◌, IsTrue, None, Some, [], true, false, OnOk, OnErr, IfOk, if◌then◌else◌};
ghost use Rattle.std.specs.Ordering.{eq_by_cmp};
ghost use Rattle.std.specs.Option.{option_copied, option_map};
ghost use Rattle.std.specs.BTreeMap.{get, IsOrdered};
ghost use Rattle.edge_tables.specs.rib_sync.Kept.{IsCopying, IsWell, as_news, set_at, sent_at};

use mv_base::NoMemory;
use std::alloc::Global;
use std::collections::BTreeMap;
use std::mem;

/// A value that was set, and the one that was sent before, if any.
#[derive(Drop)]
pub(crate) struct News<V: Drop> {
    pub(crate) value: V,
    pub(crate) sent: Option<V>,
}

/// The table set, and the keys at which the table sent differs: those that are gone, each with the value sent, and those that
/// are new or have a new value. So a flush hands out these two maps and takes no memory.
#[derive(Drop)]
pub(crate) struct Kept<K: Ord + Drop, V: Drop> {
    pub(crate) alloc: Global,
    pub(crate) up: bool,
    pub(crate) set: BTreeMap<K, V>,
    pub(crate) gone: BTreeMap<K, V>,
    pub(crate) news: BTreeMap<K, News<V>>,
}

// A copy of the value.
fn copied<T: Clone>(value: &T) -> Result<T, NoMemory>
    requires { IsCopying T.is_clone }
    ensures { IfOk result (λ copy. copy ≡ value.now) }
{
    let copy = value.clone()?;
    Ok(copy)
}

// A copy of the value, where there is one.
fn copied_option<T: Clone>(value: Option<&T>) -> Result<Option<T>, NoMemory>
    requires { IsCopying T.is_clone }
    ensures { IfOk result (λ copy. copy ≡ option_copied value.entry) }
{
    match value {
        None => Ok(None),
        Some(value) => Ok(Some(copied(value)?)),
    }
}

// Each entry, with nothing sent.
fn all_new<K: Clone + Ord + Drop, V: Clone + Drop>(
    alloc: Global,
    set: &BTreeMap<K, V>,
) -> Result<BTreeMap<K, News<V>>, NoMemory>
    requires keys { IsCopying K.is_clone }
    requires values { IsCopying V.is_clone }
    ensures news { IfOk result (λ news. (q : K) → get K.cmp news q ≡ option_map as_news (get K.cmp set.now q)) }
    ensures ordered { IfOk result (λ news. IsOrdered K.cmp news) }
{
    let mut news = BTreeMap::new(alloc);
    for (key, value) in set.iter() {
        let own = copied(key)?;
        let value = copied(value)?;
        news.insert(own, News { value, sent: None })?;
    }
    Ok(news)
}

impl<K: Clone + Ord + Drop, V: Clone + Eq + Drop> Kept<K, V> {
    pub(crate) fn of(alloc: Global) -> Kept<K, V>
        ensures well { IsWell K.cmp result }
        ensures up { result.up ≡ false }
        ensures set { result.set.entries ≡ [] }
    {
        Kept {
            alloc,
            up: false,
            set: BTreeMap::new(alloc),
            gone: BTreeMap::new(alloc),
            news: BTreeMap::new(alloc),
        }
    }

    pub(crate) fn set(&mut self, key: K, value: V) -> Result<(), NoMemory>
        requires well { IsWell K.cmp self.old }
        requires exact { (v w : V) → V.eq v w ≡ true → v ≡ w }
        requires keys { IsCopying K.is_clone }
        requires values { IsCopying V.is_clone }
        ensures well { IsWell K.cmp self.new }
        ensures up { self.new.up ≡ self.old.up }
        ensures sent { (q : K) → sent_at K.cmp self.new q ≡ sent_at K.cmp self.old q }
        ensures ok { OnOk result ((q : K) →
            set_at K.cmp self.new q ≡ (if eq_by_cmp K.cmp key q then Some value else set_at K.cmp self.old q)) }
        ensures err { OnErr result ((q : K) → set_at K.cmp self.new q ≡ set_at K.cmp self.old q) }
    {
        if !self.up {
            self.set.insert(key, value)?;
            return Ok(());
        }
        let sent = copied_option(self.sent(&key))?;
        let own = copied(&key)?;
        if sent.as_ref() == Some(&value) {
            self.set.insert(own, value)?;
            self.news.remove(&key);
            self.gone.remove(&key);
            return Ok(());
        }
        let again = copied(&key)?;
        let news = copied(&value)?;
        self.news.insert(again, News { value: news, sent })?;
        if self.set.insert(own, value).is_err() {
            self.news.remove(&key);
            return Err(NoMemory);
        }
        self.gone.remove(&key);
        Ok(())
    }

    pub(crate) fn unset(&mut self, key: &K) -> Result<(), NoMemory>
        requires well { IsWell K.cmp self.old }
        requires keys { IsCopying K.is_clone }
        requires values { IsCopying V.is_clone }
        ensures well { IsWell K.cmp self.new }
        ensures up { self.new.up ≡ self.old.up }
        ensures sent { (q : K) → sent_at K.cmp self.new q ≡ sent_at K.cmp self.old q }
        ensures ok { OnOk result ((q : K) →
            set_at K.cmp self.new q ≡ (if eq_by_cmp K.cmp key.now q then None else set_at K.cmp self.old q)) }
        ensures err { OnErr result ((q : K) → set_at K.cmp self.new q ≡ set_at K.cmp self.old q) }
    {
        if !self.up {
            self.set.remove(key);
            return Ok(());
        }
        let Some(sent) = copied_option(self.sent(key))? else {
            self.news.remove(key);
            self.set.remove(key);
            return Ok(());
        };
        self.gone.insert(copied(key)?, sent)?;
        self.news.remove(key);
        self.set.remove(key);
        Ok(())
    }

    pub(crate) fn replay_all(&mut self) -> Result<(), NoMemory>
        requires well { IsWell K.cmp self.old }
        requires keys { IsCopying K.is_clone }
        requires values { IsCopying V.is_clone }
        ensures well { IsWell K.cmp self.new }
        ensures up { OnOk result ((self.new.up ≡ true) × ((q : K) → sent_at K.cmp self.new q ≡ None)) }
        ensures set { (q : K) → set_at K.cmp self.new q ≡ set_at K.cmp self.old q }
        ensures err { OnErr result (self.new ≡ self.old) }
    {
        let news = all_new(self.alloc, &self.set)?;
        self.up = true;
        self.gone.clear();
        self.news = news;
        Ok(())
    }

    // What was sent at the key.
    fn sent(&self, key: &K) -> Option<&V>
        ensures { option_copied result ≡ sent_at K.cmp self.now key.now }
    {
        if !self.up {
            return None;
        }
        if let Some(value) = self.gone.get(key) {
            return Some(value);
        }
        if let Some(news) = self.news.get(key) {
            return news.sent.as_ref();
        }
        self.set.get(key)
    }

    pub(crate) fn down(&mut self)
        ensures well { IsWell K.cmp self.new }
        ensures up { self.new.up ≡ false }
        ensures set { self.new.set ≡ self.old.set }
    {
        self.up = false;
        self.gone.clear();
        self.news.clear();
    }

    /// Whether nothing is gone and nothing is new.
    pub(crate) fn is_clear(&self) -> bool
        ensures { IsTrue result ↔ ((self.now.gone.entries ≡ []) × (self.now.news.entries ≡ [])) }
    {
        self.gone.is_empty() && self.news.is_empty()
    }

    /// Hands out what is gone and what is new. With that nothing is pending.
    pub(crate) fn take(&mut self) -> (BTreeMap<K, V>, BTreeMap<K, News<V>>)
        requires well { IsWell K.cmp self.old }
        ensures well { IsWell K.cmp self.new }
        ensures gone { result.0 ≡ self.old.gone }
        ensures news { result.1 ≡ self.old.news }
        ensures up { self.new.up ≡ self.old.up }
        ensures set { self.new.set ≡ self.old.set }
        ensures sent { self.old.up ≡ true → (q : K) → sent_at K.cmp self.new q ≡ set_at K.cmp self.old q }
    {
        let gone = mem::replace(&mut self.gone, BTreeMap::new(self.alloc));
        let news = mem::replace(&mut self.news, BTreeMap::new(self.alloc));
        (gone, news)
    }
}
