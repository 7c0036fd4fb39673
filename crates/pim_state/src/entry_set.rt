//! Entries of interfaces that are looked for by the same.
ghost use Rattle.std.specs.Prelude.{◌≡◌, ◌||◌, ◌&&◌, not, [], OnOk, OnErr};
ghost use Rattle.std.specs.Bool.{OnTrue};
ghost use Rattle.std.specs.List.{list_any};
ghost use Rattle.scenario_defs.specs.declared.event.IfaceEntry.{IfaceEntry};
ghost use Rattle.pim_state.specs.Plan.{is_at};

use indexmap::IndexSet;
use mv_base::NoMemory;
use scenario_defs::IfaceEntry;
use std::alloc::Global;
use std::marker::Model;

/// Entries, each once, in no order that means anything.
#[derive(Drop)]
pub(crate) struct EntrySet {
    own: IndexSet<IfaceEntry>,
}

impl Model for EntrySet {
    ghost use Rattle.std.specs.Prelude.{List};
    ghost use Rattle.scenario_defs.specs.declared.event.IfaceEntry.{IfaceEntry};

    ghost Value = { List IfaceEntry };

    ghost view = { λ s. s.own.keys };
}

impl EntrySet {
    /// No entry. It takes no memory.
    pub fn new(alloc: Global) -> EntrySet
        ensures { result ≡ [] }
    {
        EntrySet {
            own: IndexSet::new(alloc),
        }
    }

    /// The entries.
    pub fn as_slice(&self) -> &[IfaceEntry]
        ensures { result.now ≡ self.now }
    {
        self.own.as_slice()
    }

    /// Puts the entry in.
    pub fn put(&mut self, at: IfaceEntry) -> Result<(), NoMemory>
        ensures each { (other : IfaceEntry) →
            OnOk result (list_any (is_at other) self.new ≡ (list_any (is_at other) self.old || is_at at other)) }
        ensures same { OnErr result (self.new ≡ self.old) }
    {
        self.own.insert(at)?;
        Ok(())
    }

    /// Takes the entry out, and answers whether none is left.
    pub fn take_out(&mut self, at: &IfaceEntry) -> bool
        ensures each { (other : IfaceEntry) → list_any (is_at other) self.new ≡ (list_any (is_at other) self.old && not (is_at at.now other)) }
        ensures none { OnTrue result (self.new ≡ []) }
    {
        self.own.swap_remove(at);
        self.own.is_empty()
    }
}
