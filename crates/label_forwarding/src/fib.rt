//! The forwarding table of a node.
ghost use Rattle.std.specs.Prelude.{◌≡◌, None, Some, OnOk, OnErr, IfOk, IfSome, IfNone};
ghost use Rattle.std.specs.List.{list_any};
ghost use Rattle.std.specs.FinMap as maps;
ghost use Rattle.std.specs.FinSet as sets;
ghost use Rattle.label_defs.specs.mldp.declared.mldp_fec.fec.Fec.{Fec};
ghost use Rattle.label_defs.specs.LabelData.{same_fec};
ghost use Rattle.label_forwarding.specs.FibData.{FibData, IsEntry, AreHops, nothing, with_leaf, is_known, is_on, branch_in, hop};

use crate::branch::Branch;
use crate::entry::Entry;
use crate::pairs::{Pairs, forget, note};
use crate::room::make_room;
use crate::slots::{Slots, add, count, fecs_of, give_back, set_leaf, take};
use indexmap::IndexMap;
use label_defs::of_mldp::mldp_fec::Fec;
use mv_base::{NoMemory, NodeId};
use std::alloc::Global;
use std::marker::Model;

/// The forwarding table of a node. Contracts see it as a `FibData`.
///
/// It notes labels, each with the FEC of the copies that a neighbour sends under it. An entry is there exactly while a
/// noted label names its FEC, the node is a leaf of it, or it has a branch.
#[derive(Drop)]
pub struct Fib {
    alloc: Global,
    pairs: Pairs,
    slots: Slots,
}

impl Model for Fib {
    ghost use Rattle.label_forwarding.specs.FibData.{FibData, fib_code};

    ghost Value = { FibData };

    ghost coded = { fib_code };

    ghost use Rattle.label_forwarding.specs.Slots.{IsFib, fib_of};

    ghost view = { λ f. fib_of f.pairs f.slots };

    ghost invariant = { λ f. IsFib f.pairs f.slots };
}

impl Fib {
    /// The table in which nothing stands. It takes no memory.
    pub fn of(alloc: Global) -> Fib
        ensures { result ≡ nothing }
    {
        Fib {
            alloc,
            pairs: IndexMap::new(alloc),
            slots: IndexMap::new(alloc),
        }
    }

    /// Notes that copies which the neighbour sends under the label are of the FEC.
    pub fn map(&mut self, from: NodeId, label: u32, fec: Fec) -> Result<(), NoMemory>
        requires { maps.get self.old.pairs (hop from label) ≡ None }
        ensures ok { OnOk result (self.new ≡ record self.old { pairs = maps.insert self.old.pairs (hop from label) fec }) }
        ensures err { OnErr result (self.new ≡ self.old) }
    {
        make_room(&mut self.pairs)?;
        make_room(&mut self.slots)?;
        note(&mut self.pairs, Branch { node: from, label }, &fec);
        count(&mut self.slots, self.alloc, &fec);
        Ok(())
    }

    /// Takes out what was noted of the neighbour's label, where it was. It takes no memory.
    pub fn unmap(&mut self, from: NodeId, label: u32)
        ensures { self.new ≡ record self.old { pairs = maps.remove self.old.pairs (hop from label) } }
    {
        if let Some(fec) = forget(&mut self.pairs, Branch { node: from, label }) {
            let mut slot = take(&mut self.slots, self.alloc, &fec);
            slot.mapped -= 1;
            give_back(&mut self.slots, &fec, slot);
        }
    }

    /// Says whether the node is a leaf of the tree.
    pub fn set_leaf(&mut self, fec: Fec, leaf: bool) -> Result<(), NoMemory>
        ensures ok { OnOk result (self.new ≡ record self.old { leaves = with_leaf self.old.leaves fec leaf }) }
        ensures err { OnErr result (self.new ≡ self.old) }
    {
        make_room(&mut self.slots)?;
        set_leaf(&mut self.slots, self.alloc, &fec, leaf);
        Ok(())
    }

    /// Adds the branch to the tree. One that is there stays as it is.
    pub fn branch(&mut self, fec: Fec, branch: Branch) -> Result<(), NoMemory>
        ensures ok { OnOk result (self.new ≡ record self.old { branches = sets.insert self.old.branches (branch_in fec branch) }) }
        ensures err { OnErr result (self.new ≡ self.old) }
    {
        make_room(&mut self.slots)?;
        add(&mut self.slots, self.alloc, &fec, branch)
    }

    /// Removes the branch from the tree, where it is there. It takes no memory.
    pub fn unbranch(&mut self, fec: &Fec, branch: Branch)
        ensures { self.new ≡ record self.old { branches = sets.remove self.old.branches (branch_in fec.now branch) } }
    {
        if self.slots.contains_key(fec) {
            let mut slot = take(&mut self.slots, self.alloc, fec);
            slot.entry.branches.remove(branch);
            give_back(&mut self.slots, fec, slot);
        }
    }

    /// The entry of copies that the neighbour sends under the label, where that is noted. It takes no memory.
    pub fn lookup(&self, from: NodeId, label: u32) -> Option<&Entry>
        ensures noted { IfSome result (λ entry.
            (maps.get self.now.pairs (hop from label) ≡ Some entry.now.fec) × IsEntry self.now entry.now) }
        ensures none { IfNone result (maps.get self.now.pairs (hop from label) ≡ None) }
    {
        let fec = self.pairs.get(&Branch { node: from, label })?;
        let slot = self.slots.get(fec)?;
        Some(&slot.entry)
    }

    /// The branches of the tree in order of neighbours, those of one neighbour in order of labels, each once. There are none
    /// without an entry. It takes no memory.
    pub fn push(&self, fec: &Fec) -> &[Branch]
        ensures { AreHops self.now fec.now result.now }
    {
        match self.slots.get(fec) {
            Some(slot) => slot.entry.branches(),
            None => &[],
        }
    }

    /// Whether the node is on the tree: it is a leaf of it, or has a branch. It takes no memory.
    pub fn is_on(&self, fec: &Fec) -> bool
        ensures { result ≡ is_on self.now fec.now }
    {
        match self.slots.get(fec) {
            Some(slot) => slot.is_on(),
            None => false,
        }
    }

    /// Whether the node is a leaf of the tree. It takes no memory.
    pub fn is_leaf(&self, fec: &Fec) -> bool
        ensures { result ≡ sets.contains self.now.leaves fec.now }
    {
        match self.slots.get(fec) {
            Some(slot) => slot.entry.leaf,
            None => false,
        }
    }

    /// The FECs of all entries, each once, in no order.
    pub fn trees(&self, alloc: Global) -> Result<Vec<Fec>, NoMemory>
        ensures { IfOk result (λ fecs. (fec : Fec) → list_any (λ own. same_fec own fec) fecs.items ≡ is_known self.now fec) }
    {
        fecs_of(alloc, &self.slots)
    }
}
