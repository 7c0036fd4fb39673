//! The labels of a node, and its forwarding table.
ghost use Rattle.std.specs.Prelude.{◌≡◌, ◌≤◌, ◌<◌, ◌^◌, ◌+◌, ◌==◌, true, not, is_some, None, Some, map, count_by, IfOk, OnOk};
ghost use Rattle.std.specs.FinMap as maps;
ghost use Rattle.std.specs.FinSet as sets;
ghost use Rattle.label_defs.specs.declared.label_use.LabelUse.TheVariants as uses;
ghost use Rattle.label_defs.specs.Keys.{fec_cmp};
ghost use Rattle.label_defs.specs.LabelData.{is_rested};
ghost use Rattle.label_defs.specs.Members.{in_order};
ghost use Rattle.label_defs.specs.Settling.{upstream_of};
ghost use Rattle.label_defs.specs.Steps.{branch_to, woken};
ghost use Rattle.label_forwarding.specs.FibData.{with_leaf, is_on};
ghost use Rattle.label_trees.specs.label_uses.Uses.{use_in, set_use, free_in, mapped_in, with_mapped, with_released, without, AreBindings};
ghost use Rattle.label_trees.specs.Trees.{Trees, untouched, trees_in, fib_with, IsFibOf};

use crate::label_uses::LabelUses;
use crate::loss::{branches_toward, unbranch_all, unmap_all};
use crate::mapped::note;
use crate::order::in_order;
use label_forwarding::{Branch, Fib};
use mldp::mldp_fec::Fec;
use mv_base::{NoMemory, NodeId};
use std::alloc::Global;
use std::marker::Model;
use tunnel_bindings::{Bindings, Incarnation};

/// The labels of a node, its leaves and its branches, with the forwarding table that says the same. It must be closed.
///
/// After want of memory nothing is said of what it has, but for what ties its parts to each other.
pub struct LabelTrees {
    alloc: Global,
    uses: LabelUses,
    fib: Fib,
}

impl Model for LabelTrees {
    ghost use Rattle.label_trees.specs.Trees.{Trees, trees_code, AreMapped};

    ghost Value = { Trees };

    ghost coded = { trees_code };

    ghost view = { λ t. record { uses = t.uses; leaves = t.fib.leaves; branches = t.fib.branches } };

    ghost invariant = { λ t. AreMapped t.fib.pairs t.uses.labels };
}

impl LabelTrees {
    /// So many labels from 16 on, each free, no session and no tree. A label that is released rests for `life` ticks and one more.
    pub fn of(alloc: Global, count: u32, life: u64) -> Result<LabelTrees, NoMemory>
        requires few { count ≤ 65536 }
        requires short { life ≤ 1000 }
        ensures { IfOk result (λ fresh. fresh ≡ untouched life count) }
    {
        Ok(LabelTrees {
            alloc,
            uses: LabelUses::of(alloc, count, life)?,
            fib: Fib::of(alloc),
        })
    }

    /// The session with the neighbour comes up: this raise of it is the present one.
    pub fn raise(&mut self, peer: NodeId, session: Incarnation) -> Result<(), NoMemory>
        requires { maps.get self.old.uses.sessions peer ≡ None }
        ensures { OnOk result (self.new ≡
            record self.old { uses = record self.old.uses { sessions = maps.insert self.old.uses.sessions peer session } }) }
    {
        self.uses.raise(peer, session)
    }

    /// Says whether the node is a leaf of the tree.
    pub fn set_leaf(&mut self, fec: &Fec, leaf: bool) -> Result<(), NoMemory>
        ensures { OnOk result (self.new ≡ record self.old { leaves = with_leaf self.old.leaves fec.now leaf }) }
    {
        self.fib.set_leaf(*fec, leaf)
    }

    /// The neighbour's label is a branch of the tree from now on.
    pub fn branch(&mut self, from: NodeId, fec: &Fec, label: u32) -> Result<(), NoMemory>
        ensures { OnOk result (self.new ≡ record self.old { branches = sets.insert self.old.branches (branch_to from fec.now label) }) }
    {
        self.fib.branch(*fec, Branch { node: from, label })
    }

    /// The neighbour's label is no branch of the tree from now on.
    pub fn unbranch(&mut self, from: NodeId, fec: &Fec, label: u32)
        ensures { self.new ≡ record self.old { branches = sets.remove self.old.branches (branch_to from fec.now label) } }
    {
        self.fib.unbranch(fec, Branch { node: from, label });
    }

    /// The tree waits for a label towards the neighbour from now on.
    pub fn wait(&mut self, fec: &Fec, upstream: NodeId) -> Result<(), NoMemory>
        ensures { OnOk result (self.new ≡
            record self.old { uses = record self.old.uses { waiting = maps.insert self.old.uses.waiting fec.now upstream } }) }
    {
        self.uses.wait(fec, upstream)
    }

    /// The tree waits no longer.
    pub fn unwait(&mut self, fec: &Fec)
        ensures { self.new ≡ record self.old { uses = record self.old.uses { waiting = maps.remove self.old.uses.waiting fec.now } } }
    {
        self.uses.unwait(fec);
    }

    /// Maps the least free label to the tree, towards the neighbour; the tree waits no longer. `None` where no label is free.
    pub fn map(&mut self, fec: &Fec, upstream: NodeId) -> Result<Option<u32>, NoMemory>
        requires up { is_some (maps.get self.old.uses.sessions upstream) ≡ true }
        requires unmapped { mapped_in self.old.uses.labels fec.now ≡ None }
        ensures least { IfOk result (λ label. label ≡ free_in self.old.uses.labels) }
        ensures mapped { IfOk result (λ label. self.new ≡ record self.old { uses = with_mapped self.old.uses label fec.now upstream }) }
    {
        match self.uses.map(fec, upstream)? {
            None => Ok(None),
            Some(label) => {
                note(&mut self.uses, &mut self.fib, label, fec, upstream)?;
                Ok(Some(label))
            }
        }
    }

    /// The label is withdrawn. It is leaving until it is released, or its session is lost.
    pub fn leave(&mut self, label: u32, fec: &Fec, upstream: NodeId) -> Result<(), NoMemory>
        requires { use_in self.old.uses.labels label ≡ Some (uses.Mapped fec.now upstream) }
        ensures { OnOk result (self.new ≡
            record self.old {
              uses =
                  record self.old.uses { labels = set_use self.old.uses.labels label (uses.Leaving fec.now upstream) };
            }) }
    {
        self.fib.unmap(upstream, label);
        self.uses.leave(label, fec, upstream)
    }

    /// A release of the label by the neighbour, for the tree. It counts where the label is leaving so.
    pub fn release(&mut self, from: NodeId, fec: &Fec, label: u32, now: u64)
        requires { now < 2 ^ 63 }
        ensures { self.new ≡ record self.old {
          uses =
              record self.old.uses { labels = with_released self.old.uses.labels from fec.now label (now + self.old.uses.life + 1) };
        } }
    {
        self.uses.release(from, fec, label, now);
    }

    /// The session with the neighbour is lost: its labels are free at once, and its branches are dropped.
    pub fn lose(&mut self, peer: NodeId) -> Result<(), NoMemory>
        ensures { OnOk result (self.new ≡ record {
          uses = without peer self.old.uses;
          leaves = self.old.leaves;
          branches = sets.retain self.old.branches (λ branch. not (branch.node.0 == peer.0));
        }) }
    {
        let labels = self.uses.labels_toward(peer)?;
        let fecs = self.fib.trees(self.alloc)?;
        let branches = branches_toward(self.alloc, &self.fib, &fecs, peer)?;
        self.uses.lose(peer)?;
        unmap_all(&mut self.fib, peer, &labels);
        unbranch_all(&mut self.fib, &branches);
        Ok(())
    }

    /// Each label whose rest is over is free.
    pub fn wake(&mut self, now: u64)
        ensures { self.new ≡ record self.old { uses = record self.old.uses { labels = map (woken now) self.old.uses.labels } } }
    {
        self.uses.wake(now);
    }

    /// How many labels' rests are over.
    pub fn due(&self, now: u64) -> u64
        ensures { result ≡ count_by (is_rested now) self.now.uses.labels }
    {
        self.uses.due(now)
    }

    /// The label that is mapped to the tree.
    pub fn mapped(&self, fec: &Fec) -> Option<u32>
        ensures { result ≡ mapped_in self.now.uses.labels fec.now }
    {
        self.uses.mapped(fec)
    }

    /// The neighbour towards which the label is mapped or leaving.
    pub fn upstream(&self, label: u32) -> Option<NodeId>
        ensures { result ≡ upstream_of (use_in self.now.uses.labels label) }
    {
        self.uses.upstream(label)
    }

    /// The trees that wait, in their order.
    pub fn waiting(&self) -> Result<Vec<Fec>, NoMemory>
        ensures { IfOk result (λ fecs. fecs.items ≡ in_order (sets.from_list {R = fec_cmp} (maps.keys self.now.uses.waiting))) }
    {
        in_order(self.uses.waiting_trees()?)
    }

    /// The trees of the node, in their order: those with a branch, a leaf or a mapped label.
    pub fn trees(&self) -> Result<Vec<Fec>, NoMemory>
        ensures { IfOk result (λ fecs. fecs.items ≡ trees_in self.now) }
    {
        in_order(self.fib.trees(self.alloc)?)
    }

    /// Whether the node is on the tree: it is a leaf of it, or has a branch.
    pub fn is_on(&self, fec: &Fec) -> bool
        ensures { result ≡ is_on (fib_with maps.empty self.now) fec.now }
    {
        self.fib.is_on(fec)
    }

    /// The forwarding table.
    pub fn fib(&self) -> &Fib
        ensures { IsFibOf self.now result.now }
    {
        &self.fib
    }

    /// The bindings of the labels that are mapped or leaving and of the trees that wait, each under its name.
    pub fn bindings(&self) -> &Bindings
        ensures { AreBindings self.now.uses result.now }
    {
        self.uses.bindings()
    }

    /// Frees each label that is mapped or leaving.
    pub fn close(self) {
        let LabelTrees {
            alloc: _,
            uses,
            fib: _,
        } = self;
        uses.close();
    }
}
