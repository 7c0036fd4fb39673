//! The labels of a node.
ghost use Rattle.std.specs.Prelude.{◌≡◌, ◌≤◌, ◌<◌, ◌^◌, ◌+◌, ℕ, nat_eq, true, is_some, None, Some, map, count_by};
ghost use Rattle.std.specs.Prelude.{IfOk, OnOk, OnErr, IfSome};
ghost use Rattle.std.specs.List.{list_any};
ghost use Rattle.std.specs.FinMap as maps;
ghost use Rattle.std.specs.FinSet as sets;
ghost use Rattle.label_defs.specs.declared.label_use.LabelUse.TheVariants as uses;
ghost use Rattle.label_defs.specs.Keys.{fec_cmp};
ghost use Rattle.label_defs.specs.LabelData.{is_rested};
ghost use Rattle.label_defs.specs.Steps.{woken};
ghost use Rattle.label_defs.specs.Settling.{upstream_of};
ghost use Rattle.label_trees.specs.label_uses.Uses.{Uses, unused, use_in, set_use, free_in, mapped_in, with_mapped};
ghost use Rattle.label_trees.specs.label_uses.Uses.{with_released, is_toward, without, lost_at, lost_all, AreBindings};
ghost use Rattle.label_trees.specs.label_uses.Held.{left, rested};
ghost use Rattle.tunnel_bindings.specs.Labels.{IsOwned};
ghost use Rattle.tunnel_bindings.specs.States.{label_of};

use crate::label_uses::held::{Held, HeldLabels, is_leaving_to, labels_toward};
use crate::label_uses::table::{MappedTrees, Sessions, Waiting, WaitingTrees};
use crate::label_uses::{held, table};
use indexmap::IndexMap;
use label_forwarding::make_room;
use mldp::mldp_fec::Fec;
use mv_base::{NoMemory, NodeId};
use std::alloc::Global;
use std::marker::Model;
use tunnel_bindings::{AnyBinding, Binding, Bindings, Incarnation, LabelSpace, Wanted};

/// The labels of a node. Contracts see what each is used for, and which trees wait for one. It must be closed.
///
/// Each label that is mapped or leaving has a binding of its own, which was told over the present raise of its session. Each
/// tree that waits has one too.
pub struct LabelUses {
    alloc: Global,
    space: LabelSpace,
    bindings: Bindings,
    held: HeldLabels,
    mapped: MappedTrees,
    waiting: WaitingTrees,
    sessions: Sessions,
}

impl Model for LabelUses {
    ghost use Rattle.std.specs.Prelude.{nat_eq};
    ghost use Rattle.std.specs.FinMap as maps;
    ghost use Rattle.indexmap.specs.IndexMap.{get};
    ghost use Rattle.tunnel_bindings.specs.Labels.{state_of};
    ghost use Rattle.label_trees.specs.label_uses.Uses.{Uses, uses_code};
    ghost use Rattle.label_trees.specs.label_uses.Held.{HoldsOwned, seen, is_fec, is_node};

    ghost Value = { Uses };

    ghost coded = { uses_code };

    ghost view = { λ u. seen u.space (get nat_eq u.held) u.waiting.entries u.sessions.entries };

    ghost invariant = { λ u.
        HoldsOwned (state_of u.space) (get nat_eq u.held) (maps.get u.bindings.kept) (get is_node u.sessions) (get is_fec u.mapped)
        (get is_fec u.waiting) };
}

/// The binding after its withdraw.
fn left(binding: AnyBinding) -> AnyBinding
    ensures { result ≡ left binding }
{
    match binding {
        AnyBinding::Mapped(mapped) => AnyBinding::Leaving(mapped.leave()),
        other => other,
    }
}

/// The label of the binding rests, where it is leaving.
fn rest(binding: AnyBinding, now: u64, space: &mut LabelSpace)
    requires owned { IfSome (label_of binding) (λ label. IsOwned space.old label) }
    requires now { now < 2 ^ 63 }
    ensures { space.new ≡ rested space.old now binding }
{
    match binding {
        AnyBinding::Leaving(leaving) => leaving.released(now, space),
        other => other.end(space),
    }
}

impl LabelUses {
    /// So many labels from 16 on, each free, and no session. A label that is released rests for `life` ticks and one more.
    pub fn of(alloc: Global, count: u32, life: u64) -> Result<LabelUses, NoMemory>
        requires few { count ≤ 65536 }
        requires short { life ≤ 1000 }
        ensures { IfOk result (λ fresh. fresh ≡ unused life count) }
    {
        let space = LabelSpace::of(alloc, count, life)?;
        Ok(LabelUses {
            alloc,
            space,
            bindings: Bindings::of(alloc),
            held: IndexMap::new(alloc),
            mapped: IndexMap::new(alloc),
            waiting: IndexMap::new(alloc),
            sessions: IndexMap::new(alloc),
        })
    }

    /// The session with the neighbour comes up: this raise of it is the present one.
    pub fn raise(&mut self, peer: NodeId, session: Incarnation) -> Result<(), NoMemory>
        requires { maps.get self.old.sessions peer ≡ None }
        ensures raised { OnOk result (self.new ≡ record self.old { sessions = maps.insert self.old.sessions peer session }) }
        ensures unchanged { OnErr result (self.new ≡ self.old) }
    {
        self.sessions.insert(peer, session)?;
        Ok(())
    }

    /// The tree waits for a label towards the neighbour from now on. Where there is no memory, it does not wait.
    pub fn wait(&mut self, fec: &Fec, upstream: NodeId) -> Result<(), NoMemory>
        ensures waits { OnOk result (self.new ≡ record self.old { waiting = maps.insert self.old.waiting fec.now upstream }) }
        ensures waits_not { OnErr result (self.new ≡ record self.old { waiting = maps.remove self.old.waiting fec.now }) }
    {
        self.unwait(fec);
        make_room(&mut self.waiting)?;
        let wanted = Binding::<Wanted>::new(*fec, upstream);
        match self.bindings.keep(AnyBinding::Wanted(wanted)) {
            Err(back) => {
                back.end(&mut self.space);
                Err(NoMemory)
            }
            Ok(name) => {
                table::note_waiting(&mut self.waiting, fec, Waiting { upstream, name });
                Ok(())
            }
        }
    }

    /// The tree waits no longer.
    pub fn unwait(&mut self, fec: &Fec)
        ensures { self.new ≡ record self.old { waiting = maps.remove self.old.waiting fec.now } }
    {
        if let Some(own) = table::take_waiting(&mut self.waiting, fec) {
            let binding = self.bindings.take(own.name).unwrap();
            binding.end(&mut self.space);
        }
    }

    /// Maps the least free label to the tree, towards the neighbour; the tree waits no longer. `None` where no label is free.
    /// Where there is no memory, none is mapped, and the tree waits no longer.
    pub fn map(&mut self, fec: &Fec, upstream: NodeId) -> Result<Option<u32>, NoMemory>
        requires up { is_some (maps.get self.old.sessions upstream) ≡ true }
        requires unmapped { mapped_in self.old.labels fec.now ≡ None }
        ensures least { IfOk result (λ label. label ≡ free_in self.old.labels) }
        ensures mapped { IfOk result (λ label. self.new ≡ with_mapped self.old label fec.now upstream) }
        ensures none_mapped { OnErr result (self.new ≡ with_mapped self.old None fec.now upstream) }
    {
        self.unwait(fec);
        let session = self.sessions.get(&upstream).copied().unwrap();
        make_room(&mut self.held)?;
        make_room(&mut self.mapped)?;
        let wanted = Binding::<Wanted>::new(*fec, upstream);
        match wanted.map(&mut self.space, session) {
            Err(wanted) => {
                wanted.cancel();
                Ok(None)
            }
            Ok(mapped) => {
                let label = mapped.label();
                match self.bindings.keep(AnyBinding::Mapped(mapped)) {
                    Err(back) => {
                        back.end(&mut self.space);
                        Err(NoMemory)
                    }
                    Ok(name) => {
                        let own = Held {
                            fec: *fec,
                            upstream,
                            leaving: false,
                            name,
                        };
                        held::note(&mut self.held, label, own);
                        table::note(&mut self.mapped, fec, label);
                        Ok(Some(label))
                    }
                }
            }
        }
    }

    /// The label is withdrawn. It is leaving until it is released, or its session is lost. Where there is no memory, it is free.
    pub fn leave(&mut self, label: u32, fec: &Fec, upstream: NodeId) -> Result<(), NoMemory>
        requires { use_in self.old.labels label ≡ Some (uses.Mapped fec.now upstream) }
        ensures leaving { OnOk result
            (self.new ≡ record self.old { labels = set_use self.old.labels label (uses.Leaving fec.now upstream) }) }
        ensures free { OnErr result (self.new ≡ record self.old { labels = set_use self.old.labels label uses.Free }) }
    {
        let own = self.held.get(&label).copied().unwrap();
        let mapped = self.bindings.take(own.name).unwrap();
        table::forget(&mut self.mapped, fec);
        match self.bindings.keep(left(mapped)) {
            Err(back) => {
                held::forget(&mut self.held, label);
                back.end(&mut self.space);
                Err(NoMemory)
            }
            Ok(name) => {
                let leaving = Held {
                    fec: *fec,
                    upstream,
                    leaving: true,
                    name,
                };
                held::note(&mut self.held, label, leaving);
                Ok(())
            }
        }
    }

    /// A release of the label by the neighbour, for the tree. It counts where the label is leaving so.
    pub fn release(&mut self, from: NodeId, fec: &Fec, label: u32, now: u64)
        requires { now < 2 ^ 63 }
        ensures { self.new ≡ record self.old { labels = with_released self.old.labels from fec.now label (now + self.old.life + 1) } }
    {
        if let Some(own) = self.held.get(&label).copied() {
            if is_leaving_to(&own, fec, from) {
                let binding = self.bindings.take(own.name).unwrap();
                held::forget(&mut self.held, label);
                rest(binding, now, &mut self.space);
            }
        }
    }

    /// The label is free, where it is mapped or leaving towards the neighbour.
    fn lose_label(&mut self, label: u32, peer: NodeId)
        ensures { self.new ≡ record self.old { labels = lost_at peer self.old.labels label } }
    {
        if let Some(own) = self.held.get(&label).copied() {
            if own.upstream == peer {
                let binding = self.bindings.take(own.name).unwrap();
                held::forget(&mut self.held, label);
                table::forget_of(&mut self.mapped, &own);
                binding.end(&mut self.space);
            }
        }
    }

    /// The session with the neighbour is lost: its labels are free at once.
    pub fn lose(&mut self, peer: NodeId) -> Result<(), NoMemory>
        ensures lost { OnOk result (self.new ≡ without peer self.old) }
        ensures unchanged { OnErr result (self.new ≡ self.old) }
    {
        let labels = labels_toward(self.alloc, &self.held, peer)?;
        lose_all(self, &labels, peer);
        self.sessions.swap_remove(&peer);
        Ok(())
    }

    /// Each label whose rest is over is free.
    pub fn wake(&mut self, now: u64)
        ensures { self.new ≡ record self.old { labels = map (woken now) self.old.labels } }
    {
        self.space.wake(now);
    }

    /// How many labels' rests are over.
    pub fn due(&self, now: u64) -> u64
        ensures { result ≡ count_by (is_rested now) self.now.labels }
    {
        self.space.due(now)
    }

    /// The label that is mapped to the tree.
    pub fn mapped(&self, fec: &Fec) -> Option<u32>
        ensures { result ≡ mapped_in self.now.labels fec.now }
    {
        self.mapped.get(fec).copied()
    }

    /// The neighbour towards which the label is mapped or leaving.
    pub fn upstream(&self, label: u32) -> Option<NodeId>
        ensures { result ≡ upstream_of (use_in self.now.labels label) }
    {
        match self.held.get(&label) {
            None => None,
            Some(own) => Some(own.upstream),
        }
    }

    /// The labels that are mapped or leaving towards the neighbour, in no order.
    pub fn labels_toward(&self, peer: NodeId) -> Result<Vec<u32>, NoMemory>
        ensures { IfOk result (λ labels. (label : ℕ) →
            list_any (λ own. nat_eq own label) labels.items ≡ is_toward peer (use_in self.now.labels label)) }
    {
        labels_toward(self.alloc, &self.held, peer)
    }

    /// The trees that wait, each once, in no order.
    pub fn waiting_trees(&self) -> Result<Vec<Fec>, NoMemory>
        ensures { IfOk result (λ fecs. sets.from_list {R = fec_cmp} fecs.items ≡ sets.from_list (maps.keys self.now.waiting)) }
    {
        table::waiting_trees(self.alloc, &self.waiting)
    }

    /// Whether the session with the neighbour is up.
    pub fn is_up(&self, peer: NodeId) -> bool
        ensures { result ≡ is_some (maps.get self.now.sessions peer) }
    {
        self.sessions.get(&peer).is_some()
    }

    /// The bindings, each under its name: each label that is mapped or leaving has exactly one, told over the present raise of
    /// its session, each tree that waits has exactly one, and there is no other.
    pub fn bindings(&self) -> &Bindings
        ensures { AreBindings self.now result.now }
    {
        &self.bindings
    }

    /// Frees each label that is mapped or leaving.
    pub fn close(self) {
        let LabelUses {
            alloc: _,
            mut space,
            bindings,
            held: _,
            mapped: _,
            waiting: _,
            sessions: _,
        } = self;
        bindings.close(&mut space);
    }
}

/// Each of the labels is free, where it is mapped or leaving towards the neighbour.
fn lose_all(uses: &mut LabelUses, labels: &[u32], peer: NodeId)
    ensures { uses.new ≡ record uses.old { labels = lost_all peer uses.old.labels labels.now } }
{
    for label in labels {
        uses.lose_label(*label, peer);
    }
}
