//! The Source Tree Joins of other edges.
ghost use Rattle.std.specs.Prelude.{◌≡◌, ◌≤◌, true, false, if◌then◌else◌, OnOk, OnErr};
ghost use Rattle.std.specs.FinSet as sets;
ghost use Rattle.std.specs.List.{list_any};
ghost use Rattle.indexmap.specs.IndexSet.{spare};
ghost use Rattle.vrf_words.specs.declared.tree_defs.flow.Flow.{Flow};
ghost use Rattle.vrf_words.specs.tree_defs.Keys.{same_flow};
ghost use Rattle.vrf_trees.specs.Joined.{is_for, is_joined};

use indexmap::IndexSet;
use mv_base::NoMemory;
use std::alloc::Global;
use std::marker::Model;
use vrf_words::tree_defs::{Flow, TakenJoin};

/// The joins of other edges, and the flows that some edge has joined.
#[derive(Drop)]
pub(crate) struct TakenJoins {
    joins: IndexSet<TakenJoin>,
    flows: IndexSet<Flow>,
}

impl Model for TakenJoins {
    ghost use Rattle.std.specs.FinSet as sets;
    ghost use Rattle.std.specs.FinSet.{FinSet};
    ghost use Rattle.vrf_words.specs.tree_defs.Trees.{join_cmp};
    ghost use Rattle.vrf_trees.specs.Joined.{AreFlowsOf, joins_code};

    ghost Value = { FinSet join_cmp };

    ghost coded = { joins_code };

    ghost view = { λ t. sets.from_list t.joins.keys };

    ghost invariant = { λ t. AreFlowsOf t.flows.keys t.joins.keys };
}

/// Whether one of the joins is for the flow.
fn is_joined(joins: &[TakenJoin], flow: Flow) -> bool
    ensures { result ≡ list_any (is_for flow) joins.now }
{
    joins.iter().any(|join| join.flow == flow)
}

/// The flow is joined from now on. There is room for it.
fn add_flow(flows: &mut IndexSet<Flow>, flow: Flow)
    requires room { 1 ≤ spare flows.old }
    ensures { (q : Flow) →
        list_any (same_flow q) flows.new.keys ≡ (if same_flow flow q then true else list_any (same_flow q) flows.old.keys) }
{
    flows.insert(flow).unwrap();
}

/// The flow is joined no more, where no other join is for it.
fn drop_flow(flows: &mut IndexSet<Flow>, flow: Flow, joined: bool)
    ensures { (q : Flow) → list_any (same_flow q) flows.new.keys
        ≡ (if joined then list_any (same_flow q) flows.old.keys
        else if same_flow flow q then false else list_any (same_flow q) flows.old.keys) }
{
    if !joined {
        flows.swap_remove(&flow);
    }
}

impl TakenJoins {
    /// No join. It takes no memory.
    pub fn of(alloc: Global) -> TakenJoins
        ensures { result ≡ sets.empty }
    {
        TakenJoins {
            joins: IndexSet::new(alloc),
            flows: IndexSet::new(alloc),
        }
    }

    /// Takes the join.
    pub fn take(&mut self, join: TakenJoin) -> Result<(), NoMemory>
        ensures taken { OnOk result (self.new ≡ sets.insert self.old join) }
        ensures unchanged { OnErr result (self.new ≡ self.old) }
    {
        self.flows.reserve(1)?;
        self.joins.insert(join)?;
        add_flow(&mut self.flows, join.flow);
        Ok(())
    }

    /// The join is there no more. It takes no memory.
    pub fn leave(&mut self, join: TakenJoin)
        ensures { self.new ≡ sets.remove self.old join }
    {
        self.joins.swap_remove(&join);
        let joined = is_joined(self.joins.as_slice(), join.flow);
        drop_flow(&mut self.flows, join.flow, joined);
    }

    /// Whether some peer has joined the flow. It takes no memory.
    pub fn is_joined(&self, flow: &Flow) -> bool
        ensures { result ≡ is_joined self.now flow.now }
    {
        self.flows.contains(flow)
    }
}
