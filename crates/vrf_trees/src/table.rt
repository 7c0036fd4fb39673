//! The table of what flows want, with a list of those that are stale.
ghost use Rattle.std.specs.Prelude.{◌≡◌, true, false, None, Some, if◌then◌else◌, IfSome, OnOk};
ghost use Rattle.indexmap.specs.IndexMap.{get, IsEmpty, IsUnique};
ghost use Rattle.vrf_words.specs.declared.tree_defs.flow.Flow.{Flow};
ghost use Rattle.vrf_words.specs.tree_defs.Keys.{same_flow};
ghost use Rattle.vrf_flows.specs.Stale.{AreAmong};
ghost use Rattle.vrf_trees.specs.Wants.{is_stale_in, marked, tunnels_in};

use crate::wants::{Cause, FlowWants, Wants, list_where, mark_where};
use indexmap::IndexMap;
use mv_base::NoMemory;
use std::alloc::Global;
use std::marker::Model;
use vrf_flows::StaleFlows;
use vrf_words::tree_defs::Flow;

/// What each flow wants whose upstream is another edge, with a list of those flows that are stale.
#[derive(Drop)]
pub(crate) struct WantTable {
    held: FlowWants,
    stale: StaleFlows,
}

impl Model for WantTable {
    ghost use Rattle.vrf_trees.specs.Wants.{WantTable as Table, is_stale_in};
    ghost use Rattle.vrf_flows.specs.Stale.{AreListed};
    ghost use Rattle.indexmap.specs.Layout.{hash_map_code};
    ghost use Rattle.vrf_trees.specs.contracts.wants.Wants as helds;
    ghost use Rattle.vrf_words.specs.contracts.tree_defs.flow.Flow as flows;
    ghost use Rattle.std.specs.contracts.hash.BuildHasherDefault as builders;
    ghost use Rattle.std.specs.contracts.hash.FoldHasher as hashers;

    ghost Value = { Table };

    ghost coded = { hash_map_code flows.the_row.coded helds.the_row.coded (builders.the_row hashers.the_row).coded };

    ghost view = { λ t. t.held };

    ghost invariant = { λ t. AreListed (is_stale_in t.held) t.stale };
}

impl WantTable {
    /// No flow is there. It takes no memory.
    pub fn of(alloc: Global) -> WantTable
        ensures empty { IsEmpty result }
        ensures none { (q : Flow) → get same_flow result q ≡ None }
        ensures unique { IsUnique same_flow result }
    {
        WantTable {
            held: IndexMap::new(alloc),
            stale: StaleFlows::of(alloc),
        }
    }

    /// What is held, flow by flow.
    pub fn held(&self) -> &FlowWants
        ensures { result.now ≡ self.now }
    {
        &self.held
    }

    /// Flows among which are those that are stale; `None` where any flow may be.
    pub fn stale(&self) -> Option<&[Flow]>
        ensures { IfSome result (λ flows. AreAmong (is_stale_in self.now) flows.now) }
    {
        self.stale.listed()
    }

    /// Whether it is known that no flow is stale, without a look at the flows.
    pub fn all_fresh(&self) -> bool
        ensures { result ≡ true → (q : Flow) → is_stale_in self.now q ≡ false }
    {
        self.stale.is_empty()
    }

    /// Holds what the flow wants.
    pub fn put(&mut self, flow: Flow, own: Wants) -> Result<(), NoMemory>
        requires unique { IsUnique same_flow self.old }
        ensures each { (q : Flow) → OnOk result (get same_flow self.new q ≡ (if same_flow flow q then Some own else get same_flow self.old q)) }
        ensures unique { IsUnique same_flow self.new }
    {
        self.stale.add_if(flow, own.stale);
        self.held.insert(flow, own)?;
        Ok(())
    }

    /// Holds nothing of the flow. It takes no memory.
    pub fn let_go(&mut self, flow: &Flow)
        requires unique { IsUnique same_flow self.old }
        ensures each { (q : Flow) → get same_flow self.new q ≡ (if same_flow flow.now q then None else get same_flow self.old q) }
        ensures unique { IsUnique same_flow self.new }
    {
        self.held.swap_remove(flow);
    }

    /// Marks the flows that the cause touches. It looks at each flow, and needs no memory.
    pub fn mark(&mut self, cause: &Cause)
        requires unique { IsUnique same_flow self.old }
        ensures each { (q : Flow) → get same_flow self.new q ≡ marked cause.now q (get same_flow self.old q) }
        ensures unique { IsUnique same_flow self.new }
        ensures tunnels { tunnels_in self.new.entries ≡ tunnels_in self.old.entries }
    {
        list_where(&mut self.stale, &self.held, cause);
        mark_where(&mut self.held, cause);
    }

    /// The list of stale flows is empty from now on, since there are none. It takes no memory.
    pub fn none_stale(&mut self)
        requires none { (q : Flow) → is_stale_in self.old q ≡ false }
        ensures { self.new ≡ self.old }
    {
        self.stale.clear();
    }
}
