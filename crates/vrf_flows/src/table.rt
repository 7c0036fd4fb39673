//! The table of what is held of flows, with a list of those that are stale.
ghost use Rattle.std.specs.Prelude.{◌≡◌, is_some, true, false, None, Some, if◌then◌else◌, IfSome, OnOk, OnErr};
ghost use Rattle.indexmap.specs.IndexMap.{get, IsEmpty, IsUnique};
ghost use Rattle.vrf_words.specs.declared.tree_defs.flow.Flow.{Flow};
ghost use Rattle.vrf_words.specs.tree_defs.Keys.{same_flow};
ghost use Rattle.vrf_flows.specs.Held.{concerns, forgotten, is_stale_in, marked, settled_as};
ghost use Rattle.vrf_flows.specs.Stale.{AreAmong};

use crate::held::{Cause, Held, HeldFlows, Kept};
use crate::marks::{forget_held, list_where, mark_held, mark_where};
use crate::stale::StaleFlows;
use indexmap::IndexMap;
use mv_base::NoMemory;
use std::alloc::Global;
use std::marker::Model;
use vrf_words::tree_defs::Flow;

/// Each flow that the VRF may have, with a list of those that are stale.
#[derive(Drop)]
pub(crate) struct FlowTable {
    held: HeldFlows,
    stale: StaleFlows,
}

impl Model for FlowTable {
    ghost use Rattle.vrf_flows.specs.Held.{FlowTable as Table, is_stale_in};
    ghost use Rattle.vrf_flows.specs.Stale.{AreListed};
    ghost use Rattle.indexmap.specs.Layout.{hash_map_code};
    ghost use Rattle.vrf_flows.specs.contracts.held.Held as helds;
    ghost use Rattle.vrf_words.specs.contracts.tree_defs.flow.Flow as flows;
    ghost use Rattle.std.specs.contracts.hash.BuildHasherDefault as builders;
    ghost use Rattle.std.specs.contracts.hash.FoldHasher as hashers;

    ghost Value = { Table };

    ghost coded = { hash_map_code flows.the_row.coded helds.the_row.coded (builders.the_row hashers.the_row).coded };

    ghost view = { λ t. t.held };

    ghost invariant = { λ t. AreListed (is_stale_in t.held) t.stale };
}

impl FlowTable {
    /// No flow is held. It takes no memory.
    pub fn of(alloc: Global) -> FlowTable
        ensures empty { IsEmpty result }
        ensures none { (q : Flow) → get same_flow result q ≡ None }
        ensures unique { IsUnique same_flow result }
    {
        FlowTable {
            held: IndexMap::new(alloc),
            stale: StaleFlows::of(alloc),
        }
    }

    /// What is held, flow by flow.
    pub fn held(&self) -> &HeldFlows
        ensures { result.now ≡ self.now }
    {
        &self.held
    }

    /// Whether the flow is held. It takes no memory.
    pub fn holds(&self, flow: &Flow) -> bool
        ensures { result ≡ is_some (get same_flow self.now flow.now) }
    {
        self.held.contains_key(flow)
    }

    /// Whether no flow is held.
    pub fn is_empty(&self) -> bool
        ensures { result ≡ true → (q : Flow) → get same_flow self.now q ≡ None }
    {
        self.held.is_empty()
    }

    /// Flows among which are those that are stale; `None` where any flow may be.
    pub fn stale(&self) -> Option<&[Flow]>
        ensures { IfSome result (λ flows. AreAmong (is_stale_in self.now) flows.now) }
    {
        self.stale.listed()
    }

    /// Whether it is known that no flow is stale, without a look at the flows.
    pub fn all_fresh(&self) -> bool
        ensures { result ≡ true → (q : Flow) → is_stale_in self.now q ≡ false }
    {
        self.stale.is_empty()
    }

    /// Holds a flow of which nothing is known, or that is known to be none of the VRF.
    pub fn hold(&mut self, flow: Flow, stale: bool) -> Result<(), NoMemory>
        requires unique { IsUnique same_flow self.old }
        ensures each { (q : Flow) → OnOk result (get same_flow self.new q
            ≡ (if same_flow flow q then Some (record { stale = stale; kept = None }) else get same_flow self.old q)) }
        ensures unchanged { (q : Flow) → OnErr result (get same_flow self.new q ≡ get same_flow self.old q) }
        ensures unique { IsUnique same_flow self.new }
    {
        let held = Held { stale, kept: None };
        self.stale.add_if(flow, stale);
        self.held.insert(flow, held)?;
        Ok(())
    }

    /// Holds what a flow is.
    pub fn settle(&mut self, flow: Flow, kept: Option<Kept>) -> Result<(), NoMemory>
        requires unique { IsUnique same_flow self.old }
        ensures each { (q : Flow) → OnOk result (get same_flow self.new q
            ≡ (if same_flow flow q then Some (settled_as kept) else get same_flow self.old q)) }
        ensures unchanged { (q : Flow) → OnErr result (get same_flow self.new q ≡ get same_flow self.old q) }
        ensures unique { IsUnique same_flow self.new }
    {
        let held = Held { stale: false, kept };
        self.held.insert(flow, held)?;
        Ok(())
    }

    /// Holds nothing of the flow. It takes no memory.
    pub fn let_go(&mut self, flow: &Flow)
        requires unique { IsUnique same_flow self.old }
        ensures each { (q : Flow) → get same_flow self.new q
            ≡ (if same_flow flow.now q then None else get same_flow self.old q) }
        ensures unique { IsUnique same_flow self.new }
    {
        self.held.swap_remove(flow);
    }

    /// Marks the flow, where it is held. It needs no memory.
    pub fn mark(&mut self, flow: Flow)
        requires unique { IsUnique same_flow self.old }
        ensures each { (q : Flow) → get same_flow self.new q ≡ marked (same_flow flow q) (get same_flow self.old q) }
        ensures unique { IsUnique same_flow self.new }
    {
        let news = mark_held(&mut self.held, flow);
        self.stale.add_if(flow, news);
    }

    /// Marks the flows that the cause touches. It looks at each flow that is held, and needs no memory.
    pub fn mark_where(&mut self, cause: &Cause)
        requires unique { IsUnique same_flow self.old }
        ensures each { (q : Flow) → get same_flow self.new q ≡ marked (concerns cause.now q) (get same_flow self.old q) }
        ensures unique { IsUnique same_flow self.new }
    {
        match cause {
            Cause::All => self.stale.add_all(),
            _ => list_where(&mut self.stale, &self.held, cause),
        }
        mark_where(&mut self.held, cause);
    }

    /// Keeps nothing of what the flows were, and marks them all. It takes no memory.
    pub fn forget(&mut self)
        requires unique { IsUnique same_flow self.old }
        ensures each { (q : Flow) → get same_flow self.new q ≡ forgotten (get same_flow self.old q) }
        ensures unique { IsUnique same_flow self.new }
    {
        forget_held(&mut self.held);
        self.stale.add_all();
    }

    /// The list of stale flows is empty from now on, since there are none. It takes no memory.
    pub fn none_stale(&mut self)
        requires none { (q : Flow) → is_stale_in self.old q ≡ false }
        ensures { self.new ≡ self.old }
    {
        self.stale.clear();
    }
}
