//! Which flows of a table are stale.
ghost use Rattle.std.specs.Prelude.{◌≡◌, true, false, IfSome};
ghost use Rattle.std.specs.List.{list_any};
ghost use Rattle.vrf_words.specs.declared.tree_defs.flow.Flow.{Flow};
ghost use Rattle.vrf_words.specs.tree_defs.Keys.{same_flow};
ghost use Rattle.vrf_flows.specs.Stale.{is_listed};

use mv_base::Seq;
use std::alloc::Global;
use vrf_words::tree_defs::Flow;

/// Flows among which are all that are stale, in no order; or any flow may be, where one could not be listed.
#[derive(Drop)]
pub struct StaleFlows {
    flows: Seq<Flow>,
    all: bool,
}

impl StaleFlows {
    /// No flow is stale. It takes no memory.
    pub fn of(alloc: Global) -> StaleFlows {
        StaleFlows {
            flows: Seq::new(alloc),
            all: false,
        }
    }

    /// The flow may be stale too.
    pub fn add(&mut self, flow: Flow)
        ensures added { is_listed self.new flow ≡ true }
        ensures kept { (q : Flow) → is_listed self.old q ≡ true → is_listed self.new q ≡ true }
    {
        match self.flows.push(flow) {
            Ok(()) => (),
            Err(_) => self.add_all(),
        }
    }

    /// The flow may be stale too, where that is so.
    pub fn add_if(&mut self, flow: Flow, stale: bool)
        ensures added { stale ≡ true → is_listed self.new flow ≡ true }
        ensures kept { (q : Flow) → is_listed self.old q ≡ true → is_listed self.new q ≡ true }
    {
        if stale {
            self.add(flow);
        }
    }

    /// Any flow may be stale. It takes no memory.
    pub fn add_all(&mut self)
        ensures { (q : Flow) → is_listed self.new q ≡ true }
    {
        self.all = true;
    }

    /// Whether no flow may be stale.
    pub fn is_empty(&self) -> bool
        ensures { result ≡ true → (q : Flow) → is_listed self.now q ≡ false }
    {
        !self.all && self.flows.is_empty()
    }

    /// No flow is stale any more. It takes no memory.
    pub fn clear(&mut self) {
        self.flows.clear();
        self.all = false;
    }

    /// The flows of which any may be stale; `None` where these are all.
    pub fn listed(&self) -> Option<&[Flow]>
        ensures { (q : Flow) → IfSome result (λ flows. is_listed self.now q ≡ list_any (same_flow q) flows.now) }
    {
        if self.all {
            None
        } else {
            Some(self.flows.as_slice())
        }
    }
}
