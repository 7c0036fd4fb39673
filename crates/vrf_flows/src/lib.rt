//! The flows of one VRF, as code (RFC 7761 section 4.1.6, RFC 6513 section 5.1, RFC 6514 section 14). Messages of
//! customers, notes, routes and time come in and touch flows; a refresh goes out, with the joins that are gained and
//! lost by it, and where a datagram leaves. Contracts see `VrfData` of `vrf_words`. One map has each flow that the VRF
//! may have, with what it was at the last refresh and whether something touched it since: where an entry joins it, or
//! where its source is known to send. A refresh computes anew what is marked (`marks.rt`, `plan.rt`); that what is not
//! marked is what recomputing gives is the invariant (`specs/State.antt`). The flows that are marked one by one are
//! listed beside the map (`table.rt`, `stale.rt`), and a refresh looks at these alone; where a group, a prefix or all
//! flows were marked, it looks at each. The interfaces that ask are kept with a flow, and are found by the entries that
//! join it or its group (`sight.rt`). A join or prune of (S,G) marks one flow, one of (*,G) looks at all that are held;
//! where the clock moved, a refresh looks once at each entry. By the rule of the nearest edge all flows are chosen for
//! again, since the core may have changed. Where a refresh runs out of memory, all flows are marked, and the next one
//! computes each anew. Below it are `pim_state`, `umh_select` and `core_paths`; above it `vrf_trees` adds the tunnels of
//! the VRF.
#![tactic(auto)]

mod flows;
mod held;
mod marks;
mod plan;
mod sight;
mod stale;
mod state;
mod table;

pub use flows::VrfFlows;
// The names `of_..`: words of lower crates that this crate's contracts are made of.
pub use pim_state as of_pim_state;
pub use plan::{Joins, put};
pub use stale::StaleFlows;
pub use state::FlowChanges;
