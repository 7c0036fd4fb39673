//! Joined state of an edge, as code (RFC 7761 section 4.1). Join/Prune messages and time come in; what became of the
//! entries of its interfaces goes out, and whether an interface asks for a flow. `Downstream` (`downstream.rt`) has the
//! entries in a map in order of insertion, at most 1,024, and a contract sees the finite map of `pim_defs`.
//! `arrival.rt` has what a message joins and prunes, and the plan of what becomes of each entry that it may change;
//! `changes.rt` counts the planned changes, and `take` makes them, with the memory first, so that a message is taken
//! whole or not at all.
//! `ends.rt` has from when on an entry may end, so that a step of the clock before that looks at none of them.
//! `index.rt` lists each entry by what it is looked for by: joins (S,G) by source and group, joins (*,G) by the group,
//! prunes (S,G,rpt) by the group alone (`entry_set.rt` has one such list). `specs/Plan.antt`, `Changes.antt` and
//! `Index.antt` say the same in words, and `Codes` what the model's value is in the code. A message is looked up and not
//! searched: its joins and its prunes are sets, and only a set of few entries is gone through, since that costs less
//! than a hash. So the time of `take` grows with the message, and where that joins (*,G), with the prunes of the group.
//! Below it are `pim_joinprune` and `pim_defs`; above it `vrf_flows` keeps the flows of a VRF by these entries.
#![tactic(auto)]

mod arrival;
mod changes;
mod downstream;
mod ends;
mod entry_set;
mod index;

pub use downstream::{Downstream, TakeFault};
