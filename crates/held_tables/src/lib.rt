//! What each peer of an edge is to have, kept by what changes instead of listed anew (RFC 6514 sections 9.1.1, 11.1.3,
//! 12.1 and 14.1; RFC 4364 section 4.3). A note, a selection, a join or the end of one comes in, and the tables towards
//! all peers (`EdgeTables`) are changed by one route. `HoldAll` in `specs/Holding.antt` says that the tables hold
//! towards each peer what the definitions of the edge say (`held_for`). `starting.rt` has what is held before anything
//! happens: of each VRF its inclusive route and its prefixes; `sources.rt` what follows a note and the end of the last
//! one of its source and group; `selections.rt` a selection and its end; `joins.rt` a Source Tree Join that is held or
//! dropped. `laws.rt` states which joins change where flows change, and that timers change nothing; `keys.rt` has that
//! the keys have spellings. Below it are `edge_tables`, `edge_routes` and `vrf_words`; above it `edge_routing` calls it
//! with each step of an edge.
#![tactic(auto)]

mod joins;
mod keys;
mod laws;
mod selections;
mod sources;
mod starting;

pub use joins::{drop_join, hold_join};
pub use laws::{
    another_note_holds, changed_flows_tell_joins, flows_change_joins_alone, fresh_tables_are_empty,
    joins_are_left_one_by_one, joins_are_of_first_flows, run_delays_change_nothing,
};
pub use selections::{drop_selection, hold_selection};
pub use sources::{drop_source, hold_source};
pub use starting::start;
