//! Joined state, as definitions: the entries of an interface, when they end, and what Join/Prune messages and timers
//! make of them (RFC 7761 sections 4.1, 4.5.1 to 4.5.3 and 4.9.5). `specs/Entries.antt` has the entries of an edge as a
//! finite map and what a message and time make of it, `Expiry` what a holdtime sets, `Mention` what a message says of
//! an entry, `Asking` whether an interface asks for a flow, by the expiries of three entries (RFC 7761 section 4.1.5),
//! and `Single` messages of one entry. The code computes these for one entry: `entry.rt` the entry that a source of a
//! message names, `expiry.rt`, `mention.rt`, `asking.rt`, and `join_of` and `prune_of` in `single.rt`; `laws.rt` states
//! the laws of messages and timers for each entry. Below it are `pim_joinprune` and `scenario_defs`. Above it
//! `pim_state` is the state of a whole edge as code, `edge_defs` has the entries of an edge, and `mvpn_model` follows
//! an entry through a past.
#![tactic(auto)]

mod asking;
mod entry;
mod expiry;
mod laws;
mod mention;
mod single;

pub use asking::asks_by;
pub use entry::{entry_of, group_of};
pub use expiry::{Expiry, counts, extended};
pub use laws::each_entry;
pub use mention::{Mention, expiry_after, mention_of};
// The names `of_..`: words of lower crates that this crate's contracts are made of.
pub use pim_joinprune as of_pim_joinprune;
pub use single::{join_of, prune_of};
