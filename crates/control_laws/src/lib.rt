//! What an edge keeps, put together from the trees of its VRFs: laws over definitions, functions with empty bodies (RFC
//! 6513, RFC 6514). Nothing comes in. `specs/Control.antt` has what is kept (`Kept`), the `Control` of `edge_defs` that
//! it makes (`control_of`), and when the trees are those of it (`AreTrees`); the laws say that what a call makes of the
//! trees, it makes of the edge. `customers.rt`: Join/Prune messages, notes, selections, the timers of entries and of
//! selections, and how many there are (RFC 7761 section 4.5, RFC 6514 sections 12.1 and 14). `peers.rt`: routes of
//! peers that change, sessions that come up and are lost, delays, and which inclusive tunnels come and go (RFC 6514
//! section 12.3). `refreshes.rt`: flows that are refreshed and timers that are due. `looked_up.rt`: an entry, a note, a
//! flow and a selection found in the trees, and what is kept at first. `group_laws`: groups at an edge are multicast
//! groups of the family of their source, as the keys of routes ask (RFC 6514 section 4): each step keeps it, and
//! messages with a spelling and lines of a script have such groups. Below it are `vrf_words` and `edge_defs`; above it
//! `edge_control` is this as code, and `edge_routing` uses its laws.
#![tactic(auto)]

mod customers;
pub mod group_laws;
mod looked_up;
mod peers;
mod refreshes;

pub use customers::{
    customers_are_counted, join_prune_is_counted, join_prune_is_taken, note_is_ended, note_is_made,
    pattern_is_selected, pattern_is_unselected, selections_stay_single, timers_are_run,
};
pub use looked_up::{nothing_is_kept_at_first, trees_are_looked_up, vrfs_are_apart};
pub use peers::{
    a_changed_route_is_taken, a_lost_peer_is_forgotten, a_raised_peer_has_no_route,
    an_update_is_taken, delays_are_run, inclusive_tunnels_come_and_go,
    inclusive_tunnels_of_a_lost_peer_go, trees_forget_a_lost_peer, trees_run_delays,
    trees_take_a_raised_peer, trees_take_an_update,
};
pub use refreshes::{
    delays_are_counted, flows_are_refreshed, routes_leave_customers, timers_are_counted,
};
