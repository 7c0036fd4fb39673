//! Laws of the whole network: what holds where `state` reports zeros alone, that each datagram sent then is delivered
//! once, and that none leaves for a VPN that its own does not admit. Nothing comes in; each law is a function with an
//! empty body (`laws.rt`). Zeros mean that no octet is in transit, no timer is due and each session is ready
//! (`specs/Zeros.antt`); then the labels of each tree are calm, each tunnel is a tree, entries and notes are those that
//! the events make known (`Told`; RFC 7761 section 4.9.1), and each VRF chooses by its rule over all routes (`Chooses`;
//! RFC 6513 section 5.1.1). So each datagram of a window leaves once at each interface that receives it; and in every
//! run, also in one that halts for want of a label, each `out` line names a datagram that was accepted by then, with
//! its octets, and an interface whose VRF admits the sender's (`Run`). `Families` says that an entry has a source and a
//! group of one family, `Facts` what is known of a sound run. Below it are `rule_laws` and `delivery_laws`; above it
//! `network_events` hands its words on to `mvpn_tool`, which promises both of each report.
#![tactic(auto)]

mod laws;

pub use laws::{
    asks_are_told, choices_are_calm, each_choice_is_by_the_rule, each_run_is_safe,
    entries_are_of_one_family, entries_are_told, halting_runs_are_safe, halting_runs_deliver_once,
    homes_are_longest, labels_are_calm, notes_are_told, runs_deliver_once, tunnels_are_trees,
    zeros_are_calm,
};
