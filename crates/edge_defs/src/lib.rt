//! A provider edge as plain data, and its steps (RFC 6513, RFC 6514). Nothing comes in: all but the types of lower
//! crates is in `specs/`. `Keys.antt`, `Place.antt` and `Edge.antt` have keys and values of routes, the place of an
//! edge with its VRFs and tunnels, and its data. `Originated` has the routes that it originates (RFC 6514 sections 6,
//! 7, 9.1.1, 12.1 and 14.1) and `Imported` those that its VRFs import and use; `Upstream` the upstream of a source (RFC
//! 6513 section 5.1), `Flows` what is asked for, `Tunnels` what is transmitted on, learned and wanted (RFC 6513 section
//! 7, RFC 6514 sections 9.1.2 and 12.3). `Held` is the table held for a peer and what is put to it, `Messages` a change
//! as a message, `Steps` the calls with their own effects and the row of label steps, `Datagrams` where a datagram goes
//! (RFC 6513 sections 9.1.1 and 12), `Due` how many timers are due; `Example` is two worked edges. What goes out are
//! laws (`laws.rt`): orders of keys, which leaves change, that links have one core. Below it are the definitions of its
//! parts: `label_defs`, `selective_defs`, `choice_defs`, `pim_defs`, `bgp_messages`, `table_laws`. Above it
//! `edge_words` and the crates of an edge from `edge_routes` to `edge_core` compute it, and `network_defs` is made of
//! edges.
#![tactic(auto)]

mod laws;

// The names `of_..`: words of lower crates that this crate's contracts are made of.
pub use bgp_messages as of_bgp_messages;
pub use laws::{
    keys_are_in_order, keys_are_told, leaves_are_those_wanted, links_have_one_core, worked_edges,
};
