//! Laws of every run of the whole network. Nothing comes in; each law is a function with an empty body (`laws.rt`): the
//! octets in transit carry messages by which the label parts of the nodes are a network of label nodes that keeps its
//! rule, and what edges keep is a network of edges that keeps its rule; the label rule holds after each act, while a
//! copy may be on its way under a label, the label stands for no other VPN; the two ends of each joined session are in
//! step; and no datagram leaves its VPN. `specs/Networks.antt` has the two networks of messages, `Labels`, `Edges` and
//! `Tables` what holds of each, `Throughout` what it is to hold after each act, `Outs` the `out` lines, and `Honest` and
//! `SoundHalt` the runs that are spoken of. Below it are `label_laws`, `edge_words` and `network_laws`, which it joins:
//! what holds in messages holds in octets. Above it `settle_laws`, `license_laws`, `once_laws` and `run_laws` rest on it.
#![tactic(auto)]

mod laws;

pub use laws::{
    no_datagram_leaves_its_vpn, runs_keep_the_label_rule, runs_keep_two_networks,
    tables_are_in_step,
};
