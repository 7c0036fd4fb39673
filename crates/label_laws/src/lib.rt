//! Laws of a network of label nodes, at the level of messages. Nothing comes in: the state of the network
//! (`specs/Network.antt`), what may happen in it and its runs (`Acts`), the label rule and what each act keeps
//! (`Rule`), trees on which nothing is left to be done (`Calm`), and rounds of deliveries with the ranks of messages
//! (`Rounds`) are definitions over the nodes and steps of `label_defs` (RFC 6388 section 2.4, RFC 5036 section 3.5).
//! What goes out are laws of all runs, functions with empty bodies: the label rule is kept, a copy lands in its own
//! VPN, calm trees are trees, and rounds empty sessions. In `proofs/`, `Frames` and `NodeRule` say what stays where one
//! node and what is in transit to and from it change; `Phases`, `Views` and `Uses` are over plain variables; `Turns`,
//! `Pops`, `Withdraws`, `Releases`, `Ends`, `Sessions`, `Times` and `Copies` have one kind of change each; and `Steps`
//! and `Runs` put them together. Above it `rule_laws`, `settle_laws`, `license_laws` and `once_laws` use it for the
//! label part of the whole network.
#![tactic(auto)]

mod laws;

pub use laws::{
    calm_trees, copies_land_in_their_vpn, losses_need_no_label, rounds_empty_sessions,
    runs_keep_the_rule, start_keeps_the_rule, the_rule_in_full,
};
