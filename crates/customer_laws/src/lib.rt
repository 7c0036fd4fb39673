//! Laws of customers over one network: they do not influence one another. Nothing comes in; each law is a function with
//! an empty body (`laws.rt`). `specs/Concerns.antt` says which events of a script concern a VPN: those at its interfaces
//! and sites, ticks, and the timers and restarts of its edges. Two histories of one scenario of which these are the
//! same, with the same ones refused, have the same receivers for each flow of the VPN, whatever else happens in them. So
//! a datagram of the VPN that lies in a calm window of two reports (`specs/Reported.antt`), with such histories before
//! it, leaves at the same interfaces in both. Of two runs it is enough that the events are the same and that none of
//! them is refused `full` (`specs/Room.antt`): what else may refuse an event of a customer is told by the event itself.
//! Below it are `mvpn_model` for what a history means, and `delivery_laws` and `once_laws` for what a run refuses and
//! delivers.
#![tactic(auto)]

mod laws;

pub use laws::{
    datagrams_have_counterparts, runs_are_alike, runs_deliver_alike, same_interfaces,
    same_receivers,
};
