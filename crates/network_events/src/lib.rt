//! The events of a script, as a network meets them. An event comes in; it is refused with the first reason that holds,
//! or its acts are done one after another by calls of `network_acts`, and its lines go out; or it lacks a label, and
//! the network halts. `Meets` in `specs/Meeting.antt` is the contract of an event, `Does` in `Doing.antt` that of a row
//! of acts: in a loop over acts what was done so far is the prefix of the row. `World` (`world.rt`) goes through a
//! script: `of`, `step`, `close`, and the parts that it lends (its edges, core nodes and buffers); `After` says which
//! network is after the first events, `Lending` what the lent parts are in each run. `dispatch.rt` takes an event by
//! its kind, and there is a file for sessions and `heal`, for `settle`, for nodes and time, costs, customers (Join/Prune
//! messages, notes and selections: RFC 7761 section 4.5, RFC 6514 sections 12.1 and 14), datagrams (RFC 6513 sections
//! 9.1.1 and 12, RFC 3032) and `drain`; `places.rt` has the edge of a VRF and the VRFs at which a datagram enters,
//! `halt.rt` why a network goes no further.
//! Below it are `network_acts` and `once_laws`; above it `mvpn_tool` replays a script event by event.
#![tactic(auto)]

mod costs;
mod customers;
mod datagrams;
mod dispatch;
mod draining;
mod halt;
mod nodes;
mod places;
mod sessions;
mod settling;
mod world;

pub use halt::Halt;
pub use mldp_node::LdpNode;
// The names `of_..`: words of lower crates that this crate's contracts are made of.
pub use network_acts::{Edge, Pool, of_network_laws as of_network_laws};
pub use once_laws as of_once_laws;
pub use world::World;
