//! A provider edge of a scenario as a network calls it (RFC 6513, RFC 6514). Calls of customers and of the operator,
//! octets of sessions, datagrams, costs and time come in; octets that wait for each session, the fate of a datagram, or
//! a fault goes out. `Edge` (`edge.rt`) has what it keeps and sends to its peers (`edge_routing`), its label part
//! (`edge_labels`), a stream for each session whose end is up (`edge_streams`), when the end of each BGP session came
//! up (`clocks.rt`), and whether it is spent; contracts see it as an `EdgeView` of these five. A call changes what it
//! is about, and then `settle` (`parts.rt`) makes the row of label steps: that of the call itself, and one for each
//! tree of which the edge becomes or stops being a leaf. Octets that come are fed to the session's stream, the messages
//! that wait then are taken one after another, and the first fault of the stream is answered: one function for the
//! messages of either protocol, which are an `EdgeMessage` (`octets.rt`; RFC 4271 section 4, RFC 5036 section 3.1).
//! `calls.rt` has the calls that may change an edge: each answers for a spent edge, has its part done by `Parts`, and
//! notes whether the edge is spent now. All of these but octets are values (`EdgeCall` in `edge_call.rt`), which the
//! layers above hand on; `named.rt` has each by its name. `queries.rt` and `lists.rt` have what is asked of an edge,
//! and `datagrams.rt` where a datagram goes, which changes nothing. `specs/State.antt` says what holds of an edge that
//! is not spent (`IsLive`) and which edge of `node_defs` it is (`IsIn`); `Calls` what a call is, asks for and answers;
//! `Answers`, `Taking` and `Pim` what others answer. Above it `network_nodes` has it as one of the two kinds of nodes.
#![tactic(auto)]

mod calls;
mod clocks;
mod customers;
mod datagrams;
mod edge;
mod edge_call;
mod fate;
mod fault;
mod lists;
mod named;
mod octets;
mod operators;
mod parts;
mod queries;
mod sessions;

pub use datagrams::branches_along;
pub use edge::{Edge, addrs_of};
pub use edge_call::{CustomerCall, EdgeCall};
// The names `of_..`: words of lower crates that this crate's contracts are made of.
pub use edge_routing::of_edge_streams as of_edge_streams;
pub use edge_routing::of_edge_streams::SessionReason;
pub use fate::{Branches, Fate};
pub use fault::{EdgeAnswer, EdgeFault};
pub use lists::{Fecs, RouteKeys};
