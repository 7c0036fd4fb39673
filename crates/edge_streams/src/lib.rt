//! The octets that come over the sessions of a node (RFC 4271 section 4, RFC 5036 section 3.1). Octets of a session
//! come in, in any pieces, and the whole messages that wait, one after another, or the first fault go out.
//! `EdgeStreams` (`streams.rt`) has a stream for each BGP peer and each LDP neighbour whose session is up. What a stream
//! of either protocol does is the trait of `message_stream.rt`; over it, and so for both protocols, are the stream of
//! one session (`session_stream.rt`) and those by peer (`peer_streams.rt`). `reason.rt` has the fault of either.
//! `specs/Streams.antt` says what a call makes of the streams, in the words of `session_defs` of `network_defs`;
//! `Spelled` what is known of a message that is handed out: that it has a spelling, and that what it says can be
//! written; `Kept` how streams by node make those of sessions. Below it are the formats (`bgp_messages`, `mldp`) and
//! `network_defs`; above it an edge (`edge_routing`, `edge_core`) and a core node (`network_nodes`) take the messages.
#![tactic(auto)]

mod message_stream;
mod peer_streams;
mod reason;
mod session_stream;
mod streams;

// The names `of_..`: words of lower crates that this crate's contracts are made of.
pub use network_defs as of_network_defs;
pub use reason::SessionReason;
pub use streams::EdgeStreams;
