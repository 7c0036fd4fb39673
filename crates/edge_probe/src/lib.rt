//! One edge that meets any octets of one BGP peer (RFC 4271 section 6, RFC 6514). A scenario, two of its edges, and lines of
//! customers' joins and of octets come in; what the edge takes and wants goes out, with the first fault of the octets. An
//! edge of `edge_core` is made, its session with the peer comes up (`report.rt`), and it is given each line in order at
//! clock 0, octets a few at a time (`given.rt`). No LDP session is up, so it needs no label. Then it is asked what its VRFs take (`told.rt`) and
//! what it wants. What is reported is `Probed` of `probe_defs`, for every list of octets; `laws.rt` says whose the tunnels are
//! and why routes are taken. Below it is `edge_core`; above it `mvpn_tool` has the command.
#![tactic(auto)]

mod given;
mod laws;
mod report;
mod told;

pub use laws::{imports_have_targets, wanted_roots_are_the_peers};
pub use report::probe;
