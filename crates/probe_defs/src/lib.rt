//! What one edge makes of the octets of one BGP peer, as plain data (RFC 4271 section 3.1, RFC 6514). Nothing comes in:
//! these are the lines that the edge is given and what is told of it (`probe.rt`), and in `specs/` what is true of them.
//! `Lines` has the joins and the octets of lines, and what each line meets; `Probed` the table that the octets leave, the
//! routes of it that a VRF takes, the tunnels of which the edge is a leaf by it, and the report; nothing there follows the
//! steps of an edge. `Given` is an edge that makes its steps line by line, and the law in `laws.rt` says that it comes to
//! just that, and needs no label. `proofs/` has a file for labels, for the table, for the stream, for steps and for lines.
//! Below it are `edge_defs`, `network_defs` and `edge_streams`; above it is the probe as code.
#![tactic(auto)]

mod laws;
mod probe;

pub use laws::lines_make_a_probe;
pub use probe::{Imports, ProbeLine, ProbeLines, ProbeReport, VrfImports};
