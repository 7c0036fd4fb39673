//! Multipoint LDP. Octets of one value or of a session come in, and a value or its first fault goes out; and values
//! become octets again. Each codec has the format as a relation (`Spelling`), its faults (`FirstFault`), and the
//! function of the octets that ties both to the code (`Reading`). `mldp_fec`: the multipoint FEC element (RFC 6388
//! sections 2.2 and 3.2): the root of a multipoint LSP and its opaque value, which together name a tree everywhere
//! above. `mldp_msgs`: label messages of multipoint LSPs (RFC 5036 section 3, RFC 6388 section 2), as values and as a
//! stream of PDUs in any pieces; `labels.rt` has the set of labels that a session leaves mapped. Below it is `mv_base`
//! alone, with `framing` for the stream. Above it `bgp_values` names a tree in a tunnel attribute, the label nodes
//! (`label_defs`, `mldp_node`) take and put these messages, and `edge_streams` and `network_nodes` keep a stream for
//! each LDP session.
#![tactic(auto)]

pub mod mldp_fec;
pub mod mldp_msgs;

// The names `of_..`: words of lower crates that this crate's contracts are made of.
pub use mv_base as of_mv_base;
