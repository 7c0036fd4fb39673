//! The values that MVPN adds to BGP. Octets of one value come in, and the value or its first fault goes out; and values
//! become octets again. Each codec has the format as a relation (`Spelling`), its faults (`FirstFault`), and the
//! function of the octets that ties both to the code (`Reading`). `pmsi_attr`: the value of the PMSI Tunnel attribute
//! (RFC 6514 section 5), whose tunnel is a P2MP LSP of mLDP, ingress replication, or another type that is kept as
//! octets. `mvpn_nlri`: MCAST-VPN routes (RFC 6514 sections 4.1 to 4.6, with the wildcards of RFC 6625 section 2), with
//! the routes that may be the key of a leaf (`key.rt`) and octets that an enclosing length bounds (`bounded.rt`). Below
//! it are `mv_base` for addresses and octets, and `mldp` for the FEC of a tunnel. Above it `bgp_messages` reads and
//! writes these values inside the path attributes of an UPDATE, the edges (`edge_defs` and what is above it) keep them
//! as keys and values of routes, and `value_text` writes their lines.
#![tactic(auto)]

pub mod mvpn_nlri;
pub mod pmsi_attr;

// The names `of_..`: words of lower crates that this crate's contracts are made of.
pub use mldp as of_mldp;
