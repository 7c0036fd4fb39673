//! BGP messages, as octets and as values (RFC 4271 section 4, RFC 4760). Octets of a session come in, in any pieces,
//! and whole messages or the first fault go out; and a change of a route becomes the octets of an UPDATE of its own.
//! `bgp_attributes`: the path attributes of an UPDATE and what they say (RFC 4271 sections 4.3 and 5.1, RFC 4760
//! sections 3 to 5): routes of MCAST-VPN (RFC 6514 section 4) and of VPN-IPv4 and VPN-IPv6 (RFC 4364 section 4.3.4, RFC
//! 4659, RFC 8277), communities, and the tunnel attribute; in which order attributes may come, and which faults end a
//! session. `bgp_update`: the message at the front of octets, the cut of a stream into messages, the writer, the laws
//! of both, and the table of routes that a session leaves (`specs/bgp_update/Table.antt`). The format is a relation
//! (`Spelling`), the faults are `FirstFault`, and `Reading` is the function that ties both to the code. Below it are
//! `bgp_values` and `mv_base` (`framing`, `route_targets`). Above it `edge_defs` says which changes an edge puts,
//! `edge_tables` writes them, `edge_streams` keeps a stream for each peer, and `value_text` writes the lines of
//! messages.
#![tactic(auto)]

pub mod bgp_attributes;
pub mod bgp_update;
