//! The words in which contracts speak of what one VRF keeps, and laws about them (RFC 7761 section 4.1.6, RFC 6513
//! sections 5.1 and 7, RFC 6514 sections 11 to 14). Nothing comes in. `tree_defs`: one VRF as definitions: which
//! interfaces ask for a flow, by their entries and by what makes known that its source sends, which upstream the VRF
//! chooses, where a datagram leaves; and what is kept besides: selections, learned selective routes, joins of other
//! edges and wanted tunnels (`VrfData`, `TreeData`). The orders of flows, notes and Source Active routes are total.
//! `tree_laws`: the trees of an edge's VRFs beside what the definitions say that the edge keeps; `IsTreeOf` says field
//! by field when a tree keeps what the edge keeps of its VRF. Then a flow looked up in its tree is the edge's with its
//! upstream, and so are the interfaces that ask, the tunnels of which the edge is a leaf, where datagrams go, and which
//! joins are held towards a peer. Below it are `edge_words`, `selective` and `umh_select`; above it `vrf_flows` and
//! `vrf_trees` are one VRF as code, and `control_laws` puts the trees of an edge together.
#![tactic(auto)]

pub mod tree_defs;
pub mod tree_laws;
