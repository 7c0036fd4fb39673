//! What the forwarding of a node works with. Octets of a packet come in, and a datagram of a flow or the first fault
//! goes out (`reading.rt`): packets of IPv4 and IPv6 to multicast groups (RFC 791 section 3.1, RFC 8200 section 3, RFC
//! 1112 section 4, RFC 4291 section 2.7). `specs/Spelling.antt` has the fields end to end, `FirstFault` the faults,
//! `Reading` the same as a function of the octets, and `Written` the packet that a `send` makes. Labels and branches
//! come in too, and a forwarding table goes out (`fib.rt`): which label of which neighbour is noted for which tree,
//! whether the node is a leaf of a tree, and the branches on which its copies go on, in order. `FibData` has the table
//! as plain data, `Slots` how what is kept makes it: a slot for each tree, with the number of labels that name it.
//! Below it are `mv_base` and `label_defs`; above it `label_trees` keeps the table in step with the labels of a node,
//! and the packets are read where datagrams enter (`mvpn_model`, `network_events`).
#![tactic(auto)]

mod branch;
mod branches;
mod datagram;
mod entry;
mod fault;
mod fib;
mod laws;
mod pairs;
mod reading;
mod room;
mod slots;

pub use branch::Branch;
pub use datagram::Datagram;
pub use entry::Entry;
pub use fault::PacketFault;
pub use fib::Fib;
pub use laws::{one_flow, written_is_read};
pub use reading::read_packet;
pub use room::make_room;
