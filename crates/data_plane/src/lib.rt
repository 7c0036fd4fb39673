//! Copies of datagrams on links, where they land, and the buffers that they share (RFC 3031, RFC 3032). A datagram that
//! is accepted, branches on which it goes, and landings come in; lines of the report, copies and counts go out.
//! `link_copies`: the copies on the links of a network, each way in their order, over one pool of buffers. Each
//! datagram's octets are kept once, in a buffer of `buf_pool` that counts its copies. A new datagram goes out on all its
//! hops in one call, over one buffer with their count, and without a hop it gets none; a copy that lands keeps its
//! buffer while its datagram is handled. The laws say that the calls are the network's acts, that copies of one datagram
//! share its buffer, and that there are as many buffers as datagrams with a copy. `datagram_acts`: what becomes of
//! datagrams: they are accepted, leave at interfaces with their lines, go on branches and land. The last one is being
//! sent, until the branches at all VRFs are known (`IsSending`), or one is handled of which a copy has landed
//! (`Handles`), or neither (`IsIdle`); each copy has a buffer with the octets of its datagram (`HasBuffer`). Each call
//! goes from one of these to the other by the acts of `network_defs/specs/Acts.antt`, for every network in whose words
//! it starts. Below it are `buf_pool`, `label_forwarding` and `network_defs`; above it `network_acts` has the datagrams
//! beside the control plane.
#![tactic(auto)]

pub mod datagram_acts;
pub mod link_copies;
