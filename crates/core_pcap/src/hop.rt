//! The hops of copies, and what is read of a file of them.
use crate::fault::PcapFault;
use mv_base::{Bytes, NodeId, Seq};

/// A copy of a datagram was put on the link between two nodes, under that label, with that TTL in front of the datagram's
/// octets.
#[derive(Drop)]
pub struct CoreHop {
    pub tick: u64,
    pub from: NodeId,
    pub to: NodeId,
    pub label: u32,
    pub ttl: u8,
    pub bytes: Bytes,
}

pub type CoreHops = Seq<CoreHop>;

/// The hops of a file before its first fault, and that fault with its place, counted from 0.
#[derive(Drop)]
pub struct PcapRead {
    pub hops: CoreHops,
    pub fault: Option<(u64, PcapFault)>,
}
