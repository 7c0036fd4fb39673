//! What becomes of a datagram that a site sends.
use mldp::mldp_fec::Fec;
use scenario_defs::IfaceList;

/// Where a datagram goes that a site sends into a VRF: the interfaces at which it leaves, in order, and the tunnel on which it is
/// transmitted, where another edge has joined its flow (RFC 6513 section 12).
#[derive(Drop)]
pub struct Entering {
    pub outs: IfaceList,
    pub tunnel: Option<Fec>,
}
