//! What is wrong with the octets of a session.

use bgp_messages::bgp_update::StreamFault;
use mldp::mldp_msgs::LdpFault;

/// The first fault of a session's stream.
#[derive(Clone, Copy, PartialEq, Eq)]
pub enum SessionReason {
    Bgp(StreamFault),
    Ldp(LdpFault),
}
