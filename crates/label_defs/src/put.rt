//! Messages that are put.
use mldp::mldp_msgs::LabelMessage;
use mldp::of_mv_base::NodeId;

/// A label message that a node puts to a neighbour.
#[derive(Clone, Copy, PartialEq, Eq)]
pub struct Put {
    pub to: NodeId,
    pub message: LabelMessage,
}
