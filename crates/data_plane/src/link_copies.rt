//! The copies of datagrams on the links of a network, each way in their order, over one pool of buffers.

mod aging;
mod copies;
mod hop;
mod kept;
mod laws;
mod queue;
mod sending;
mod ways;

pub use copies::LinkCopies;
pub use hop::Hop;
pub use kept::Landed;
pub use laws::{
    buffers_count_the_datagrams, calls_change_copies_as_the_network_does,
    copies_of_one_datagram_share_its_buffer, ways_in_any_order_have_the_same_copies,
};
