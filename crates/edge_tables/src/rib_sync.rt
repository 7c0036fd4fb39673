//! Tables of routes kept towards a peer (RFC 4271 section 3.2): what the peer is to have, what it was sent, and the changes
//! between; and the table that was taken from a peer.

mod inbox;
mod kept;
mod outbox;
mod pending;

pub use inbox::{Entries, Inbox};
pub use outbox::Outbox;
pub use pending::Pending;
