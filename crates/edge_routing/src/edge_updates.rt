//! Whole UPDATE messages of a peer (RFC 4271 section 4.3), and the inclusive tunnels that may come or go by them (RFC 6514
//! section 9.1.2).

mod inclusive;
mod laws;
mod updates;

pub use inclusive::inclusive_from;
pub use laws::{tunnels_of_a_peer_go, tunnels_of_two_steps, tunnels_stay};
pub use updates::{TunnelChanges, take_update};
