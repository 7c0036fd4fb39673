//! Of which tunnels an edge is to be a leaf (RFC 6514 sections 9.1.2 and 12.3), and how many of its timers are due.

mod inclusive;
mod timers;
mod wanted;

pub use timers::due;
pub use wanted::wanted_of;
