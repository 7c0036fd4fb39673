//! Networks whose nodes send each other messages over BGP and LDP sessions: with octets in transit, and with whole messages in
//! transit; and the laws that a run in octets is a run in messages.

mod direction;
mod laws;

pub use direction::Direction;
pub use laws::{a_message_cut_in_two, moves_deliver, octets_carry_messages};
