//! BGP messages as octets: a stream of them in any pieces, and the writer (RFC 4271 section 4).

mod cutting;
mod front;
mod laws;
mod stream;
mod writing;

pub use crate::bgp_attributes::{
    Advert, Adverts, Change, Comms, Key, Keys, Message, StreamFault, Update,
};
pub use laws::{any_cut, one_spelling, reads_back};
pub use stream::{FeedFault, Stream};
pub use writing::{EncodeFault, encode};
