//! Label messages of multipoint LSPs of LDP (RFC 5036 section 3, RFC 6388 section 2): as octets, as values, and as a
//! stream of PDUs.

mod fault;
mod labels;
mod laws;
mod message;
mod pdu;
mod reading;
mod stream;
mod tlv;
mod writing;

pub use fault::{FeedFault, LdpFault};
pub use labels::is_mapped;
pub use laws::{any_cut, one_spelling, reads_back};
pub use message::LabelMessage;
pub use stream::Stream;
pub use writing::encode;
