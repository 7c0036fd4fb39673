//! The multipoint FEC element of LDP (RFC 6388 sections 2.2 and 3.2), as octets and as a value.

mod fault;
mod fec;
mod reading;
mod shape;
mod writing;

pub use fault::{FecFault, FecReason};
pub use fec::{Fec, FecKind, Opaque};
pub use reading::{decode, one_spelling};
pub use writing::{encode, round_trip};
