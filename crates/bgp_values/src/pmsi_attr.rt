//! The PMSI Tunnel attribute's value (RFC 6514 section 5), as octets and as a value.

mod fault;
mod pmsi;
mod reading;
mod writing;

pub use fault::{PmsiFault, PmsiReason};
pub use pmsi::{Ident, Pmsi, Tunnel};
pub use reading::{decode, spellings};
pub use writing::{encode, round_trip};
