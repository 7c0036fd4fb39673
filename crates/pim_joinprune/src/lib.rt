//! The codec of PIM Join/Prune messages of IPv4 and IPv6 (RFC 7761 sections 4.9, 4.9.1 and 4.9.5). Octets come in, and
//! a message or its first fault goes out; and messages become octets again, with the checksum, which covers a
//! pseudo-header where the addresses are of IPv6 (RFC 8200 section 8.1). Groups and sources are read as they are
//! spelled: `Spelling` has the format as a relation, `FirstFault` the faults, and `Reading` the function of the octets
//! that ties both to the code; `Families` says of which family the addresses of a message are, and `Fields` what so
//! many elements end to end are. `pim_laws`: the function by which the definitions of pasts and states read a message
//! gives what is spelled, or its first fault. Below it is `mv_base`. Above it `pim_defs` says what a message makes of
//! the joined state of an interface, and `pim_state`, `vrf_flows` and the edges take such messages from customers;
//! `value_text` writes their lines.
#![tactic(auto)]

mod checksum;
mod element;
mod family;
mod fault;
mod field;
mod group;
mod message;
pub mod pim_laws;
mod reading;
mod source;
mod writing;

pub use fault::{DecodeFault, PimFault};
pub use group::{Group, Groups};
pub use message::JoinPrune;
pub use reading::{decode, spellings};
pub use source::{JpSource, JpSources, SourceKind};
pub use writing::{encode, round_trip};
