//! Words that every crate uses. Nothing comes in: the crate has the types of ids, addresses of IPv4 and IPv6, prefixes,
//! patterns of flows (RFC 6625 section 2), route distinguishers (RFC 4364 section 4.2), lists and octets on the heap
//! that contracts see as lists, numbers in text, the Internet checksum (RFC 1071), and a reader that takes octets off
//! the front. It uses no other crate, and each crate that has data uses it. `route_targets`: sets of Route Targets, and
//! which VRFs admit each other's routes (RFC 4360 section 4). `core_walks`: the links of the provider's core, walks
//! along them, and whether each node is reached; no call takes memory. `framing`: units laid end to end, whatever their
//! format, a stream of them that comes in pieces, and its first fault. A format shows that its own reading of the front
//! meets `IsFormat` (`proofs/framing/Feedings.antt`), and the clauses of its stream follow. `table_defs`: tables of
//! routes by key (RFC 4271 sections 3.1 and 9.1.3), and the changes between two of them, whatever the keys and values
//! are. `proofs/Fields.antt` has the lemmas on fields that every codec shares, `proofs/SortedMaps.antt` those on maps
//! in order.
#![tactic(auto)]

mod addr;
mod addr_text;
mod alike;
mod checksum;
mod core_link;
pub mod core_walks;
pub mod framing;
mod ids;
mod inline;
mod memory;
mod number;
mod pattern;
mod prefix;
mod rd;
mod reader;
pub mod route_targets;
mod seq;
pub mod table_defs;
mod writing;

pub use addr::Addr;
pub use checksum::ones_sum;
pub use core_link::Link;
pub use ids::{IfaceId, NodeId, SiteId, VrfId};
pub use inline::Inline;
pub use memory::NoMemory;
pub use number::{cut_at, read_number};
pub use pattern::Pattern;
pub use prefix::Prefix;
pub use rd::{Rd, Rule};
pub use reader::{Reader, Short};
pub use seq::{Bytes, Seq};
pub use writing::put;
