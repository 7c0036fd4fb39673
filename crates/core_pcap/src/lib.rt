//! Files of hops: classic pcap files of Ethernet frames with one MPLS label stack entry (RFC 3032) in front of a datagram
//! of a customer, as Wireshark and tcpdump read them. Hops come in and octets go out; and octets come in, in either order
//! of the octets of a number, and the hops that they spell go out, or those before the first fault, and that fault. In
//! `specs/`, `Words` has the numbers and the addresses of nodes, `Spelling` the format as a relation, `FirstFault` the
//! faults, `File` what a whole file tells, and `Reading` the functions of the octets that tie both to the code. Below it is
//! `mv_base`. Above it `mvpn_tool` writes such files of replays, and reads them.
#![tactic(auto)]

mod fault;
mod field;
mod header;
mod hop;
mod order;
mod reading;
mod record;
mod writing;

pub use fault::PcapFault;
pub use hop::{CoreHop, CoreHops, PcapRead};
pub use order::ByteOrder;
pub use reading::{read, spellings};
pub use writing::{round_trip, write_header, write_hop};
