//! The lines of values and messages, as `decode` writes them. A value or its fault comes in, and the octets of its
//! lines go out: FEC elements (`fec_lines.rt`), tunnel attributes (`pmsi_lines.rt`) and MCAST-VPN routes
//! (`route_lines.rt`), messages of BGP and LDP (`bgp_lines.rt`, `ldp_lines.rt`), Join/Prune messages (`pim_lines.rt`),
//! addresses (`addr_text.rt`), and the line `refused` of a fault (`refused.rt`). `lined.rt` has the traits `Lined` and
//! `Worded` by which messages and faults of any format are written. `specs/ValueText.antt`, `MessageText.antt` and
//! `JoinPruneText.antt` say what the lines are, with no word of how they are written. Below it are the formats (`mldp`,
//! `bgp_values`, `bgp_messages`, `pim_joinprune`) and `report_text` for numbers and digits; above it `decode_text`
//! reads octets and has these lines written.
#![tactic(auto)]

mod addr_text;
mod bgp_lines;
mod fec_lines;
mod ldp_lines;
mod lined;
mod pim_lines;
mod pmsi_lines;
mod refused;
mod route_lines;

pub use bgp_lines::put_key;
pub use fec_lines::{put_fec_fault, put_fec_line};
pub use lined::{Lined, Worded};
pub use pim_lines::{put_joinprune_fault, put_joinprune_lines};
pub use pmsi_lines::{put_pmsi_fault, put_pmsi_line};
pub use refused::put_refused;
pub use route_lines::{put_route_fault, put_route_line};
