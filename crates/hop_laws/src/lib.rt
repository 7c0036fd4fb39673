//! Laws of the hops of a report, as a file of hops has them. Nothing comes in; each law is a function with an empty body
//! (`laws.rt`). `specs/Hops.antt` says which hops a report has: its `hop` lines in order, each with the clock at its
//! event and the octets of the datagram of its number. In every run each `hop` line names a datagram that was sent up to
//! its own event, and each hop has a spelling in a file: its clock fits, its nodes, its label and its TTL are those of a
//! frame, and its datagram is short enough. Below it are `core_pcap` for what a spelling is, `license_laws` for labels,
//! `delivery_laws` for datagrams and what each act keeps of copies, and `run_laws` for nodes; above it `mvpn_tool` writes
//! such files.
#![tactic(auto)]

mod laws;

pub use laws::{hop_lines_name_datagrams, hops_have_spellings};
// The names `of_..`: laws of lower crates that are called beside these.
pub use license_laws as of_license_laws;
pub use run_laws as of_run_laws;
