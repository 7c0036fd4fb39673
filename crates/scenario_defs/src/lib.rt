//! What a scenario and its script say, and the lines of a report, as plain data. Nothing comes in: these are the types
//! that all of the network is spoken of in (`scenario.rt`, `event.rt`, `report.rt`), where `Event` and `ReportLine`
//! have a variant for each line of the whole language, and the words of the contracts in `specs/`. `Vpn.antt` says
//! which VRFs admit each other (RFC 4360 section 4, RFC 4364 section 4.3.2), what a VPN is, at which VRFs a datagram
//! enters; `Home.antt` has the home of a source and the upstream choice of a VRF (RFC 6513 section 5.1); `Names` and
//! `Prefixes` names of things and prefixes of sites; `Rules` what every scenario and script that is read meets, one
//! thing at a place in `proofs/RuleLemmas.antt`; `Text` the text of a report line. The code is `same_vpn` and `edge_of`
//! (`vpn.rt`) and questions of prefixes (`prefix.rt`). Below it is `mv_base`. Above it the text room reads these values
//! (`line_words`, `scenario_lines`, `scenario_text`) and writes lines (`report_text`), and every definition of a
//! choice, an entry, an edge or the network speaks of them.
#![tactic(auto)]

mod event;
mod prefix;
mod report;
mod scenario;
mod vpn;

pub use event::{CustomerEvent, Event, Events, IfaceEntry, JoinEntry, Kind, Script, Timed};
// The names `of_..`: words of lower crates that this crate's contracts are made of.
pub use mv_base as of_mv_base;
pub use prefix::{prefixes_of, same_prefix, share_prefix};
pub use report::{FaultWord, Lines, Refusal, ReportLine};
pub use scenario::{
    Iface, IfaceList, Ifaces, Links, NAME_LIMIT, Name, Node, Nodes, Prefixes, Route, Scenario,
    Site, Sites, Thing, Vrf, Vrfs,
};
pub use vpn::{edge_of, same_vpn};
