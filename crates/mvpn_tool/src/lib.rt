//! The top call: `run` (`top.rt`) takes the words of a command, a source and a sink, and answers a status and what was
//! written. `command.rt` says which words are which command. `replay.rt` replays a source into a sink, event by event,
//! each with those of its lines that are asked for, up to one that runs out of labels; `audit.rt` judges the report
//! that a source has after its script; `shown.rt` reads a source, and writes what a command shows of it (`Shows`):
//! `decode.rt` its values, `ingress.rt` what a root and its peers do, `probe.rt` what one edge makes of a peer's octets
//! (`probe_lines.rt`), `hops.rt` the hops of a file (`hop_lines.rt`); `make.rt` writes the text of a made network;
//! `sweep.rt` replays one and writes the line of its numbers (`counts.rt`). `input.rt` reads a source to its end or
//! past the limit, `report.rt` has what is written of events (`sent_hops.rt` their hops) and of a fault, `stop.rt` why
//! a replay or a decoding ended early, and `laws.rt` what is known of a script and its runs from the laws below. The
//! contract of `run` is a record for each command with a field for each status (`specs/Runs.antt`, `Commands`);
//! `replay` and `pcap` share one, and so do `decode`, `hops`, `ingress` and `probe`, which read a text and show what is
//! in it. `Report` is a whole run and a halted one with all that is promised of them, `Output` what a replay writes of
//! a report, `Known` what the laws of runs say, `Outcome`, `TellOutcome`, `AuditOutcome` and `Sweep` how commands may
//! end, `HopLines` and `ProbeLines` the lines of hops and of a probe. Below it are the text room (`scenario_text`,
//! `report_text`, `decode_text`, `ingress_text`, `probe_text`, `generator`, `value_text`, `audit_text`), the files of
//! hops (`core_pcap`), the judgement (`mvpn_audit`), an edge by itself (`edge_probe`), the network (`network_events`),
//! the laws of runs (`settle_laws`, `license_laws`, `run_laws`, `hop_laws`, `audit_laws`, `made_laws`) and `mv_io`;
//! above it `mvpn` is the program.
#![tactic(auto)]

mod audit;
mod command;
mod counts;
mod decode;
mod hop_lines;
mod hops;
mod ingress;
mod input;
mod laws;
mod make;
mod probe;
mod probe_lines;
mod replay;
mod report;
mod sent_hops;
mod shown;
mod stop;
mod sweep;
mod top;

pub use command::{Command, Detail, Output};
pub use laws::own_reports_have_no_offence;
pub use network_events::World;
pub use stop::Stop;
pub use top::{End, run};
