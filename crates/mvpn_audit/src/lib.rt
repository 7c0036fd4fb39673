//! The judgement of a finished report as code. A script and the numbered lines of a report come in, and the least offence
//! goes out, if there is one (`verdict.rt`). `audit_events` finds the events that the markers belong to, or the least
//! offence of a marker or a `halt` line. Then one pass over the lines finds which datagram left where, and which `out`
//! lines repeat an earlier one (`exits.rt`, over `specs/Exits.antt`). One pass over the events takes the datagrams as
//! `audit_events` hands them out, each with its receivers: it notes of each exit whether it was asked for, and the first
//! datagram that did not leave at a receiver, which is the least offence (`findings.rt`, over `Findings.antt` and
//! `Missing.antt`). A second pass over the lines finds the first offence of an `out` line (`judging.rt`, over
//! `Judging.antt`), by these notes, by octets (`octets.rt`, `packet.rt`) and by admission (`admission.rt`). What is kept is
//! an entry for each datagram and for each exit that a line says, so memory goes with the events and the lines, however
//! many receivers there are. In `proofs/` it is shown that these notes say who was asked (`FindingLemmas`), that what an
//! `out` line offends against is the first of its offences (`NamedLemmas`), and that the answer is the least of all
//! (`VerdictLemmas`).
#![tactic(auto)]

mod admission;
mod exits;
mod findings;
mod judging;
mod octets;
mod verdict;

pub use verdict::audit;
