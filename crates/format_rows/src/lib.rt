//! Tests of single crates that no worked row of the built program shows: formats and streams of octets, sessions,
//! sources and sinks, and buffers. Each call that takes memory is called once with ample memory, and each law once at a
//! concrete type. `devices.rt`: sources and sinks in memory. `ldp.rt`: streams of LDP in pieces of several sizes and
//! their writer. `streams.rt`: sessions in pieces, their first faults, and sessions that come up again. `sessions.rt`:
//! the laws of sessions at numbers. `join_prune.rt`: a Join/Prune message read and written. `buffers.rt`: buffers that
//! are shared. Nothing goes out. Below it are the codecs (`mldp`, `bgp_messages`, `pim_joinprune`), `edge_streams`,
//! `mv_io` and `buf_pool`. The tests of parts are four crates, with `node_rows`, `route_rows` and `edge_rows`, so that
//! they are proved side by side.
#![tactic(auto)]

#[cfg(test)]
mod buffers;
#[cfg(test)]
mod devices;
#[cfg(test)]
mod join_prune;
#[cfg(test)]
mod ldp;
#[cfg(test)]
mod sessions;
#[cfg(test)]
mod streams;
