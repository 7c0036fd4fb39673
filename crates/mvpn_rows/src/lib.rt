//! Tests of runs over devices in memory, and of the functions over histories: what no worked row of the built program
//! shows. It is a crate of its own, since a crate with tests is proved twice. `runs.rt`: a whole run of each kind over
//! sources and sinks in memory, and runs of which each read and each write fails in its turn as a network is replayed.
//! `histories.rt`: `home`, `asks` and `receivers` of `mvpn_model`, which no command calls. `worlds.rt`: the nodes that the
//! world of a replay lends. Nothing goes out. Below it
//! are `mvpn_tool`, `mv_io`, `scenario_text` and `mvpn_model`. Worked scenarios, octets and faults are rows of
//! `checks/rows/`; the crates of tests beside this one are `format_rows`, `node_rows`, `route_rows`, `edge_rows` and
//! `session_rows`.
#![tactic(auto)]

#[cfg(test)]
mod histories;
#[cfg(test)]
mod runs;
#[cfg(test)]
mod worlds;
