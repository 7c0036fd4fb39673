//! Tests of single crates that no worked row of the built program shows: messages and tables of routes. Each call that
//! takes memory is called once with ample memory, each generic one and each law once at a concrete type. `bgp.rt`:
//! streams of BGP and their writer. `changes.rt`: the laws of tables at numbers. `tables.rt`: a table that is kept in
//! step with a peer, and what an edge puts to two peers. `taken.rt`: routes that are taken from peers. `upstream.rt`:
//! the upstream choice of a VRF among the routes that it knows. Nothing goes out. Below it are `bgp_messages`,
//! `table_laws`, `edge_routes`, `edge_tables` and `umh_select`.
#![tactic(auto)]

#[cfg(test)]
mod bgp;
#[cfg(test)]
mod changes;
#[cfg(test)]
mod tables;
#[cfg(test)]
mod taken;
#[cfg(test)]
mod upstream;
