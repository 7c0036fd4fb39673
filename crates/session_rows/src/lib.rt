//! Tests of two edges that hand each other the octets of their sessions, of which no worked row of the built program
//! sees the calls. Each call of an edge is called once with ample memory. `two_edges.rt` makes two edges of one
//! scenario and moves octets between them; what each is to the other is data (`specs/Roles.antt`). `joins.rt` and
//! `notes.rt`: customers join and sources are noted at one edge, and the other learns it. `copies.rt`: copies arrive on
//! the inclusive tunnel of the other edge. `queries.rt`: what is asked of an edge. `faults.rt`: octets in which no BGP
//! message begins. Nothing goes out. Below it is `edge_core`, with the words of the crates that its contracts are made
//! of.
#![tactic(auto)]

#[cfg(test)]
mod copies;
#[cfg(test)]
mod faults;
#[cfg(test)]
mod joins;
#[cfg(test)]
mod notes;
#[cfg(test)]
mod queries;
#[cfg(test)]
mod two_edges;
