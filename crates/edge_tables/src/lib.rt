//! The tables of routes of an edge's BGP sessions (RFC 4271 sections 3.2 and 9.1.3). Keys and values that a peer is to
//! have or no more come in, and octets of UPDATE messages that wait for the peer go out (`tables.rt`, `slot.rt`,
//! `writing.rt`); contracts see a finite map from peers. The message that announces a route is written once for all peers
//! (`announced.rt`). `laws.rt` states that a put appends what the edge puts by its
//! old and new data. `rib_sync`: the table that a peer is to have, what it was sent, and the changes between
//! (`Outbox`), and the table taken from a peer (`Inbox`), over any keys and values. Beside the table that is set only
//! the keys are kept at which the table sent differs. `taken_tables`: the routes that an edge took from its peers, one
//! `Inbox` for each peer whose session is up, with the clock at which each route was learned and whether its delay was
//! run. Beside each `Inbox` is the clock before which no route was learned whose delay may still be run: a step at which
//! no delay can be over looks at no route. The invariant says of each key that it has a spelling. Below it are
//! `table_laws` and `edge_routes`; above it `held_tables` sets what each peer is to have, and `edge_control` keeps what
//! was taken.
#![tactic(auto)]

mod announced;
mod laws;
pub mod rib_sync;
mod slot;
mod tables;
pub mod taken_tables;
mod writing;

pub use laws::puts_are_those_of_the_edge;
pub use tables::EdgeTables;
