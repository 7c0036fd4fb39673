//! A network of edges at the level of messages, and what holds of it after every run: the tables of each joined session are in step,
//! and where no change of a route's key is in transit there, it was learned no earlier than its selection was made.

mod laws;

pub use laws::{
    routes_are_learned_no_earlier, runs_keep_the_rule, start_keeps_the_rule, tables_are_in_step,
};
