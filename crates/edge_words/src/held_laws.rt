//! What an edge holds towards its peers, and what the calls of its customers make of that.

mod laws;

pub use laws::{held_are_originated, selections_are_held, sources_are_held};
