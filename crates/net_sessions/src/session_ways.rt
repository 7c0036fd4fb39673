//! The sessions of a scenario and their directions, in order, and the directions that lead away from each node.

mod laws;
mod sessions;
mod ways;

pub use laws::lines_go_by_ways;
pub use sessions::{Sessions, sessions_of};
pub use ways::{Directions, Ways, directions_of, ways_of};
