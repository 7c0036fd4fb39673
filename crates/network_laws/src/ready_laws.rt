//! Which sessions of the whole network are ready is told by the events alone.

mod laws;

pub use laws::unready_is_told_by_the_events;
