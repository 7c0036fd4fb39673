//! The values of a scenario and its script are octets, as their types say. No function here does anything.

mod events;
mod scenarios;

pub use events::{event_has_octets, events_have_octets};
pub use scenarios::scenario_has_octets;
