//! Laws of Join/Prune messages, over their definitions alone.

mod reading;

pub use reading::decoding;
