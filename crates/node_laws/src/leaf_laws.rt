//! The trees of which an edge is to be a leaf, as its label part has them: a law over definitions.

mod laws;

pub use laws::leaves_may_be_wanted;
