//! Changes of a table of routes, and the changes between two tables, whatever their keys and values are.

mod change;

pub use change::Change;
