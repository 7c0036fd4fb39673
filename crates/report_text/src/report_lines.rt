//! The line of a report that a text is.

mod bounds;
mod fault;
mod fields;
mod lines;
mod names;
mod reader;
mod words;

pub use bounds::has_type_bounds;
pub use fault::LineFault;
pub use reader::read_line;
