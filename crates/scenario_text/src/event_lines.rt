//! The lines of events: what each says, given what the lines before it declared, or its first fault.

mod clock_lines;
mod dispatch;
mod flow_lines;
mod join_lines;
mod link_lines;
mod payload_lines;
mod rules;
mod select_lines;
mod session_lines;
mod words;

pub use dispatch::event_line;
