//! What the command `decode` reads and writes. A text of hexadecimal digits comes in, and its octets or its fault goes
//! out (`read_octets` in `hex_text.rt`, in one pass; its law is in `laws.rt`). Then octets come in, and the lines of
//! all values before the first fault, and the line of the fault, go out (`tell` in `telling.rt`): FEC elements (RFC
//! 6388), MCAST-VPN routes and a tunnel attribute (RFC 6514 sections 4 and 5), a Join/Prune message (RFC 7761 section
//! 4.9.5), and sessions of BGP and LDP (RFC 4271 section 4, RFC 5036 section 3.1), which are fed to the stream of their
//! format in pieces of 4,096 octets. `format.rt` has the six formats, and `specs/Formats.antt` what whole octets are,
//! what octets with a fault are, and what a text says of them; `value.rt`, `values.rt`, `stream.rt`, `streams.rt` and
//! `session.rt` read any value or any stream by one trait each. Below it are the formats, `value_text` for the lines,
//! and `line_words`; above it `mvpn_tool` runs the command.
#![tactic(auto)]

mod format;
mod hex_text;
mod laws;
mod session;
mod stream;
mod streams;
mod telling;
mod value;
mod values;

pub use format::Format;
pub use hex_text::read_octets;
pub use laws::octets_written;
pub use telling::{Told, tell};
