//! Plain definitions of what a history of events means, and plain, slow functions that compute them, each proved equal
//! to its definition. A scenario and the events so far come in; the home of a source, which interfaces ask for a flow,
//! who receives a datagram and which sessions are ready go out (`history.rt`, `routing.rt`, `standing.rt`, `active.rt`,
//! `readiness.rt`). `vpn.rt` answers what is attached to which VPN, and `message.rt` the message that an event hands to
//! an edge, or the word of its first fault. `specs/Past.antt` says what was accepted and when an entry ends (RFC 7761
//! sections 4.1.5 and 4.9.5), `Messages` and `Refused` the messages of events, `Packet` and `Packets` the packet of a
//! `send` (RFC 791 section 3.1, RFC 8200 section 3), `Sessions`, `Unready` and `OneSession` the sessions and how each
//! is after events (RFC 5036 section 2.2.3, RFC 4364 section 4.3.2), `Report` reports, and `Safe` and `Once` what safe
//! and delivered once promise. Below it are `scenario_defs`, `pim_defs` and `label_forwarding`. Above it `network_defs`
//! uses these words for the whole network, the laws of runs (`once_laws`, `run_laws`) tie them to its state, and
//! `mvpn_tool` promises them of a report.
#![tactic(auto)]

mod active;
mod history;
mod message;
mod packets;
mod readiness;
mod routing;
mod session;
mod standing;
mod vpn;

pub use history::{History, LineNumbers, asks, home, receivers};
pub use message::{Given, customer_message, fault_word, message_of, own_addr};
pub use packets::packet;
pub use readiness::{UpEnd, unready};
pub use routing::{home_among, local_routes};
pub use session::Session;
pub use standing::Standing;
pub use vpn::{is_attached, vrf_of_site};
