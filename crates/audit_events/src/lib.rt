//! What a script and the markers of a finished report say of each datagram. Both come in; the events that have a marker
//! go out, or the least offence of a marker or a `halt` line (`mark` in `markers.rt`, over `specs/Placed.antt` and
//! `Marking.antt`), and then the datagrams that were accepted, one after another, each with its receivers where it is of
//! a window (`Walk` in `sents.rt`, over `Sents.antt`). It is looked up once what became of each event, and whether a
//! window that is open before it ends with it or later (`fate.rt`, `fates.rt`, over `Fates.antt`), and which interfaces
//! and routes the VPN of each VRF has (`vpns.rt`): all of that is a `Case` (`case.rt`). Joined state and notes are kept
//! event by event (`joined.rt`, over `Joined.antt`): nothing is removed, since the clock shows that an entry has ended,
//! and the number of the event that set it that a restart or a join (*,G) ended it (RFC 7761 sections 4.5 and 4.9.5). By
//! them `receivers.rt` finds who asks for a flow. No datagram is kept, and no list of receivers, so memory goes
//! with the events and the entries that they name. In `proofs/` it is shown that what is kept follows the meaning of the
//! events (`FollowLemmas`, `ReceiverLemmas`), that fates are what counts as refused (`FateLemmas`), and that they tell the
//! windows of the cut report (`InWindows`). Below it are `audit_defs`, whose words it hands on, `pim_defs`, and
//! `pim_state`, of which it has the words of a map of entries; above it `mvpn_audit` judges the lines.
#![tactic(auto)]

mod case;
mod fate;
mod fates;
mod joined;
mod markers;
mod receivers;
mod sents;
mod vpns;

// The names `of_..`: words of lower crates that this crate's contracts are made of.
pub use audit_defs as of_audit_defs;
pub use audit_defs::{of_mv_base as of_mv_base, of_scenario_defs as of_scenario_defs};
pub use case::Case;
pub use fate::{Fate, Marked, MarkedEvents};
pub use fates::Fates;
pub use markers::{Marking, is_marker, mark};
pub use sents::{Sent, Walk};
pub use vpns::{Vpn, Vpns};
