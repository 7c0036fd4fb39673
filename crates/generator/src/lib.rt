//! The scenario and script of a number. A number comes in, and the octets of a text go out: 32 edges over a ring of 16
//! core nodes, with eight VPNs of a site at each edge. In each VPN a quarter of the edges join one flow, which is sent
//! over the inclusive tunnel, after a selection, and on the selected tunnel. `put_made` (`made.rt`) writes it line by
//! line (`lines.rt`); what the text is, `specs/Made.antt` says, with no word of how it is written. `texts_repeat`
//! (`laws.rt`): the text depends only on the number modulo 32. Below it is `report_text`, for numbers and octets in
//! digits. Above it `made_laws` shows that the text is read and that no event of it lacks a label, and `mvpn_tool`
//! writes it for `make` and replays it for `sweep`.
#![tactic(auto)]

mod laws;
mod lines;
mod made;

pub use laws::texts_repeat;
pub use made::put_made;
