//! Join/Prune messages.
use crate::group::Groups;
use mv_base::Addr;

/// A Join/Prune message (RFC 7761 section 4.9.5).
#[derive(Drop)]
pub struct JoinPrune {
    /// The neighbour upstream that the message is for. All addresses are of its family.
    pub neighbour: Addr,
    /// How many seconds the joins and prunes are kept. 0xFFFF is without end.
    pub holdtime: u16,
    /// At most 255.
    pub groups: Groups,
}
