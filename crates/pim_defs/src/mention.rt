//! What a Join/Prune message says of an entry, and what it makes of it.
ghost use Rattle.std.specs.Prelude.{◌≡◌, ◌<◌, ◌^◌};
ghost use Rattle.std.specs.List.{list_any};
ghost use Rattle.pim_defs.specs.Mention.{entry_of, same_entry, lists, joins, prunes, mention_of, expiry_after, rpt_after, joined_after};

use crate::entry::{entry_of, group_of, same_entry};
use crate::expiry::{Expiry, extended};
use pim_joinprune::{JoinPrune, JpSource};
use scenario_defs::JoinEntry;
use scenario_defs::of_mv_base::Addr;

/// What a message says of an entry.
#[derive(Clone, Copy, PartialEq, Eq)]
pub struct Mention {
    /// It joins the entry.
    pub joined: bool,
    /// It prunes the entry.
    pub pruned: bool,
    /// It joins the shared tree of the entry's group, (*,G).
    pub shared: bool,
}

/// Whether one of the sources of the group is the entry.
fn lists(group: Addr, sources: &[JpSource], entry: &JoinEntry) -> bool
    ensures { result ≡ lists group sources.now entry.now }
{
    sources
        .iter()
        .any(|source| same_entry(&entry_of(group, source), entry))
}

/// Whether the message joins the entry.
fn joins(message: &JoinPrune, entry: &JoinEntry) -> bool
    ensures { result ≡ joins message.now entry.now }
{
    let groups = message.groups.as_slice();
    groups
        .iter()
        .any(|group| lists(group.group, group.joins.as_slice(), entry))
}

/// Whether the message prunes the entry.
fn prunes(message: &JoinPrune, entry: &JoinEntry) -> bool
    ensures { result ≡ prunes message.now entry.now }
{
    let groups = message.groups.as_slice();
    groups
        .iter()
        .any(|group| lists(group.group, group.prunes.as_slice(), entry))
}

/// What the message says of the entry.
pub fn mention_of(message: &JoinPrune, entry: &JoinEntry) -> Mention
    ensures { result ≡ mention_of message.now entry.now }
{
    let shared = JoinEntry::Star {
        group: group_of(entry),
    };
    Mention {
        joined: joins(message, entry),
        pruned: prunes(message, entry),
        shared: joins(message, &shared),
    }
}

/// The expiry of an (S,G,rpt) prune after a message.
fn rpt_after(mention: Mention, clock: u64, holdtime: u16, old: Option<Expiry>) -> Option<Expiry>
    requires { clock < 2 ^ 63 }
    ensures { result ≡ rpt_after mention clock holdtime old }
{
    let kept = if mention.shared && !mention.pruned {
        None
    } else {
        old
    };
    let unjoined = if mention.joined { None } else { kept };
    if mention.pruned {
        extended(clock, holdtime, unjoined)
    } else {
        unjoined
    }
}

/// The expiry of a (*,G) or (S,G) join after a message.
fn joined_after(mention: Mention, clock: u64, holdtime: u16, old: Option<Expiry>) -> Option<Expiry>
    requires { clock < 2 ^ 63 }
    ensures { result ≡ joined_after mention clock holdtime old }
{
    if mention.pruned {
        None
    } else if mention.joined {
        extended(clock, holdtime, old)
    } else {
        old
    }
}

/// The expiry of an entry after a message that says this of it, taken at the clock.
pub fn expiry_after(
    entry: &JoinEntry,
    mention: Mention,
    clock: u64,
    holdtime: u16,
    old: Option<Expiry>,
) -> Option<Expiry>
    requires { clock < 2 ^ 63 }
    ensures { result ≡ expiry_after entry.now mention clock holdtime old }
{
    match entry {
        JoinEntry::Rpt {
            source: _,
            group: _,
        } => rpt_after(mention, clock, holdtime, old),
        _ => joined_after(mention, clock, holdtime, old),
    }
}
