//! Patterns of flows, as wildcards write them (RFC 6625 section 2).
ghost use Rattle.std.specs.Prelude.{◌≡◌, ◌⊎◌, ◌↔◌, IsTrue, Some, None};
ghost use Rattle.mv_base.specs.Pattern.{rank};

use crate::Addr;

/// A source and a group, where `None` is the wildcard.
#[derive(Clone, Copy, PartialEq, Eq)]
pub struct Pattern {
    pub source: Option<Addr>,
    pub group: Option<Addr>,
}

/// Whether the word is the wildcard or that address.
fn allows(word: Option<Addr>, addr: Addr) -> bool
    ensures { IsTrue result ↔ ((word ≡ None) ⊎ (word ≡ Some addr)) }
{
    match word {
        None => true,
        Some(wanted) => wanted == addr,
    }
}

impl Pattern {
    /// Whether source and group are those of the pattern, a wildcard being any.
    pub fn matches(&self, source: Addr, group: Addr) -> bool
        ensures { IsTrue result ↔
            (((self.now.source ≡ None) ⊎ (self.now.source ≡ Some source))
            × ((self.now.group ≡ None) ⊎ (self.now.group ≡ Some group))) }
    {
        allows(self.source, source) && allows(self.group, group)
    }

    /// The rank from 4, the most specific, to 1: (S,G), (S,*), (*,G), (*,*).
    pub fn rank(&self) -> u8
        ensures { result ≡ rank self.now }
    {
        match (self.source, self.group) {
            (Some(_), Some(_)) => 4,
            (Some(_), None) => 3,
            (None, Some(_)) => 2,
            (None, None) => 1,
        }
    }
}
