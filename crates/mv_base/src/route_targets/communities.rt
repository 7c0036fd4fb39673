//! Extended communities (RFC 4360).
ghost use Rattle.std.specs.Prelude.{◌≡◌, nat_eq};
ghost use Rattle.std.specs.Cmp.Lexicographic.{pointwise};
ghost use Rattle.mv_base.specs.route_targets.Targets.{same_target};

use crate::alike::same_eight;

/// An extended community, its 8 octets in the order of the wire (RFC 4360 section 2).
#[derive(Clone, Copy, PartialEq, Eq)]
pub struct ExtComm(pub [u8; 8]);

impl ExtComm {
    /// Whether both are one community: all their octets are equal.
    pub fn same(self, other: ExtComm) -> bool
        ensures { result ≡ pointwise nat_eq self.0 other.0 }
    {
        same_eight(self.0, other.0)
    }
}

/// A Route Target.
#[derive(Clone, Copy, PartialEq, Eq)]
pub struct Target(pub ExtComm);

impl Target {
    /// Whether both are one target: all their octets are equal.
    pub fn same(self, other: Target) -> bool
        ensures { result ≡ same_target self other }
    {
        self.0.same(other.0)
    }
}
