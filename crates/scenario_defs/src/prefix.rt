//! The prefixes of sites.
ghost use Rattle.std.specs.Prelude.{◌≡◌};
ghost use Rattle.std.specs.List.{list_any};
ghost use Rattle.scenario_defs.specs.Prefixes.{prefixes_of, same_prefix, share_prefix};

use crate::Scenario;
use mv_base::{Prefix, SiteId};

/// The prefixes of a site, none where there is no such site.
pub fn prefixes_of(scenario: &Scenario, site: SiteId) -> &[Prefix]
    ensures { result.now ≡ prefixes_of scenario.now site }
{
    match scenario.sites.as_slice().get(usize::from(site.0)) {
        Some(found) => found.prefixes.as_slice(),
        None => &[],
    }
}

/// Whether both are one prefix.
pub fn same_prefix(a: Prefix, b: Prefix) -> bool
    ensures { result ≡ same_prefix a b }
{
    a.addr.same(b.addr) && a.bits == b.bits
}

fn is_among(prefix: Prefix, prefixes: &[Prefix]) -> bool
    ensures { result ≡ list_any (same_prefix prefix) prefixes.now }
{
    prefixes.iter().any(|other| same_prefix(prefix, *other))
}

/// Whether a prefix of the one list is one of the other.
pub fn share_prefix(a: &[Prefix], b: &[Prefix]) -> bool
    ensures { result ≡ share_prefix a.now b.now }
{
    a.iter().any(|prefix| is_among(*prefix, b))
}
