//! From when on entries may end.
ghost use Rattle.std.specs.Prelude.{◌≡◌, fold};
ghost use Rattle.pim_defs.specs.declared.expiry.Expiry.TheVariants.{Never};
ghost use Rattle.indexmap.specs.IndexMap.{values};
ghost use Rattle.pim_state.specs.Ends.{sooner, sooner_where};

use crate::changes::Changes;
use pim_defs::Expiry;

/// The sooner one of two ends.
fn sooner(own: Expiry, other: Expiry) -> Expiry
    ensures { result ≡ sooner own other }
{
    match (own, other) {
        (Expiry::At(moment), Expiry::At(others)) => Expiry::At(moment.min(others)),
        (Expiry::At(_), Expiry::Never) => own,
        (Expiry::Never, _) => other,
    }
}

/// The sooner one of an end and one that may be there.
fn sooner_where(own: Expiry, other: Option<Expiry>) -> Expiry
    ensures { result ≡ sooner_where own other }
{
    match other {
        None => own,
        Some(expiry) => sooner(own, expiry),
    }
}

/// The soonest of these ends.
pub(crate) fn soonest(expiries: &[Expiry]) -> Expiry
    ensures { result ≡ fold sooner Never expiries.now }
{
    let mut first = Expiry::Never;
    for expiry in expiries {
        first = sooner(first, *expiry);
    }
    first
}

/// The soonest of an end and of those that the changes set.
pub(crate) fn soonest_with(first: Expiry, changes: &Changes) -> Expiry
    ensures { result ≡ fold sooner_where first (values changes.now) }
{
    let mut soonest = first;
    let changed = changes.values().as_slice();
    for expiry in changed {
        soonest = sooner_where(soonest, *expiry);
    }
    soonest
}
