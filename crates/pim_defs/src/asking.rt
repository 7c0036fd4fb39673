//! Which flows an interface asks for.
ghost use Rattle.std.specs.Prelude.{◌≡◌};
ghost use Rattle.pim_defs.specs.Asking.{asks_by};

use crate::expiry::{Expiry, counts};

/// Whether an interface asks for (S,G) at the clock, by the expiries of its entries (S,G), (*,G) and (S,G,rpt) and by
/// whether S is known to send to G.
pub fn asks_by(
    clock: u64,
    active: bool,
    joined: Option<Expiry>,
    shared: Option<Expiry>,
    pruned: Option<Expiry>,
) -> bool
    ensures { result ≡ asks_by clock active joined shared pruned }
{
    counts(clock, joined) || (counts(clock, shared) && !counts(clock, pruned) && active)
}
