//! When a delay is over.
ghost use Rattle.std.specs.Prelude.{◌≡◌};
ghost use Rattle.selective.specs.Delays.{is_due};

/// Whether a delay from that moment on is over at the clock.
pub(crate) fn is_due(delay: u64, now: u64, since: u64) -> bool
    ensures { result ≡ is_due delay now since }
{
    since <= now && now - since >= delay
}
