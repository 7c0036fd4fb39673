//! When entries end.
ghost use Rattle.std.specs.Prelude.{◌≡◌, ◌+◌, ◌<◌, ◌^◌};
ghost use Rattle.pim_defs.specs.Expiry.{is_after, counts, later, held_until, latest, extended};

/// When an entry ends, unless it is joined or pruned again (RFC 7761 section 4.5).
#[derive(Clone, Copy, PartialEq, Eq)]
pub enum Expiry {
    /// At this moment of the clock.
    At(u64),
    Never,
}

/// The holdtime of an entry without end (RFC 7761 section 4.9.5).
const ENDLESS: u16 = 0xFFFF;

impl Expiry {
    /// Whether it comes after the clock.
    pub fn is_after(self, clock: u64) -> bool
        ensures { result ≡ is_after self clock }
    {
        match self {
            Expiry::At(moment) => clock < moment,
            Expiry::Never => true,
        }
    }

    fn later(self, other: Expiry) -> Expiry
        ensures { result ≡ later self other }
    {
        match (self, other) {
            (Expiry::At(own), Expiry::At(others)) => Expiry::At(own.max(others)),
            _ => Expiry::Never,
        }
    }
}

/// What a holdtime that begins at the clock sets.
fn held_until(clock: u64, holdtime: u16) -> Expiry
    requires { clock < 2 ^ 63 }
    ensures { result ≡ held_until clock holdtime }
{
    if holdtime == ENDLESS {
        Expiry::Never
    } else {
        Expiry::At(clock + u64::from(holdtime))
    }
}

/// The later one of what an entry has and what a holdtime sets.
fn latest(clock: u64, holdtime: u16, old: Option<Expiry>) -> Expiry
    requires { clock < 2 ^ 63 }
    ensures { result ≡ latest clock holdtime old }
{
    match old {
        Some(expiry) => expiry.later(held_until(clock, holdtime)),
        None => held_until(clock, holdtime),
    }
}

/// Whether an entry with this expiry is there and counts: it ends after the clock.
pub fn counts(clock: u64, expiry: Option<Expiry>) -> bool
    ensures { result ≡ counts clock expiry }
{
    match expiry {
        Some(expiry) => expiry.is_after(clock),
        None => false,
    }
}

/// The expiry of an entry that is joined, or pruned off the shared tree, at the clock for a holdtime.
pub fn extended(clock: u64, holdtime: u16, old: Option<Expiry>) -> Option<Expiry>
    requires { clock < 2 ^ 63 }
    ensures { result ≡ extended clock holdtime old }
{
    let latest = latest(clock, holdtime, old);
    if latest.is_after(clock) {
        Some(latest)
    } else {
        old
    }
}
