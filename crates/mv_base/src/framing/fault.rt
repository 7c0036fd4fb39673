//! Why a stream did not take a piece.
use crate::NoMemory;

/// Why a stream did not take a piece.
#[derive(Clone, Copy, Debug, PartialEq, Eq)]
pub enum FeedFault<E> {
    /// The first fault of the stream, and its place, counted from the stream's first octet. A place past the greatest
    /// number is that number.
    First { place: u64, fault: E },
    /// The stream had a fault before.
    Failed,
    /// There was no memory for the piece.
    NoMemory,
}

impl<E> From<NoMemory> for FeedFault<E> {
    ghost use Rattle.std.specs.Prelude.{◌≡◌};
    ghost use Rattle.mv_base.specs.declared.framing.fault.FeedFault.TheVariants as faults;

    ghost from_gives = { λ _ fault. fault ≡ faults.NoMemory };

    fn from(_: NoMemory) -> Self {
        FeedFault::NoMemory
    }
}
