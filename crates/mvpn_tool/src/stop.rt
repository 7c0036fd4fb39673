//! Why a replay ends early.
ghost use Rattle.std.specs.Prelude.{◌≡◌};
ghost use Rattle.mvpn_tool.specs.declared.stop.Stop.TheVariants as stops;

use mv_base::NoMemory;
use mv_io::{SinkFailed, SourceFailed};
use std::alloc::{AllocError, AllocFailed};

/// Why a replay ended early.
#[derive(Clone, Copy, PartialEq, Eq)]
pub enum Stop {
    /// The text has a fault, and the line that shows it was written.
    Text,
    /// The source failed.
    Source,
    /// The sink failed.
    Sink,
    /// There was no memory.
    Memory,
    /// An event runs out of labels, and the report was written up to there.
    Label,
}

impl From<SourceFailed> for Stop {
    ghost from_gives = { λ _ e. e ≡ stops.Source };

    fn from(_: SourceFailed) -> Self {
        Stop::Source
    }
}

impl From<SinkFailed> for Stop {
    ghost from_gives = { λ _ e. e ≡ stops.Sink };

    fn from(_: SinkFailed) -> Self {
        Stop::Sink
    }
}

impl From<NoMemory> for Stop {
    ghost from_gives = { λ _ e. e ≡ stops.Memory };

    fn from(_: NoMemory) -> Self {
        Stop::Memory
    }
}

impl From<AllocError> for Stop {
    ghost from_gives = { λ _ e. e ≡ stops.Memory };

    fn from(_: AllocError) -> Self {
        Stop::Memory
    }
}

impl<T: Drop> From<AllocFailed<T>> for Stop {
    ghost from_gives = { λ _ e. e ≡ stops.Memory };

    fn from(_: AllocFailed<T>) -> Self {
        Stop::Memory
    }
}
