//! Why a text gave no line.
use thiserror::Error;

/// Why a text gave no line.
#[derive(Debug, Drop, Error)]
pub enum LineFault {
    #[error("no line of a report of the scenario")]
    NotALine,
    #[error("out of memory")]
    NoMemory,
}

impl From<mv_base::NoMemory> for LineFault {
    ghost use Rattle.std.specs.Prelude.{◌≡◌};
    ghost use Rattle.report_text.specs.declared.report_lines.fault.LineFault.TheVariants.{NoMemory};

    ghost from_gives = { λ _ e. e ≡ NoMemory };

    fn from(_: mv_base::NoMemory) -> Self {
        LineFault::NoMemory
    }
}
