//! What is wrong with a text.
ghost use Rattle.std.specs.Prelude.{◌≡◌};
ghost use Rattle.line_words.specs.FaultText.{reason_word};

use std::alloc::{AllocError, AllocFailed};
use thiserror::Error;

/// What is wrong at a place of a text.
#[derive(Clone, Copy, Debug, PartialEq, Eq)]
pub enum Reason {
    Line,
    Byte,
    Word,
    Limit,
    Count,
    Number,
    Name,
    Again,
    Unknown,
    Address,
    Rd,
    Targets,
    Choice,
    Prefix,
    Source,
    Group,
    Hex,
    Overlap,
    Vpn,
    Mixed,
    Taken,
    /// A thing is named twice where two are needed. Its word is `self`.
    Same,
    Link,
    Family,
    Apart,
    Events,
    /// No line `report` is there, or a line after it is no line of a report.
    Report,
    /// No line `probe` is there.
    Probe,
    /// A first line that is none of a root, or octets that are not a root's advertisement.
    Root,
    Long,
}

/// The most octets of a text. A longer one has the fault `Long`, at line 1 and column 1.
pub const TEXT_LIMIT: usize = 16_777_216;

/// The word that tells a reason.
pub fn reason_word(reason: Reason) -> &'static [u8]
    ensures { result.now ≡ reason_word reason }
{
    match reason {
        Reason::Line => b"line",
        Reason::Byte => b"byte",
        Reason::Word => b"word",
        Reason::Limit => b"limit",
        Reason::Count => b"count",
        Reason::Number => b"number",
        Reason::Name => b"name",
        Reason::Again => b"again",
        Reason::Unknown => b"unknown",
        Reason::Address => b"address",
        Reason::Rd => b"rd",
        Reason::Targets => b"targets",
        Reason::Choice => b"choice",
        Reason::Prefix => b"prefix",
        Reason::Source => b"source",
        Reason::Group => b"group",
        Reason::Hex => b"hex",
        Reason::Overlap => b"overlap",
        Reason::Vpn => b"vpn",
        Reason::Mixed => b"mixed",
        Reason::Taken => b"taken",
        Reason::Same => b"self",
        Reason::Link => b"link",
        Reason::Family => b"family",
        Reason::Apart => b"apart",
        Reason::Events => b"events",
        Reason::Report => b"report",
        Reason::Probe => b"probe",
        Reason::Root => b"root",
        Reason::Long => b"long",
    }
}

/// What is wrong with a text, and where. Lines and columns count from 1.
#[derive(Clone, Copy, Debug, PartialEq, Eq)]
pub struct TextFault {
    pub line: u32,
    pub column: u32,
    pub reason: Reason,
}

/// The fault of that reason at a line and a column, which count from 1.
pub fn fault_at(line: u32, column: u32, reason: Reason) -> TextFault
    ensures { result ≡ record { line = line; column = column; reason = reason } }
{
    TextFault {
        line,
        column,
        reason,
    }
}

/// Why a text was not read.
#[derive(Debug, Drop, Error)]
pub enum ReadFault {
    #[error("line {}, column {}: {:?}", .0.line, .0.column, .0.reason)]
    Text(TextFault),
    #[error("out of memory")]
    NoMemory,
}

impl From<TextFault> for ReadFault {
    ghost use Rattle.std.specs.Prelude.{◌≡◌};
    ghost use Rattle.line_words.specs.declared.fault.ReadFault.TheVariants.{Text};

    ghost from_gives = { λ fault e. e ≡ Text fault };

    fn from(fault: TextFault) -> Self {
        ReadFault::Text(fault)
    }
}

impl From<mv_base::NoMemory> for ReadFault {
    ghost use Rattle.std.specs.Prelude.{◌≡◌};
    ghost use Rattle.line_words.specs.declared.fault.ReadFault.TheVariants.{NoMemory};

    ghost from_gives = { λ _ e. e ≡ NoMemory };

    fn from(_: mv_base::NoMemory) -> Self {
        ReadFault::NoMemory
    }
}

impl From<AllocError> for ReadFault {
    ghost use Rattle.std.specs.Prelude.{◌≡◌};
    ghost use Rattle.line_words.specs.declared.fault.ReadFault.TheVariants.{NoMemory};

    ghost from_gives = { λ _ e. e ≡ NoMemory };

    fn from(_: AllocError) -> Self {
        ReadFault::NoMemory
    }
}

impl<T: Drop> From<AllocFailed<T>> for ReadFault {
    ghost use Rattle.std.specs.Prelude.{◌≡◌};
    ghost use Rattle.line_words.specs.declared.fault.ReadFault.TheVariants.{NoMemory};

    ghost from_gives = { λ _ e. e ≡ NoMemory };

    fn from(_: AllocFailed<T>) -> Self {
        ReadFault::NoMemory
    }
}
