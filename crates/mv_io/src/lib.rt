//! Where octets come from and go to. A call of a source or a sink comes in, and octets or a fault goes out; faults are
//! counted, so that a contract can say that nothing else failed (`specs/Causes.antt`). `source.rt` and `sink.rt` have
//! the traits `Source` and `Sink`, with `write_all`; `specs/Octets.antt` says what was appended. Three kinds of devices
//! meet them. `StdSource` and `StdSink` (`standard.rt`) are over a reader and a writer of the standard library, and
//! promise nothing of content. `MemSource` and `MemSink` (`memory.rt`) are in memory and fail at chosen calls
//! (`calls.rt`), and `SureSource` and `SureSink` (`sure.rt`) never fail; `held.rt` has what both share. It uses no
//! other crate. Above it `mvpn_tool` reads and writes by the traits alone, `mvpn` hands it the standard streams, and
//! the crates of tests hand it devices in memory.
#![tactic(auto)]

mod calls;
mod held;
mod memory;
mod sink;
mod source;
mod standard;
mod sure;

pub use calls::CallNumbers;
pub use memory::{MemSink, MemSource};
pub use sink::{Sink, SinkFailed, write_all};
pub use source::{Source, SourceFailed};
pub use standard::{StdSink, StdSource};
pub use sure::{SureSink, SureSource};
