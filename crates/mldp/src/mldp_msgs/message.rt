//! Label messages.
use crate::mldp_fec::Fec;

/// The type of Label Mapping messages (RFC 5036 section 3.7).
pub(crate) const MAPPING: u16 = 0x0400;

/// The type of Label Withdraw messages (RFC 5036 section 3.7).
pub(crate) const WITHDRAW: u16 = 0x0402;

/// The type of Label Release messages (RFC 5036 section 3.7).
pub(crate) const RELEASE: u16 = 0x0403;

/// What a message says.
#[derive(Clone, Copy, PartialEq, Eq)]
pub enum LabelMessage {
    /// The label is mapped to the FEC (RFC 5036 section 3.5.7).
    Mapping(Fec, u32),
    /// The mapping is withdrawn (RFC 5036 section 3.5.10).
    Withdraw(Fec, u32),
    /// The label is no longer needed (RFC 5036 section 3.5.11).
    Release(Fec, u32),
    /// A message of this type that says nothing of a multipoint LSP: of another type, or its FEC is of another kind.
    Ignored(u16),
}
