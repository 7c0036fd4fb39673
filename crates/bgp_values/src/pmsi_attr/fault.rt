//! Why octets are not the value of a PMSI Tunnel attribute.
use mldp::mldp_fec::FecReason;

/// What is wrong with a field.
#[derive(Clone, Copy, Debug, PartialEq, Eq)]
pub enum PmsiReason {
    /// Fewer octets are left than the field needs.
    Short,
    /// The tunnel type is above 7.
    TunnelType,
    /// The tunnel type has no such identifier.
    Identifier,
    /// No FEC element stands at the front of the identifier.
    Fec(FecReason),
}

/// The first fault of the octets, and its place, counted from 0.
#[derive(Clone, Copy, Debug, PartialEq, Eq)]
pub struct PmsiFault {
    pub place: u32,
    pub reason: PmsiReason,
}
