//! What is wrong with the octets of a session.
use crate::mldp_fec::FecReason;

/// The first fault of a stream. Its place is counted from the first octet of the stream.
#[derive(Clone, Copy, Debug, PartialEq, Eq)]
pub enum LdpFault {
    /// The PDU has another version than 1. It stands at the PDU's first octet.
    Version,
    /// The PDU length isn't 6 to 4096 octets. It stands at the length.
    PduLength,
    /// A message length is below 4 octets, or passes the PDU: at the length. Or the PDU leaves only 1 to 3 octets for a
    /// message: at the first of them.
    MessageLength,
    /// A TLV passes the message, a label TLV has another length than 4, octets stand after the FEC element, or a second
    /// FEC or label TLV comes. It stands at the TLV's first octet.
    TlvLength,
    /// A TLV of an unknown type, whose U bit is clear. It stands at the TLV's first octet.
    UnknownTlv,
    /// A label message has no FEC TLV, or no label TLV. It stands at the message's first octet.
    MissingTlv,
    /// A label below 16. It stands at the value of the label TLV.
    Label,
    /// A fault of the FEC element, at its place.
    Fec(FecReason),
}

/// Why a stream did not take a piece.
pub type FeedFault = mv_base::framing::FeedFault<LdpFault>;
