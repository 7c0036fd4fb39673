//! The two orders of the octets of a number.
ghost use Rattle.std.specs.Prelude.{◌≡◌};
ghost use Rattle.core_pcap.specs.Words.{word_of, half_of};

/// Which octet of the numbers of a header and of the front of a record comes first.
#[derive(Clone, Copy, PartialEq, Eq)]
pub enum ByteOrder {
    /// The most significant octet, as in all numbers that are written.
    BigEndian,
    /// The least significant octet.
    LittleEndian,
}

impl ByteOrder {
    /// The number of four octets.
    pub(crate) fn word(self, field: [u8; 4]) -> u32
        ensures { result ≡ word_of self field }
    {
        match self {
            ByteOrder::BigEndian => u32::from_be_bytes(field),
            ByteOrder::LittleEndian => u32::from_le_bytes(field),
        }
    }

    /// The number of two octets.
    pub(crate) fn half(self, field: [u8; 2]) -> u16
        ensures { result ≡ half_of self field }
    {
        match self {
            ByteOrder::BigEndian => u16::from_be_bytes(field),
            ByteOrder::LittleEndian => u16::from_le_bytes(field),
        }
    }
}
