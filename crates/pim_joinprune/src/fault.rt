//! Why octets are no Join/Prune message.
use mv_base::NoMemory;

/// What is wrong with a field.
#[derive(Clone, Copy, Debug, PartialEq, Eq)]
pub enum PimFault {
    /// Fewer octets are left than the field needs.
    Short,
    /// The version is not 2 (RFC 7761 section 4.9).
    Version,
    /// The type is not 3, Join/Prune (RFC 7761 section 4.9).
    PimType,
    /// The checksum is not that of the octets, with IPv6 after a pseudo-header (RFC 7761 section 4.9; RFC 1071).
    Checksum,
    /// The first address family is neither 1, IPv4, nor 2, IPv6, or a later one is another (RFC 7761 section 4.9.1).
    Family,
    /// An encoding type is not 0, the native one (RFC 7761 section 4.9.1).
    Encoding,
    /// A mask length is not that of a whole address, as a Join/Prune message has to have it (RFC 7761 section 4.9.5).
    MaskLength,
    /// A source has the flag W without the flag R.
    Flags,
    /// The address of a group is not multicast.
    NotMulticast,
    /// Octets stand after the last group.
    Trailing,
}

/// Why no message was read.
#[derive(Clone, Copy, Debug, PartialEq, Eq)]
pub enum DecodeFault {
    /// The first fault, and its place, counted from 0.
    Bad { place: u32, fault: PimFault },
    /// There was no memory for the value.
    NoMemory,
}

impl From<NoMemory> for DecodeFault {
    ghost use Rattle.std.specs.Prelude.{◌≡◌};
    ghost use Rattle.pim_joinprune.specs.declared.fault.DecodeFault.TheVariants as answers;

    ghost from_gives = { λ _ fault. fault ≡ answers.NoMemory };

    fn from(_: NoMemory) -> Self {
        DecodeFault::NoMemory
    }
}

/// Why a reader of fields stopped.
#[derive(Clone, Copy, Debug, PartialEq, Eq)]
pub(crate) enum ReadFault {
    /// The first fault, and how many octets there are from its place to the end of the input.
    Bad { left: usize, fault: PimFault },
    /// There was no memory for the value.
    NoMemory,
}

impl From<NoMemory> for ReadFault {
    ghost use Rattle.std.specs.Prelude.{◌≡◌};
    ghost use Rattle.pim_joinprune.specs.declared.fault.ReadFault.TheVariants as answers;

    ghost from_gives = { λ _ fault. fault ≡ answers.NoMemory };

    fn from(_: NoMemory) -> Self {
        ReadFault::NoMemory
    }
}
