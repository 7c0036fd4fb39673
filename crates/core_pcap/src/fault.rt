//! Why octets are no file of hops.
use mv_base::NoMemory;

/// What is wrong with a field.
#[derive(Clone, Copy, Debug, PartialEq, Eq)]
pub enum PcapFault {
    /// Fewer octets are left than the field needs.
    Short,
    /// The first four octets name no order of octets.
    Magic,
    /// The version is not 2.4.
    Version,
    /// The network is not 1, Ethernet.
    Network,
    /// The microseconds are not a multiple of 1,000 below 1,000,000.
    Time,
    /// The length of a frame is below 18 or above 65,535, or its two lengths differ.
    Length,
    /// An address is not one of a node.
    Address,
    /// The frame has another protocol than MPLS.
    EtherType,
    /// The label stack entry has a traffic class other than 0, is not the bottom of its stack, or has a label below 16 or a
    /// TTL of 0.
    Shim,
}

/// Why a reader of fields stopped.
#[derive(Clone, Copy, Debug, PartialEq, Eq)]
pub(crate) enum ReadFault {
    /// The first fault, and how many octets there are from its place to the end of the input.
    Bad { left: usize, fault: PcapFault },
    /// There was no memory for the value.
    NoMemory,
}

impl From<NoMemory> for ReadFault {
    ghost use Rattle.std.specs.Prelude.{◌≡◌};
    ghost use Rattle.core_pcap.specs.declared.fault.ReadFault.TheVariants as answers;

    ghost from_gives = { λ _ fault. fault ≡ answers.NoMemory };

    fn from(_: NoMemory) -> Self {
        ReadFault::NoMemory
    }
}
