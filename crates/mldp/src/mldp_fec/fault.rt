//! Why octets do not begin with a FEC element.
ghost use Rattle.std.specs.Prelude.{◌≡◌};
ghost use Rattle.mldp.specs.declared.mldp_fec.fault.FecReason.TheVariants as reasons;

use mv_base::Short;

/// What is wrong with a field.
#[derive(Clone, Copy, Debug, PartialEq, Eq)]
pub enum FecReason {
    /// Fewer octets are left than the field needs.
    Short,
    /// No kind of multipoint FEC element has this octet.
    Kind,
    /// No family of addresses has this number.
    Family,
    /// The length is not that of the family's addresses.
    AddressLength,
    /// No whole TLV of the opaque value begins here.
    OpaqueShape,
    /// The opaque value is longer than an `Opaque` holds.
    OpaqueTooLong,
}

/// The first fault of the octets, and its place, counted from 0.
#[derive(Clone, Copy, Debug, PartialEq, Eq)]
pub struct FecFault {
    pub place: u32,
    pub reason: FecReason,
}

impl From<Short> for FecFault {
    ghost from_gives = { λ short fault. fault ≡ record { place = short.place; reason = reasons.Short } };

    fn from(short: Short) -> FecFault {
        FecFault {
            place: short.place,
            reason: FecReason::Short,
        }
    }
}
