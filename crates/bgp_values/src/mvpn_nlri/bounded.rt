//! Reading fields that an enclosing length bounds.
ghost use Rattle.std.specs.Prelude.{◌≡◌, ◌+◌, ◌<◌, ◌^◌, length};
ghost use Rattle.bgp_values.specs.mvpn_nlri.Bounds.{bounded};
ghost use Rattle.bgp_values.specs.mvpn_nlri.Reading.{octets_within, octet_at, rd_at, as_at, Gives, end_at};

use crate::mvpn_nlri::fault::{RouteFault, RouteReason};
use mv_base::{Rd, Reader};
use std::marker::Model;

/// The octets of fields, and how many of them the enclosing length leaves. Contracts see them as `Bounded`.
#[derive(Drop)]
pub(crate) struct Fields<'a> {
    reader: Reader<'a>,
    within: usize,
}

impl<'a> Model for Fields<'a> {
    ghost use Rattle.std.specs.Prelude.{◌<◌, ◌^◌};
    ghost use Rattle.bgp_values.specs.mvpn_nlri.Bounds.{Bounded};

    ghost Value = { Bounded };

    ghost view = { λ f. record { left = f.reader.left; place = f.reader.place; within = f.within } };

    ghost invariant = { λ f. f.within < 2 ^ 32 };
}

impl<'a> Fields<'a> {
    /// The fields in these octets, of which the first stands at the place.
    pub(crate) fn of(bytes: &'a [u8], place: u32, within: usize) -> Fields<'a>
        requires room { place + length bytes.now < 2 ^ 32 }
        requires size { within < 2 ^ 32 }
        ensures { result ≡ record { left = bytes.now; place = place; within = within } }
    {
        Fields {
            reader: Reader::of(bytes, place),
            within,
        }
    }

    /// Where the next field stands.
    pub(crate) fn place(&self) -> u32
        ensures { result ≡ self.now.place }
    {
        self.reader.place()
    }

    /// How many octets the length leaves.
    pub(crate) fn within(&self) -> usize
        ensures value { result ≡ self.now.within }
        ensures bound { self.now.within < 2 ^ 32 }
    {
        self.within
    }

    /// Lets another length bound the fields.
    pub(crate) fn bound(&mut self, within: usize)
        requires { within < 2 ^ 32 }
        ensures { self.new ≡ bounded within self.old }
    {
        self.within = within;
    }

    /// Takes so many octets.
    pub(crate) fn take(&mut self, count: usize) -> Result<&'a [u8], RouteFault>
        requires { count < 2 ^ 32 }
        ensures { Gives (λ octets. octets.now) result self.new (octets_within count self.old) }
    {
        if self.within < count {
            return Err(RouteFault {
                place: self.reader.place(),
                reason: RouteReason::LengthTooSmall,
            });
        }
        let octets = self.reader.take(count)?;
        self.within -= count;
        Ok(octets)
    }

    /// Takes `N` octets.
    pub(crate) fn array<const N: usize>(&mut self) -> Result<[u8; N], RouteFault>
        requires { N < 2 ^ 32 }
        ensures { Gives (λ octets. octets) result self.new (octets_within N self.old) }
    {
        let octets = self.take(N)?;
        let mut array = [0; N];
        array.copy_from_slice(octets);
        Ok(array)
    }

    /// Takes one octet.
    #[tactic(auto, unfolding(crate::specs::mvpn_nlri::Reading::octet_at))]
    pub(crate) fn octet(&mut self) -> Result<u8, RouteFault>
        ensures { Gives (λ octet. octet) result self.new (octet_at self.old) }
    {
        let octets = self.take(1)?;
        Ok(octets[0])
    }

    /// Takes a Route Distinguisher.
    #[tactic(auto, unfolding(crate::specs::mvpn_nlri::Reading::rd_at))]
    pub(crate) fn rd(&mut self) -> Result<Rd, RouteFault>
        ensures { Gives (λ rd. rd) result self.new (rd_at self.old) }
    {
        Ok(Rd(self.array()?))
    }

    /// Takes a Source AS.
    #[tactic(auto, unfolding(crate::specs::mvpn_nlri::Reading::as_at))]
    pub(crate) fn source_as(&mut self) -> Result<u32, RouteFault>
        ensures { Gives (λ number. number) result self.new (as_at self.old) }
    {
        Ok(u32::from_be_bytes(self.array()?))
    }

    /// Expects that the length leaves nothing.
    pub(crate) fn end(&self) -> Result<(), RouteFault>
        ensures { result ≡ end_at self.now }
    {
        if self.within > 0 {
            return Err(RouteFault {
                place: self.reader.place(),
                reason: RouteReason::LengthTooLarge,
            });
        }
        Ok(())
    }
}
