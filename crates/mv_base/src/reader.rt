//! Reading octets from the front of a slice.
ghost use Rattle.std.specs.Prelude.{◌≡◌, ◌+◌, ◌<◌, ◌^◌, length, OnErr};
ghost use Rattle.std.specs.Int.{w16, w32};
ghost use Rattle.mv_base.specs.Cursor.{octet_at, octets_at, number_at, number24_at, Reads};

use std::marker::Model;

/// Fewer octets are left than a field needs, and where the first of them stands.
#[derive(Clone, Copy, Debug, PartialEq, Eq)]
pub struct Short {
    pub place: u32,
    pub needed: u32,
    pub left: u32,
}

/// The octets that are left of an input, and where the first of them stands. Contracts see it as a `Cursor`.
#[derive(Drop)]
pub struct Reader<'a> {
    left: &'a [u8],
    place: u32,
}

impl<'a> Model for Reader<'a> {
    ghost use Rattle.std.specs.Prelude.{◌+◌, ◌<◌, ◌^◌, length};
    ghost use Rattle.mv_base.specs.Octets.{Cursor};

    ghost Value = { Cursor };

    ghost view = { λ r. record { left = r.left.now; place = r.place } };

    ghost invariant = { λ r. r.place + length r.left.now < 2 ^ 32 };
}

impl<'a> Reader<'a> {
    /// A reader of these octets, of which the first stands at the place.
    pub fn of(bytes: &'a [u8], place: u32) -> Reader<'a>
        requires { place + length bytes.now < 2 ^ 32 }
        ensures { result ≡ record { left = bytes.now; place = place } }
    {
        Reader { left: bytes, place }
    }

    /// How many octets are left.
    pub fn len(&self) -> usize
        ensures { result ≡ length self.now.left }
    {
        self.left.len()
    }

    /// Where the first octet that is left stands.
    pub fn place(&self) -> u32
        ensures value { result ≡ self.now.place }
        ensures bound { self.now.place + length self.now.left < 2 ^ 32 }
    {
        self.place
    }

    /// All octets that are left.
    pub fn rest(&self) -> &'a [u8]
        ensures { result.now ≡ self.now.left }
    {
        self.left
    }

    /// Takes so many octets from the front.
    pub fn take(&mut self, count: usize) -> Result<&'a [u8], Short>
        requires { count < 2 ^ 32 }
        ensures reads { Reads (λ octets. octets.now) result self.new (octets_at count self.old) }
        ensures unchanged { OnErr result (self.new ≡ self.old) }
    {
        if self.left.len() < count {
            return Err(Short {
                place: self.place,
                needed: count as u32,
                left: self.left.len() as u32,
            });
        }
        let (front, rest) = self.left.split_at(count);
        self.left = rest;
        self.place += count as u32;
        Ok(front)
    }

    /// Takes `N` octets from the front.
    pub fn array<const N: usize>(&mut self) -> Result<[u8; N], Short>
        requires { N < 2 ^ 32 }
        ensures reads { Reads (λ octets. octets) result self.new (octets_at N self.old) }
        ensures unchanged { OnErr result (self.new ≡ self.old) }
    {
        let octets = self.take(N)?;
        let mut array = [0; N];
        array.copy_from_slice(octets);
        Ok(array)
    }

    /// Takes one octet.
    pub fn u8(&mut self) -> Result<u8, Short>
        ensures reads { Reads (λ octet. octet) result self.new (octet_at self.old) }
        ensures unchanged { OnErr result (self.new ≡ self.old) }
    {
        let octets = self.take(1)?;
        Ok(octets[0])
    }

    /// Takes a number of two octets, the most significant first.
    pub fn u16(&mut self) -> Result<u16, Short>
        ensures reads { Reads (λ number. number) result self.new (number_at w16 self.old) }
        ensures unchanged { OnErr result (self.new ≡ self.old) }
    {
        let octets = self.take(2)?;
        Ok(u16::from_be_bytes([octets[0], octets[1]]))
    }

    /// Takes a number of three octets, the most significant first.
    pub fn u24(&mut self) -> Result<u32, Short>
        ensures reads { Reads (λ number. number) result self.new (number24_at self.old) }
        ensures unchanged { OnErr result (self.new ≡ self.old) }
    {
        let octets = self.take(3)?;
        Ok(u32::from_be_bytes([0, octets[0], octets[1], octets[2]]))
    }

    /// Takes a number of four octets, the most significant first.
    pub fn u32(&mut self) -> Result<u32, Short>
        ensures reads { Reads (λ number. number) result self.new (number_at w32 self.old) }
        ensures unchanged { OnErr result (self.new ≡ self.old) }
    {
        let octets = self.take(4)?;
        Ok(u32::from_be_bytes([octets[0], octets[1], octets[2], octets[3]]))
    }
}
