//! Octets that come at the back and are taken from the front.
ghost use Rattle.std.specs.Prelude.{◌≡◌, ◌≤◌, [], ◌++◌, length, take, drop, vec_len, IfOk, OnOk, OnErr};

use mv_base::{Bytes, NoMemory};
use std::alloc::Global;
use std::marker::Model;

/// Octets in order, which contracts see as a list. What was taken stands in front of `start` until it is more than half of all,
/// so that an octet is moved less than once for each that is taken.
#[derive(Drop)]
pub(crate) struct Octets {
    items: Vec<u8>,
    start: usize,
}

impl Model for Octets {
    ghost use Rattle.std.specs.Prelude.{◌≤◌, ℕ, List, length, drop};

    ghost Value = { List ℕ };

    ghost view = { λ o. drop o.start o.items.items };

    ghost invariant = { λ o. o.start ≤ length o.items.items };
}

fn remove_front(octets: &mut Vec<u8>, count: usize)
    requires { count ≤ vec_len octets.old }
    ensures { octets.new.items ≡ drop count octets.old.items }
{
    let len = octets.len();
    octets.as_mut_slice().copy_within(count..len, 0);
    octets.truncate(len - count);
}

/// The first so many of the octets, or all where there are fewer.
fn first(alloc: Global, octets: &[u8], count: usize) -> Result<Bytes, NoMemory>
    ensures { IfOk result (λ bytes. bytes ≡ take count octets.now) }
{
    let mut bytes = Bytes::new(alloc);
    bytes.extend(&octets[..count.min(octets.len())])?;
    Ok(bytes)
}

impl Octets {
    /// There are none. It takes no memory.
    pub(crate) fn new(alloc: Global) -> Octets
        ensures { result ≡ [] }
    {
        Octets {
            items: Vec::new(alloc),
            start: 0,
        }
    }

    pub(crate) fn len(&self) -> usize
        ensures { result ≡ length self.now }
    {
        self.items.len() - self.start
    }

    /// Puts the octets after those that are there.
    pub(crate) fn put(&mut self, octets: &[u8]) -> Result<(), NoMemory>
        ensures put { OnOk result (self.new ≡ self.old ++ octets.now) }
        ensures same { OnErr result (self.new ≡ self.old) }
    {
        self.items.extend_from_slice(octets)?;
        Ok(())
    }

    /// Takes the first so many octets, or all where there are fewer.
    pub(crate) fn take(&mut self, alloc: Global, count: usize) -> Result<Bytes, NoMemory>
        ensures taken { IfOk result (λ bytes. bytes ≡ take count self.old) }
        ensures rest { OnOk result (self.new ≡ drop count self.old) }
        ensures same { OnErr result (self.new ≡ self.old) }
    {
        let bytes = first(alloc, &self.items[self.start..], count)?;
        self.start += count.min(self.len());
        self.remove_taken();
        Ok(bytes)
    }

    /// Lets go of what was taken, where it is more than half.
    fn remove_taken(&mut self)
        ensures { self.new ≡ self.old }
    {
        if self.start > self.items.len() / 2 {
            remove_front(&mut self.items, self.start);
            self.start = 0;
        }
    }
}
