//! A copy on a link, and the datagram that is being handled.
ghost use Rattle.std.specs.Prelude.{◌≡◌};
ghost use Rattle.data_plane.specs.link_copies.CopiesData.{current_of, copy_on, is_recent};
ghost use Rattle.data_plane.specs.link_copies.Kept.{landed_of};

use buf_pool::Buf;
use label_forwarding::Branch;
use std::marker::Model;

/// What a node that takes a copy is told of it.
#[derive(Clone, Copy)]
pub struct Landed {
    pub label: u32,
    pub ttl: u8,
    pub number: u64,
}

/// A copy on a link, with the buffer that has the octets of its datagram.
#[derive(Clone, Copy)]
pub(crate) struct Kept {
    label: u32,
    ttl: u8,
    put_at: u64,
    number: u64,
    buffer: Buf,
}

impl Model for Kept {
    ghost use Rattle.data_plane.specs.link_copies.CopiesData.{KeptCopy};

    ghost Value = { KeptCopy };

    ghost view = { λ k. record {
      copy = record { label = k.label; ttl = k.ttl; put_at = k.put_at; number = k.number };
      buffer = k.buffer;
    } };

    ghost inverse = { λ k. record {
      label = k.copy.label;
      ttl = k.copy.ttl;
      put_at = k.copy.put_at;
      number = k.copy.number;
      buffer = k.buffer;
    } };
}

/// The datagram that is being handled, with the buffer that has its octets.
#[derive(Clone, Copy)]
pub(crate) struct Handled {
    number: u64,
    buffer: Buf,
}

impl Model for Handled {
    ghost use Rattle.data_plane.specs.link_copies.CopiesData.{Current};

    ghost Value = { Current };

    ghost view = { λ h. record { number = h.number; buffer = h.buffer } };

    ghost inverse = { λ h. record { number = h.number; buffer = h.buffer } };
}

impl Kept {
    /// A copy of the datagram, on a branch.
    pub(crate) fn on(handled: &Handled, branch: Branch, ttl: u8, now: u64) -> Kept
        ensures { result ≡ copy_on ttl now handled.now branch }
    {
        Kept {
            label: branch.label,
            ttl,
            put_at: now,
            number: handled.number,
            buffer: handled.buffer,
        }
    }

    pub(crate) fn landed(&self) -> Landed
        ensures { result ≡ landed_of self.now }
    {
        Landed {
            label: self.label,
            ttl: self.ttl,
            number: self.number,
        }
    }

    pub(crate) fn handled(&self) -> Handled
        ensures { result ≡ current_of self.now }
    {
        Handled {
            number: self.number,
            buffer: self.buffer,
        }
    }

    pub(crate) fn buffer(&self) -> &Buf
        ensures { result.now ≡ self.now.buffer }
    {
        &self.buffer
    }

    /// Whether it has been on its link for no longer than it may.
    pub(crate) fn is_recent(&self, now: u64, life: u64) -> bool
        ensures { result ≡ is_recent now life self.now }
    {
        now <= self.put_at.saturating_add(life)
    }
}

impl Handled {
    pub(crate) fn of(number: u64, buffer: Buf) -> Handled
        ensures { result ≡ record { number = number; buffer = buffer } }
    {
        Handled { number, buffer }
    }

    pub(crate) fn buffer(&self) -> &Buf
        ensures { result.now ≡ self.now.buffer }
    {
        &self.buffer
    }
}
