//! The copies on one way of a link, in their order.
ghost use Rattle.std.specs.Prelude.{◌≡◌, [], length, slice_get};
ghost use Rattle.std.specs.List.{remove};
ghost use Rattle.data_plane.specs.link_copies.Kept.{recent};

use crate::link_copies::kept::Kept;
use std::alloc::Global;
use std::collections::VecDeque;
use std::marker::Model;

/// Copies, the first to land in front. To take one out moves those of its shorter side.
#[derive(Drop)]
pub(crate) struct Queue {
    pub(crate) copies: VecDeque<Kept>,
}

impl Model for Queue {
    ghost use Rattle.std.specs.Prelude.{List};
    ghost use Rattle.data_plane.specs.link_copies.CopiesData.{KeptCopy};

    ghost Value = { List KeptCopy };

    ghost view = { λ q. q.copies.items };
}

fn drop_old(copies: &mut VecDeque<Kept>, now: u64, life: u64)
    ensures { copies.new.items ≡ recent now life copies.old.items }
{
    copies.retain(|kept| kept.is_recent(now, life));
}

impl Queue {
    /// There are none. It takes no memory.
    pub(crate) fn new(alloc: Global) -> Queue
        ensures { result ≡ [] }
    {
        Queue {
            copies: VecDeque::new(alloc),
        }
    }

    pub(crate) fn len(&self) -> usize
        ensures { result ≡ length self.now }
    {
        self.copies.len()
    }

    /// The copy at that place, counted from 0.
    pub(crate) fn at(&self, place: usize) -> Option<Kept>
        ensures { result ≡ slice_get self.now place }
    {
        match self.copies.get(place) {
            None => None,
            Some(kept) => Some(*kept),
        }
    }

    /// Takes the copy at that place out, where there is one.
    pub(crate) fn take_out(&mut self, place: usize)
        ensures { self.new ≡ remove self.old place }
    {
        self.copies.remove(place);
    }

    /// Drops those that have been on their link for longer than they may.
    pub(crate) fn drop_old(&mut self, now: u64, life: u64)
        ensures { self.new ≡ recent now life self.old }
    {
        drop_old(&mut self.copies, now, life);
    }
}
