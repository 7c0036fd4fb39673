//! What came of a stream.
ghost use Rattle.std.specs.Prelude.{◌≡◌, ◌≤◌, ◌++◌, length, take, drop, vec_len, IfOk, Ok, None};
ghost use Rattle.mv_base.specs.framing.Feed.{unfed};
ghost use Rattle.mv_base.specs.framing.Feeding.{Appends, Accepts, NextIs, unfinished};

use crate::NoMemory;
use crate::framing::{Cutting, FeedFault};
use std::alloc::Global;
use std::collections::VecDeque;
use std::marker::Model;

/// What came of a stream: the messages that wait, the octets held back because they begin a unit that has not come
/// whole, how many octets stand before these, and the first fault, once there is one. Contracts see it as a `Fed`.
#[derive(Drop)]
pub struct Inbound<M, E> {
    waiting: VecDeque<M>,
    held: Vec<u8>,
    before: u64,
    fault: Option<(u64, E)>,
}

impl<M, E> Model for Inbound<M, E> {
    ghost use Rattle.mv_base.specs.framing.Feed.{Fed};

    ghost Value = { Fed M E };

    ghost view = { λ s. record { waiting = s.waiting.items; held = s.held.items; before = s.before; fault = s.fault } };
}

fn remove_front(octets: &mut Vec<u8>, count: usize)
    requires { count ≤ vec_len octets.old }
    ensures { octets.new.items ≡ drop count octets.old.items }
{
    let len = octets.len();
    octets.as_mut_slice().copy_within(count..len, 0);
    octets.truncate(len - count);
}

impl<M: Drop, E: Copy + Drop> Inbound<M, E> {
    /// Nothing has come. It takes no memory.
    pub fn of(alloc: Global) -> Self
        ensures { result ≡ unfed }
    {
        Inbound {
            waiting: VecDeque::new(alloc),
            held: Vec::new(alloc),
            before: 0,
            fault: None,
        }
    }

    /// The allocator that the octets and messages take their memory from.
    pub fn alloc(&self) -> Global {
        *self.held.allocator()
    }

    /// The octets held back.
    pub fn held(&self) -> &[u8]
        ensures { result.now ≡ self.now.held }
    {
        &self.held
    }

    /// The place of the first octet held back, where there is one.
    pub fn unfinished(&self) -> Option<u64>
        ensures { result ≡ unfinished self.now }
    {
        if self.held.is_empty() {
            None
        } else {
            Some(self.before)
        }
    }

    /// Puts the piece after the octets held back, unless the stream has had a fault.
    pub fn append(&mut self, piece: &[u8]) -> Result<(), FeedFault<E>>
        ensures { Appends self.old piece.now result self.new }
    {
        if self.fault.is_some() {
            return Err(FeedFault::Failed);
        }
        match self.held.extend_from_slice(piece) {
            Ok(()) => Ok(()),
            Err(_) => Err(FeedFault::NoMemory),
        }
    }

    /// Takes what was found in the octets held back: its messages wait, and the octets of whole units are let go, or
    /// all octets where there is a fault. Where there was no memory, only the first `len` octets stay held back. The
    /// stream has had no fault.
    pub fn accept(
        &mut self,
        len: usize,
        found: Result<Cutting<M, E>, NoMemory>,
    ) -> Result<(), FeedFault<E>>
        requires sound { self.old.fault ≡ None }
        requires within { IfOk found (λ c. c.len ≤ length self.old.held) }
        ensures { Accepts self.old len found result self.new }
    {
        match found {
            Ok(cutting) => self.accept_units(len, cutting),
            Err(_) => {
                self.held.truncate(len);
                Err(FeedFault::NoMemory)
            }
        }
    }

    fn accept_units(&mut self, len: usize, cutting: Cutting<M, E>) -> Result<(), FeedFault<E>>
        requires sound { self.old.fault ≡ None }
        requires within { cutting.len ≤ length self.old.held }
        ensures { Accepts self.old len (Ok cutting) result self.new }
    {
        let Cutting {
            messages,
            len: whole,
            fault,
        } = cutting;
        let mut messages = VecDeque::from_vec(messages);
        if self.waiting.append(&mut messages).is_err() {
            self.held.truncate(len);
            return Err(FeedFault::NoMemory);
        }
        let before = self.before;
        self.before = before.saturating_add(whole as u64);
        match fault {
            None => {
                remove_front(&mut self.held, whole);
                Ok(())
            }
            Some((place, fault)) => {
                self.held.clear();
                let place = before.saturating_add(place as u64);
                self.fault = Some((place, fault));
                Err(FeedFault::First { place, fault })
            }
        }
    }

    /// Takes the first message that waits.
    pub fn next(&mut self) -> Option<M>
        ensures { NextIs self.old result self.new }
    {
        self.waiting.pop_front()
    }
}
